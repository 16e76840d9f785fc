//! Recovery: what an open journal says is made again.
ghost use Rattle.std.specs.Prelude.{◌≡◌, ◌≢◌, ◌⊎◌, ◌≤◌, ◌<◌, List, ℕ, [], ◌∷◌, length, Some, None, Err, OnOk, OnErr, IfOk, IfErr};
ghost use Rattle.verity_disks.specs.declared.disks.Device.TheVariants.{Data, Hash, Journal};
ghost use Rattle.verity_disks.specs.Disks.{Contents, put, Only, Stays, Elapses, LeavesOnly, IsDurable};
ghost use Rattle.verity_journal.specs.Journal.{plan_of, IsJournal, IsSettled, IsForeign, pair_of, recovered_pair};

use crate::Plan;
use crate::changing::write_synced;
use crate::head::{Gate, SHUT, gate_of};
use crate::journal::carry_out;
use crate::reading::parse_journal;
use std::alloc::{AllocError, Allocator};
use verity_disks::{Device, DiskFault, Disks};

/// All bytes of a device.
fn read_all<K: Disks, A: Allocator + Copy>(
    alloc: A,
    disks: &mut K,
    device: Device,
) -> Result<Vec<u8, A>, DiskFault>
    ensures bytes { IfOk result (λ bytes. bytes.items ≡ K.seen disks.old device) }
    ensures seen { K.seen disks.new ≡ K.seen disks.old }
    ensures crash { Stays (K.may_leave disks.old) (K.may_leave disks.new) }
    ensures time { Elapses (K.moment disks.old) (K.moment disks.new)
        (K.left_since disks.old) (K.left_since disks.new) (K.may_leave disks.new) }
    ensures failed { result ≡ Err DiskFault.Device → K.faults disks.old < K.faults disks.new }
    ensures own { result ≢ Err DiskFault.Foreign }
    ensures faults { K.faults disks.old ≤ K.faults disks.new }
{
    let len = disks.len(device);
    let Ok(mut bytes) = vec![in alloc; 0; len as usize] else {
        return Err(DiskFault::NoMemory);
    };
    disks.read_at(device, 0, &mut bytes)?;
    Ok(bytes)
}

/// Ends the making of a journal's head by a closed gate: where no more than a beginning of it stands there, 13 bytes are written. Where the
/// gate is closed nothing is done. Foreign where the bytes are no journal's: nothing is changed.
fn shut<K: Disks>(disks: &mut K, journal: &[u8]) -> Result<(), DiskFault>
    requires durable { IsDurable (K.seen disks.old) (K.may_leave disks.old) }
    requires journal { journal.now ≡ K.seen disks.old Journal }
    requires none { plan_of (K.seen disks.old Journal) ≡ None }
    ensures volume { OnOk result (pair_of (K.seen disks.new) ≡ recovered_pair (K.seen disks.old)) }
    ensures settled { OnOk result (IsSettled (K.seen disks.new) (K.may_leave disks.new)) }
    ensures any_moment { LeavesOnly K.moment K.left_since disks.old disks.new (λ c. recovered_pair c ≡ recovered_pair (K.seen disks.old)) }
    ensures journal { OnOk result (IsJournal (K.seen disks.old Journal)) }
    ensures foreign { result ≡ Err DiskFault.Foreign → ¬ IsJournal (K.seen disks.old Journal) }
    ensures untouched { ¬ IsJournal (K.seen disks.old Journal) → disks.new ≡ disks.old }
    ensures own { result ≢ Err DiskFault.NoMemory }
    ensures failed { result ≡ Err DiskFault.Device → K.faults disks.old < K.faults disks.new }
    ensures faults { K.faults disks.old ≤ K.faults disks.new }
{
    match gate_of(journal) {
        // A gate that is closed stays untouched: a write that is cut short might open it.
        Gate::Closed => Ok(()),
        Gate::Begun => {
            write_synced(disks, Device::Journal, 0, &SHUT)?;
            Ok(())
        }
        // A stop leaves no open gate without its plan, which is synced before.
        Gate::Open | Gate::Foreign => Err(DiskFault::Foreign),
    }
}

/// Makes the changes of an open journal again.
fn redo<K: Disks, A: Allocator>(disks: &mut K, plan: &Plan<A>) -> Result<(), DiskFault>
    requires durable { IsDurable (K.seen disks.old) (K.may_leave disks.old) }
    requires plan { plan_of (K.seen disks.old Journal) ≡ Some plan.now }
    requires data_kept { plan.now.on_data.keep ≤ length (K.seen disks.old Data) }
    requires hash_kept { plan.now.on_hash.keep ≤ length (K.seen disks.old Hash) }
    ensures volume { OnOk result (pair_of (K.seen disks.new) ≡ recovered_pair (K.seen disks.old)) }
    ensures settled { OnOk result (IsSettled (K.seen disks.new) (K.may_leave disks.new)) }
    ensures any_moment { LeavesOnly K.moment K.left_since disks.old disks.new (λ c. recovered_pair c ≡ recovered_pair (K.seen disks.old)) }
    ensures error { IfErr result (λ e. e ≡ DiskFault.Device) }
    ensures failed { OnErr result (K.faults disks.old < K.faults disks.new) }
    ensures faults { K.faults disks.old ≤ K.faults disks.new }
{
    carry_out(disks, plan)?;
    Ok(())
}

/// Makes the volume that three devices stand for after a stop, and closes the journal. It may be stopped too: at any moment
/// the devices stand for the same volume.
///
/// Where the gate is closed it only reads the journal. It takes as much memory as the journal's bytes, twice. With too little,
/// or where a device is shorter than what the plan keeps of it, nothing was changed. Where the bytes are no journal's nothing is ever
/// changed, and Foreign is the answer.
pub fn recover<K: Disks, A: Allocator + Copy>(alloc: A, disks: &mut K) -> Result<(), DiskFault>
    requires { IsDurable (K.seen disks.old) (K.may_leave disks.old) }
    ensures volume { OnOk result (pair_of (K.seen disks.new) ≡ recovered_pair (K.seen disks.old)) }
    ensures settled { OnOk result (IsSettled (K.seen disks.new) (K.may_leave disks.new)) }
    ensures any_moment { LeavesOnly K.moment K.left_since disks.old disks.new (λ c. recovered_pair c ≡ recovered_pair (K.seen disks.old)) }
    ensures memory { result ≡ Err DiskFault.NoMemory → K.seen disks.new ≡ K.seen disks.old }
    ensures journal { OnOk result (IsJournal (K.seen disks.old Journal)) }
    ensures foreign { result ≡ Err DiskFault.Foreign → IsForeign (K.seen disks.old) }
    ensures foreign_stays { result ≡ Err DiskFault.Foreign → K.seen disks.new ≡ K.seen disks.old }
    ensures untouched { ¬ IsJournal (K.seen disks.old Journal) → K.seen disks.new ≡ K.seen disks.old }
    ensures untouched_crash { ¬ IsJournal (K.seen disks.old Journal) → Stays (K.may_leave disks.old) (K.may_leave disks.new) }
    ensures failed { result ≡ Err DiskFault.Device → K.faults disks.old < K.faults disks.new }
{
    let journal = read_all(alloc, disks, Device::Journal)?;
    let plan = match parse_journal(alloc, &journal) {
        Ok(plan) => plan,
        Err(_) => return Err(DiskFault::NoMemory),
    };
    let Some(plan) = plan else {
        return shut(disks, &journal);
    };
    if disks.len(Device::Data) < plan.data().keep()
        || disks.len(Device::Hash) < plan.hash().keep()
    {
        return Err(DiskFault::Foreign);
    }
    redo(disks, &plan)?;
    Ok(())
}

/// Syncs all three devices, so that what is read is what a stop leaves, and recovers. It asks nothing of the devices, and may be
/// stopped: at any moment a stop leaves what it might have left before the call, or the volume that the devices stand for.
///
/// A stop while a journal's head is first written may leave bytes that aren't a beginning of it. They are no journal's then: Foreign until
/// the file is removed, and no change is lost, since none was made before the head was synced.
pub fn start<K: Disks, A: Allocator + Copy>(alloc: A, disks: &mut K) -> Result<(), DiskFault>
    ensures volume { OnOk result (pair_of (K.seen disks.new) ≡ recovered_pair (K.seen disks.old)) }
    ensures settled { OnOk result (IsSettled (K.seen disks.new) (K.may_leave disks.new)) }
    ensures any_moment { LeavesOnly K.moment K.left_since disks.old disks.new
        (λ c. K.may_leave disks.old c ⊎ (recovered_pair c ≡ recovered_pair (K.seen disks.old))) }
    ensures memory { result ≡ Err DiskFault.NoMemory → K.seen disks.new ≡ K.seen disks.old }
    ensures journal { OnOk result (IsJournal (K.seen disks.old Journal)) }
    ensures foreign { result ≡ Err DiskFault.Foreign → IsForeign (K.seen disks.old) }
    ensures foreign_stays { result ≡ Err DiskFault.Foreign → K.seen disks.new ≡ K.seen disks.old }
    ensures untouched { ¬ IsJournal (K.seen disks.old Journal) → K.seen disks.new ≡ K.seen disks.old }
    ensures untouched_crash { ¬ IsJournal (K.seen disks.old Journal) → Stays (K.may_leave disks.old) (K.may_leave disks.new) }
    ensures failed { result ≡ Err DiskFault.Device → K.faults disks.old < K.faults disks.new }
{
    disks.sync(Device::Data)?;
    disks.sync(Device::Hash)?;
    disks.sync(Device::Journal)?;
    recover(alloc, disks)?;
    Ok(())
}
