//! A commit through the journal.
ghost use Rattle.std.specs.Prelude.{◌≡◌, ◌≢◌, ◌≤◌, ◌<◌, ◌++◌, ◌+◌, ◌^◌, List, ℕ, [], ◌∷◌, length, Err, OnOk, OnErr, IfOk, IfErr};
ghost use Rattle.verity_disks.specs.Disks.{put, Only, Stays, Elapses, LeavesOnly, IsDurable};
ghost use Rattle.verity_journal.specs.Plan.{IsSide, IsSmall, made, changed};
ghost use Rattle.verity_journal.specs.Journal.{spelled, number, spelled_side, spelled_change, spelled_changes};
ghost use Rattle.verity_journal.specs.Journal.{IsReady, IsSettled, IsOldOrNew, IsNew, Suits, pair_of, made_pair};

use crate::changing::{make, write_synced};
use crate::{Change, Plan, Side};
use std::alloc::{AllocError, Allocator};
use verity_disks::{Device, DiskFault, Disks};

// A number, of eight bytes.
#[tactic(auto, unfolding(crate::specs::Journal::number))]
fn spell_number<A: Allocator>(out: &mut Vec<u8, A>, n: u64) -> Result<(), AllocError>
    ensures { OnOk result (out.new.items ≡ out.old.items ++ number n) }
{
    Ok(out.extend_from_slice(&n.to_le_bytes())?)
}

// A change: its place, how many bytes it has, and these.
fn spell_change<A: Allocator>(out: &mut Vec<u8, A>, at: u64, bytes: &[u8]) -> Result<(), AllocError>
    ensures { OnOk result (out.new.items ≡ out.old.items ++ spelled_change (at, bytes.now)) }
{
    spell_number(out, at)?;
    spell_number(out, bytes.len() as u64)?;
    Ok(out.extend_from_slice(bytes)?)
}

// One change after the other.
fn spell_changes<A: Allocator>(
    out: &mut Vec<u8, A>,
    changes: &[Change<A>],
) -> Result<(), AllocError>
    ensures { OnOk result (out.new.items ≡ out.old.items ++ spelled_changes changes.now) }
{
    for change in changes {
        spell_change(out, change.at(), change.bytes())?;
    }
    Ok(())
}

// A side: what is kept, the length, how many changes there are, and these.
fn spell_side<A: Allocator>(out: &mut Vec<u8, A>, side: &Side<A>) -> Result<(), AllocError>
    ensures { OnOk result (out.new.items ≡ out.old.items ++ spelled_side side.now) }
{
    let changes = side.changes();
    spell_number(out, side.keep())?;
    spell_number(out, side.len())?;
    spell_number(out, changes.len() as u64)?;
    Ok(spell_changes(out, changes)?)
}

/// A plan as the journal has it, behind the gate. It takes as much memory as the names and the changes.
pub fn spell<A: Allocator + Copy>(alloc: A, plan: &Plan<A>) -> Result<Vec<u8, A>, AllocError>
    ensures { IfOk result (λ bytes. bytes.items ≡ spelled plan.now) }
{
    let mut bytes = Vec::new(alloc);
    let names = plan.names();
    spell_number(&mut bytes, names.len() as u64)?;
    bytes.extend_from_slice(names)?;
    spell_side(&mut bytes, plan.data())?;
    spell_side(&mut bytes, plan.hash())?;
    Ok(bytes)
}

/// Writes the plan behind the closed gate, and then opens the gate: two writes, each synced before what comes after it.
pub fn open_plan<K: Disks, A: Allocator>(
    disks: &mut K,
    plan: &Plan<A>,
    bytes: &[u8],
) -> Result<(), DiskFault>
    requires settled { IsSettled (K.seen disks.old) (K.may_leave disks.old) }
    requires suits { Suits plan.now (pair_of (K.seen disks.old)) }
    requires data_small { IsSmall plan.now.on_data }
    requires hash_small { IsSmall plan.now.on_hash }
    requires names_small { length plan.now.names < 2 ^ 64 }
    requires spelled { bytes.now ≡ spelled plan.now }
    ensures ready { OnOk result (IsReady plan.now (K.seen disks.new) (K.may_leave disks.new)) }
    ensures stay { OnOk result (pair_of (K.seen disks.new) ≡ pair_of (K.seen disks.old)) }
    ensures any_moment { LeavesOnly K.moment K.left_since disks.old disks.new (IsOldOrNew plan.now (pair_of (K.seen disks.old))) }
    ensures error { IfErr result (λ e. e ≡ DiskFault.Device) }
    ensures failed { OnErr result (K.faults disks.old < K.faults disks.new) }
    ensures faults { K.faults disks.old ≤ K.faults disks.new }
{
    write_synced(disks, Device::Journal, 13, bytes)?;
    write_synced(disks, Device::Journal, 12, &[1])?;
    Ok(())
}

/// Makes what an open journal says, and closes it. Both stores are synced before the gate is closed.
pub fn carry_out<K: Disks, A: Allocator>(disks: &mut K, plan: &Plan<A>) -> Result<(), DiskFault>
    requires ready { IsReady plan.now (K.seen disks.old) (K.may_leave disks.old) }
    requires suits { Suits plan.now (pair_of (K.seen disks.old)) }
    ensures made { OnOk result (pair_of (K.seen disks.new) ≡ made_pair plan.now (pair_of (K.seen disks.old))) }
    ensures settled { OnOk result (IsSettled (K.seen disks.new) (K.may_leave disks.new)) }
    ensures any_moment { LeavesOnly K.moment K.left_since disks.old disks.new (IsNew plan.now (pair_of (K.seen disks.old))) }
    ensures error { IfErr result (λ e. e ≡ DiskFault.Device) }
    ensures failed { OnErr result (K.faults disks.old < K.faults disks.new) }
    ensures faults { K.faults disks.old ≤ K.faults disks.new }
{
    make(disks, Device::Data, plan.data())?;
    make(disks, Device::Hash, plan.hash())?;
    write_synced(disks, Device::Journal, 12, &[0])?;
    Ok(())
}

/// Makes the changes of a plan. A stop at any moment leaves devices from which `recover` makes the volume from before the
/// call or the one with all changes; after `Ok` the latter.
///
/// It writes each change twice, to the journal and to its device, and syncs five times. It takes as much memory as the changes.
/// With too little, nothing was changed. Where a device failed, `start` comes next: it makes the one volume or the other.
pub fn commit_through<K: Disks, A: Allocator + Copy>(
    alloc: A,
    disks: &mut K,
    plan: &Plan<A>,
) -> Result<(), DiskFault>
    requires settled { IsSettled (K.seen disks.old) (K.may_leave disks.old) }
    requires suits { Suits plan.now (pair_of (K.seen disks.old)) }
    requires data_small { IsSmall plan.now.on_data }
    requires hash_small { IsSmall plan.now.on_hash }
    requires names_small { length plan.now.names < 2 ^ 64 }
    ensures made { OnOk result (pair_of (K.seen disks.new) ≡ made_pair plan.now (pair_of (K.seen disks.old))) }
    ensures settled { OnOk result (IsSettled (K.seen disks.new) (K.may_leave disks.new)) }
    ensures any_moment { LeavesOnly K.moment K.left_since disks.old disks.new (IsOldOrNew plan.now (pair_of (K.seen disks.old))) }
    ensures failed { result ≡ Err DiskFault.Device → K.faults disks.old < K.faults disks.new }
    ensures memory { result ≡ Err DiskFault.NoMemory → K.seen disks.new ≡ K.seen disks.old }
    ensures own { result ≢ Err DiskFault.Foreign }
    ensures faults { K.faults disks.old ≤ K.faults disks.new }
{
    let bytes = match spell(alloc, plan) {
        Ok(bytes) => bytes,
        Err(_) => return Err(DiskFault::NoMemory),
    };
    open_plan(disks, plan, &bytes)?;
    carry_out(disks, plan)
}
