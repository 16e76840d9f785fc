//! Calls on one device that end with a sync: a write, and the changes of a side.
ghost use Rattle.std.specs.Prelude.{◌≡◌, ◌≤◌, ◌<◌, List, ℕ, length, OnOk, OnErr, IfErr};
ghost use Rattle.verity_store.specs.RawFile.{overwritten};
ghost use Rattle.verity_disks.specs.Disks.{put, Torn, Reached, Follows, Only, LeavesOnly};
ghost use Rattle.verity_journal.specs.Plan.{IsSide, Amid, made, changed};

use crate::Side;
use std::alloc::Allocator;
use verity_disks::{Device, DiskFault, Disks};

/// Writes and syncs: one write, one sync. A stop at any moment leaves the old bytes, the new ones, or these in part.
pub fn write_synced<K: Disks>(
    disks: &mut K,
    device: Device,
    at: u64,
    bytes: &[u8],
) -> Result<(), DiskFault>
    requires { at ≤ length (K.seen disks.old device) }
    ensures written { OnOk result (K.seen disks.new ≡ put device (overwritten at bytes.now (K.seen disks.old device)) (K.seen disks.old)) }
    ensures durable { OnOk result (Only device (K.seen disks.new) (K.may_leave disks.new)) }
    ensures crash { Follows device (Torn at (length bytes.now)) (K.may_leave disks.old) (K.may_leave disks.new) }
    ensures any_moment { LeavesOnly K.moment K.left_since disks.old disks.new
        (Reached device (Torn at (length bytes.now)) (K.may_leave disks.old)) }
    ensures error { IfErr result (λ e. e ≡ DiskFault.Device) }
    ensures failed { OnErr result (K.faults disks.old < K.faults disks.new) }
    ensures faults { K.faults disks.old ≤ K.faults disks.new }
{
    disks.write_at(device, at, bytes)?;
    disks.sync(device)
}

/// Makes the changes of a side, without a sync.
fn change<K: Disks, A: Allocator>(
    disks: &mut K,
    device: Device,
    side: &Side<A>,
) -> Result<(), DiskFault>
    requires side { IsSide side.now }
    requires len { length (K.seen disks.old device) ≡ side.now.len }
    ensures changed { OnOk result (K.seen disks.new ≡ put device (changed side.now.changes (K.seen disks.old device)) (K.seen disks.old)) }
    ensures crash { Follows device (Amid side.now) (K.may_leave disks.old) (K.may_leave disks.new) }
    ensures any_moment { LeavesOnly K.moment K.left_since disks.old disks.new (Reached device (Amid side.now) (K.may_leave disks.old)) }
    ensures error { IfErr result (λ e. e ≡ DiskFault.Device) }
    ensures failed { OnErr result (K.faults disks.old < K.faults disks.new) }
    ensures faults { K.faults disks.old ≤ K.faults disks.new }
{
    let changes = side.changes();
    for change in changes {
        disks.write_at(device, change.at(), change.bytes())?;
    }
    Ok(())
}

/// Makes what a side makes of a device, and syncs: two changes of length, a write for each change, one sync. A stop at any
/// moment leaves something amid its changes.
///
/// The length is cut to what is kept first. So what is grown later holds zeros, whatever a stop left there.
pub fn make<K: Disks, A: Allocator>(
    disks: &mut K,
    device: Device,
    side: &Side<A>,
) -> Result<(), DiskFault>
    requires { IsSide side.now }
    ensures made { OnOk result (K.seen disks.new ≡ put device (made side.now (K.seen disks.old device)) (K.seen disks.old)) }
    ensures durable { OnOk result (Only device (K.seen disks.new) (K.may_leave disks.new)) }
    ensures crash { Follows device (Amid side.now) (K.may_leave disks.old) (K.may_leave disks.new) }
    ensures any_moment { LeavesOnly K.moment K.left_since disks.old disks.new (Reached device (Amid side.now) (K.may_leave disks.old)) }
    ensures error { IfErr result (λ e. e ≡ DiskFault.Device) }
    ensures failed { OnErr result (K.faults disks.old < K.faults disks.new) }
    ensures faults { K.faults disks.old ≤ K.faults disks.new }
{
    let keep = side.keep();
    let len = side.len();
    disks.set_len(device, keep)?;
    disks.set_len(device, len)?;
    change(disks, device, side)?;
    disks.sync(device)
}
