//! Small volumes, and commits of them.
use std::alloc::{AllocError, Allocator};
use verity_disks::{Device, Disks, TearingDisks};
use verity_journal::{Change, Plan, Side, commit_through, start};

/// A journal whose gate is closed: its magic, its version, and the gate.
pub const CLOSED: &[u8] = b"dalgjrnl\x01\0\0\0\0";

/// A device that gets a new length, and two bytes at its beginning and at its end.
pub fn side<A: Allocator + Copy>(alloc: A, old: u64, len: u64) -> Result<Side<A>, AllocError> {
    let mut changes = Vec::new(alloc);
    changes.push(Change::new(0, vec![in alloc; 7; 2]?))?;
    changes.push(Change::new(len.saturating_sub(2), vec![in alloc; 8; 2]?))?;
    Ok(Side::new(old.min(len), len, changes))
}

/// Recovers, and commits a plan, if it is one for these devices.
pub fn recover_and_commit<K: Disks, A: Allocator + Copy>(
    alloc: A,
    disks: &mut K,
    plan: &Plan<A>,
) -> bool {
    if start(alloc, disks).is_err() {
        return false;
    }
    if !plan.suits(disks.len(Device::Data), disks.len(Device::Hash)) {
        return false;
    }
    commit_through(alloc, disks, plan).is_ok()
}

/// A commit to devices of `data_old` and `hash_old` bytes 1 and 2, which end after so many calls; and whether it was answered.
pub fn commit<A: Allocator + Copy>(
    alloc: A,
    data_lens: (u64, u64),
    hash_lens: (u64, u64),
    calls: u64,
) -> Result<(bool, TearingDisks<A>), AllocError> {
    let plan = Plan::new(
        b"data\0hash".to_vec(alloc)?,
        side(alloc, data_lens.0, data_lens.1)?,
        side(alloc, hash_lens.0, hash_lens.1)?,
    );
    let data = vec![in alloc; 1; data_lens.0 as usize]?;
    let hash = vec![in alloc; 2; hash_lens.0 as usize]?;
    let mut disks = TearingDisks::new(alloc, data, hash, CLOSED.to_vec(alloc)?, calls)?;
    let answered = recover_and_commit(alloc, &mut disks, &plan);
    Ok((answered, disks))
}
