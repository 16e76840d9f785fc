//! What a stop may leave of a device: each step that wasn't synced is left out, whole, or in part.
use std::alloc::{AllocError, Allocator};
use verity_disks::{Device, Step, TearingDevice, TearingDisks};

/// Makes a change of length: not at all, whole, or in part, with other bytes than zeros.
fn resize_in_part<A: Allocator>(
    bytes: &mut Vec<u8, A>,
    len: usize,
    how: u64,
) -> Result<(), AllocError> {
    let old = bytes.len();
    match how {
        0 => Ok(()),
        1 => bytes.resize(len, 0),
        2 => bytes.resize(old.max(len), 9),
        _ => bytes.resize(old.min(len), 9),
    }
}

/// Writes bytes: not at all, whole, the first half, or other bytes in their place.
fn write_in_part<A: Allocator>(
    bytes: &mut Vec<u8, A>,
    at: usize,
    new: &[u8],
    how: u64,
) -> Result<(), AllocError> {
    if bytes.len() < at || how == 0 {
        return Ok(());
    }
    let half = new.len() / 2;
    for (i, byte) in new.iter().enumerate() {
        if how == 2 && half <= i {
            return Ok(());
        }
        let value = if how == 1 || how == 2 { *byte } else { 0xee };
        match bytes.get_mut(at.saturating_add(i)) {
            Some(place) => *place = value,
            None => bytes.push(value)?,
        }
    }
    Ok(())
}

/// Does a step in one of four ways.
fn step_in_part<A: Allocator>(
    bytes: &mut Vec<u8, A>,
    step: &Step<A>,
    how: u64,
) -> Result<(), AllocError> {
    if step.resizes() {
        resize_in_part(bytes, step.at() as usize, how)
    } else {
        write_in_part(bytes, step.at() as usize, step.bytes(), how)
    }
}

/// One of the contents that a stop may leave of a device: the last digits of `choice`, to base four, say how each step is done.
pub fn left_of<A: Allocator + Copy>(
    alloc: A,
    device: &TearingDevice<A>,
    choice: u64,
) -> Result<Vec<u8, A>, AllocError> {
    let mut bytes = device.durable().to_vec(alloc)?;
    let mut rest = choice;
    for step in device.unsynced() {
        step_in_part(&mut bytes, step, rest % 4)?;
        rest /= 4;
    }
    Ok(bytes)
}

/// How many choices there are: four for each step that isn't synced, of which no call leaves more than four.
pub fn choices<A: Allocator + Copy>(disks: &TearingDisks<A>) -> u64 {
    let data = disks.device(Device::Data).unsynced().len();
    let hash = disks.device(Device::Hash).unsynced().len();
    let journal = disks.device(Device::Journal).unsynced().len();
    match data.max(hash).max(journal) {
        0 => 1,
        1 => 4,
        2 => 16,
        3 => 64,
        _ => 256,
    }
}

/// The devices after a stop: each has what `choice` says, and ends after so many calls.
pub fn after_a_stop<A: Allocator + Copy>(
    alloc: A,
    disks: &TearingDisks<A>,
    choice: u64,
    calls: u64,
) -> Result<TearingDisks<A>, AllocError> {
    let data = left_of(alloc, disks.device(Device::Data), choice)?;
    let hash = left_of(alloc, disks.device(Device::Hash), choice)?;
    let journal = left_of(alloc, disks.device(Device::Journal), choice)?;
    TearingDisks::new(alloc, data, hash, journal, calls)
}
