//! After a stop at any call, whatever is left, recovery makes the old volume or the new one; after a commit was answered, the
//! new one.
use crate::commits::commit;
use crate::tears::{after_a_stop, choices};
use std::alloc::{AllocError, Allocator};
use std::test::Fail;
use verity_disks::{Device, TearingDisks};
use verity_journal::start;

/// The bytes of both devices before and after a commit.
#[derive(Clone, Copy)]
struct Volumes<'a> {
    old_data: &'a [u8],
    old_hash: &'a [u8],
    new_data: &'a [u8],
    new_hash: &'a [u8],
}

/// Whether all of the old volume or of the new one is on the devices; after an answer, the new one.
fn is_one<A: Allocator + Copy>(disks: &TearingDisks<A>, volumes: Volumes, answered: bool) -> bool {
    let data = disks.device(Device::Data).durable();
    let hash = disks.device(Device::Hash).durable();
    if data == volumes.new_data && hash == volumes.new_hash {
        return true;
    }
    !answered && data == volumes.old_data && hash == volumes.old_hash
}

/// Whether recovery makes one of both volumes of whatever this stop left.
fn recovers<A: Allocator + Copy>(
    alloc: A,
    disks: &TearingDisks<A>,
    volumes: Volumes,
    answered: bool,
) -> Result<bool, AllocError> {
    for choice in 0..choices(disks) {
        let mut left = after_a_stop(alloc, disks, choice, 1000)?;
        if start(alloc, &mut left).is_err() || !is_one(&left, volumes, answered) {
            return Ok(false);
        }
    }
    Ok(true)
}

/// Whether it does after recoveries that were stopped at each of their calls.
fn recovers_late<A: Allocator + Copy>(
    alloc: A,
    disks: &TearingDisks<A>,
    volumes: Volumes,
    answered: bool,
) -> Result<bool, AllocError> {
    // Each step whole, each in half, and a mixture.
    for choice in [0x5555, 0xaaaa, 0x9d2e] {
        for calls in 0..22 {
            let mut left = after_a_stop(alloc, disks, choice, calls)?;
            let _stopped = start(alloc, &mut left);
            if !recovers(alloc, &left, volumes, answered)? {
                return Ok(false);
            }
        }
    }
    Ok(true)
}

/// Whether a commit may be stopped at each of its calls.
fn survives<A: Allocator + Copy>(
    alloc: A,
    data_lens: (u64, u64),
    hash_lens: (u64, u64),
    volumes: Volumes,
) -> Result<bool, AllocError> {
    let mut done = false;
    for calls in 0..24 {
        let (answered, disks) = commit(alloc, data_lens, hash_lens, calls)?;
        done = answered;
        if !recovers(alloc, &disks, volumes, answered)?
            || !recovers_late(alloc, &disks, volumes, answered)?
        {
            return Ok(false);
        }
    }
    Ok(done)
}

#[test]
fn data_grows_and_hash_shrinks(rt: HostRuntime) -> Result<(), Fail> {
    let volumes = Volumes {
        old_data: &[1, 1, 1, 1, 1],
        old_hash: &[2, 2, 2, 2, 2, 2, 2],
        new_data: &[7, 7, 1, 1, 1, 0, 8, 8],
        new_hash: &[7, 7, 2, 8, 8],
    };
    assert!(rt; survives(rt.alloc(), (5, 8), (7, 5), volumes)?);
    Ok(())
}

#[test]
fn data_shrinks_and_hash_grows(rt: HostRuntime) -> Result<(), Fail> {
    let volumes = Volumes {
        old_data: &[1, 1, 1, 1, 1, 1],
        old_hash: &[2, 2],
        new_data: &[7, 7, 8, 8],
        new_hash: &[7, 7, 0, 0, 8, 8],
    };
    assert!(rt; survives(rt.alloc(), (6, 4), (2, 6), volumes)?);
    Ok(())
}

#[test]
fn both_keep_their_length(rt: HostRuntime) -> Result<(), Fail> {
    let volumes = Volumes {
        old_data: &[1, 1, 1, 1, 1],
        old_hash: &[2, 2, 2, 2, 2],
        new_data: &[7, 7, 1, 8, 8],
        new_hash: &[7, 7, 2, 8, 8],
    };
    assert!(rt; survives(rt.alloc(), (5, 5), (5, 5), volumes)?);
    Ok(())
}
