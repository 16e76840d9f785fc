//! What is read, and how often, when a volume is opened and committed.

use crate::editors::*;
use crate::steps::Step;
use crate::volumes::{SIZE, volume_of};
use std::alloc::Global;
use std::test::Fail;
use test_volumes::{BuiltVolume, image, make_volume};
use verity_edit::Reply;
use verity_store::MemStore;

// How many blocks a commit hashed that came last, after edits that were done.
fn hashed_at_last(replies: &[Reply]) -> Option<u64> {
    match replies {
        [Reply::Done, Reply::Committed(committed)] => Some(committed.hashed),
        [Reply::Done, Reply::Done, Reply::Committed(committed)] => Some(committed.hashed),
        [
            Reply::Done,
            Reply::Done,
            Reply::Done,
            Reply::Committed(committed),
        ] => Some(committed.hashed),
        _ => None,
    }
}

// The volume with a block more, made from scratch.
fn with_a_block(alloc: Global) -> Result<BuiltVolume, Fail> {
    let mut bytes = image(alloc, 16)?;
    bytes.resize(17 * SIZE, 9)?;
    make_volume(alloc, MemStore::new(bytes, SIZE)?)
}

// The data store fails every read after `open`: how many blocks are hashed by the commit of an added and written block, and whether
// the stores then hold the volume with it.
fn add_a_block(alloc: Global) -> Result<(Option<u64>, bool), Fail> {
    let failures = Failures {
        data: Failing::ReadsAfter(16),
        hash: Failing::Call(0),
    };
    let asked = [Step::Grow(17), Step::Write(16, 9), Step::Commit];
    let left = left_by(alloc, volume_of(alloc, 16)?, failures, &asked)?;
    let is_same = is_left(&left, &with_a_block(alloc)?);
    Ok((hashed_at_last(&left.replies), is_same))
}

// A commit hashes no more than the block, its level-0 block and the top.
#[test]
fn a_commit_reads_no_data_block(rt: HostRuntime) -> Result<(), Fail> {
    let (hashed, is_same) = add_a_block(rt.alloc())?;
    assert!(rt;
        hashed.is_some_and(|hashed| hashed <= 3),
        "hashed: {hashed:?}"
    );
    assert!(rt; is_same);
    Ok(())
}

// The volume of 17 blocks whose first two have other bytes, made from scratch.
fn with_two_blocks(alloc: Global) -> Result<BuiltVolume, Fail> {
    let mut bytes = image(alloc, 17)?;
    let mut byte = 9u8;
    for block in bytes.chunks_mut(SIZE) {
        if byte > 7 {
            block.fill(byte);
            byte = byte.wrapping_sub(1);
        }
    }
    make_volume(alloc, MemStore::new(bytes, SIZE)?)
}

// Two blocks of 17 are written, the first of them twice: how many blocks are hashed by the commit, and whether the stores then hold the
// volume with what was written last.
fn write_a_block_twice(alloc: Global) -> Result<(Option<u64>, bool), Fail> {
    let asked = [
        Step::Write(0, 7),
        Step::Write(1, 8),
        Step::Write(0, 9),
        Step::Commit,
    ];
    let left = left_by(alloc, volume_of(alloc, 17)?, NO_FAILURES, &asked)?;
    let is_same = is_left(&left, &with_two_blocks(alloc)?);
    Ok((hashed_at_last(&left.replies), is_same))
}

// A block that is written twice is hashed once: both blocks, their level-0 block and the top.
#[test]
fn a_block_that_is_written_twice(rt: HostRuntime) -> Result<(), Fail> {
    let (hashed, is_same) = write_a_block_twice(rt.alloc())?;
    assert!(rt;
        hashed.is_some_and(|hashed| hashed <= 4),
        "hashed: {hashed:?}"
    );
    assert!(rt; is_same);
    Ok(())
}

// How many blocks are hashed when a block of 65,536 is written and committed, and the calls at both stores.
fn write_a_block(alloc: Global) -> Result<(Option<u64>, u64, u64), Fail> {
    let data_store = MemStore::new(Vec::from_elem(alloc, 1, 65_536 * SIZE)?, SIZE)?;
    let volume = make_volume(alloc, data_store)?;
    let asked = [Step::Write(40_000, 2), Step::Commit];
    let left = left_by(alloc, volume, NO_FAILURES, &asked)?;
    Ok((
        hashed_at_last(&left.replies),
        left.data_calls,
        left.hash_calls,
    ))
}

// Opening reads each data block, the superblock's and the 4,369 hash blocks of the tree once. The commit reads and writes four hash
// blocks, writes the superblock's, sets both lengths, and syncs both. It hashes the block and the four above it.
#[test]
fn calls_of_one_written_block(rt: HostRuntime) -> Result<(), Fail> {
    let (hashed, data_calls, hash_calls) = write_a_block(rt.alloc())?;
    assert_eq!(rt; hashed, Some(5));
    assert!(rt; data_calls <= 65_536 + 3);
    assert!(rt; hash_calls <= 1 + 4_369 + 11);
    Ok(())
}
