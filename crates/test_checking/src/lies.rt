//! Stores that answer otherwise the second time. No contract can see whether a mismatch is read again.
use crate::asking::{Ask, answered_over};
use crate::verifiers::*;
use std::alloc::Global;
use std::process::Abort;
use std::test::Fail;
use test_stores::{Answer, ScriptStore};
use verity_check::{CheckFault, Place};
use verity_digest::Algorithm;
use verity_store::Block;

/// A store of as many blocks as there are bytes for, that gives these blocks of the bytes, in turn.
pub fn picks(alloc: Global, bytes: &[u8], numbers: &[usize]) -> Result<ScriptStore, Fail> {
    let mut answers = Vec::new(alloc);
    for n in numbers {
        let block = bytes.chunks(512).nth(*n).unwrap_or(&[]);
        answers.push(Answer::Block(Block::new(block.to_vec(alloc)?)))?;
    }
    Ok(ScriptStore::new(alloc, 512, bytes.len() as u64 / 512, answers)?)
}

// Whether all is answered as it is to be where the stores give these data blocks and these hash blocks, in turn, beside a cache of
// one block.
fn is_right_by(
    alloc: Global,
    data_numbers: &[usize],
    hash_numbers: &[usize],
    asks: &[Ask],
) -> Result<bool, Fail> {
    let table = table(alloc, 17, 0, root_17(Algorithm::Sha256))?;
    let (data, hash) = data_and_tree(alloc, Algorithm::Sha256)?;
    let data = picks(alloc, &data, data_numbers)?;
    let hash = picks(alloc, &hash, hash_numbers)?;
    Ok(answered_over(alloc, None, alloc, table, data, hash, 1, asks) == Ok(asks.len()))
}

// Data block 3 is served, then refused, and then served. The block of level 0 above it is read once, behind the top.
#[test]
fn a_second_read_is_checked_again(rt: HostRuntime) -> Result<(), Fail> {
    let asks = [
        Ask::Serves(1536, 512, [3, 3]),
        Ask::Refuses(1536, 512, CheckFault::Mismatch(Place::Data(3))),
        Ask::Serves(1536, 512, [3, 3]),
    ];
    assert!(rt; is_right_by(rt.alloc(), &[3, 4, 3], &[0, 1], &asks)?);
    Ok(())
}

// The data block is read once, when the block above it was checked.
#[test]
fn a_refused_hash_block_is_not_read_again(rt: HostRuntime) -> Result<(), Fail> {
    let asks = [
        Ask::RefusesBlock(0, CheckFault::Mismatch(FIRST)),
        Ask::ServesBlocks(0, 1),
    ];
    assert!(rt; is_right_by(rt.alloc(), &[0], &[0, 2, 1], &asks)?);
    Ok(())
}
