//! What reads answer.
use crate::asking::{Ask, Failure, Line, NEVER, is_right, is_right_flipped, line_17};
use crate::verifiers::*;
use std::alloc::Global;
use std::process::Abort;
use std::test::Fail;
use verity_check::{CheckFault, Place, Verdict};
use verity_digest::{Algorithm, Digest};
use verity_store::Which;

#[test]
fn a_sound_volume_is_served(rt: HostRuntime) -> Result<(), Fail> {
    let asks = [
        Ask::Serves(8000, 704, [15, 16]),
        Ask::ServesNothing(8704),
        Ask::Reports(&[], 0),
    ];
    assert!(rt; is_right_flipped(rt.alloc(), Algorithm::Sha256, NOWHERE, NOWHERE, &asks)?);
    Ok(())
}

// Data block 5 alone is refused.
#[test]
fn a_flipped_data_bit_is_refused(rt: HostRuntime) -> Result<(), Fail> {
    let fifth = Place::Data(5);
    let asks = [
        Ask::Refuses(2048, 1536, CheckFault::Mismatch(fifth)),
        Ask::Serves(2048, 512, [4, 4]),
        Ask::ReportsOne(fifth, Verdict::Bad, 0),
    ];
    assert!(rt; is_right_flipped(rt.alloc(), Algorithm::Sha256, 5 * 512 + 7, NOWHERE, &asks)?);
    Ok(())
}

// The data blocks below one are refused for the first hash block of level 0, and it is served.
#[test]
fn a_flipped_hash_bit_is_refused(rt: HostRuntime) -> Result<(), Fail> {
    let alloc = rt.alloc();
    let fault = CheckFault::Mismatch(FIRST);
    for (algorithm, above) in [(Algorithm::Sha256, 16u8), (Algorithm::Sha512, 8)] {
        let start = above as u64 * 512;
        let asks = [
            Ask::Refuses(0, 1, fault),
            Ask::Refuses(start.saturating_sub(1), 2, fault),
            Ask::Serves(start, 512, [above, above]),
        ];
        assert!(rt;
            is_right_flipped(alloc, algorithm, NOWHERE, 512, &asks)?,
            "above {above}"
        );
    }
    Ok(())
}

// Whether all is answered as it is to be where the tree's level 0 has its blocks swapped.
fn is_right_swapped(alloc: Global, asks: &[Ask]) -> Result<bool, Fail> {
    let (data, mut hash) = data_and_tree(alloc, Algorithm::Sha256)?;
    if hash.len() == 1536 {
        let (front, last) = hash.split_at_mut(1024);
        front[512..].swap_with_slice(last);
    }
    is_right(
        alloc,
        line_17(Algorithm::Sha256),
        (data, hash),
        (NEVER, NEVER),
        4,
        asks,
    )
}

// Both hash blocks of level 0 are refused.
#[test]
fn swapped_hash_blocks_are_named(rt: HostRuntime) -> Result<(), Fail> {
    let asks = [
        Ask::RefusesBlock(0, CheckFault::Mismatch(FIRST)),
        Ask::RefusesBlock(16, CheckFault::Mismatch(SECOND)),
        Ask::Reports(&[(FIRST, Verdict::Bad), (SECOND, Verdict::Bad)], 17),
    ];
    assert!(rt; is_right_swapped(rt.alloc(), &asks)?);
    Ok(())
}

// Whether all is answered as it is to be over a hash store that gives two blocks and no more.
fn is_right_from_two(alloc: Global, cache: usize, asks: &[Ask]) -> Result<bool, Fail> {
    let bytes = data_and_tree(alloc, Algorithm::Sha256)?;
    let at = (NEVER, Failure::ReadsAfter(2));
    is_right(alloc, line_17(Algorithm::Sha256), bytes, at, cache, asks)
}

// All blocks below one hash block are served, and then the last block of the volume isn't.
#[test]
fn cached_hash_blocks_are_not_read_again(rt: HostRuntime) -> Result<(), Fail> {
    let alloc = rt.alloc();
    let asks = [
        Ask::ServesBlocks(0, 16),
        Ask::RefusesBlock(16, CheckFault::Store(Which::Hash)),
    ];
    for cache in [1, 2] {
        assert!(rt; is_right_from_two(alloc, cache, &asks)?, "cache of {cache}");
    }
    Ok(())
}

#[test]
fn the_table_line_alone_counts(rt: HostRuntime) -> Result<(), Fail> {
    let alloc = rt.alloc();
    let line = Line::Plain(32, 1, Digest::from_bytes(ROOT_32));
    let bytes = (image(alloc, 32)?, altered(alloc)?);
    let asks = [Ask::ServesBlocks(0, 32)];
    assert!(rt; is_right(alloc, line, bytes, (NEVER, NEVER), 8, &asks)?);
    Ok(())
}

#[test]
fn one_block_needs_no_hash_block(rt: HostRuntime) -> Result<(), Fail> {
    let alloc = rt.alloc();
    let line = Line::Plain(1, 9, Digest::from_bytes(ROOT_1));
    let bytes = (image(alloc, 1)?, Vec::new(alloc));
    let asks = [Ask::ServesBlocks(0, 1), Ask::Reports(&[], 0)];
    assert!(rt; is_right(alloc, line, bytes, (NEVER, NEVER), 1, &asks)?);
    Ok(())
}
