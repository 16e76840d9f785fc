//! Verifiers that keep data blocks of which a part is read.
use crate::asking::{Ask, Failure, NEVER, answered_by, failing};
use crate::lies::picks;
use crate::verifiers::*;
use linked_list_allocator::LocalHeap;
use std::alloc::Global;
use std::process::Abort;
use std::test::Fail;
use test_volumes::{BuiltVolume, STEP, copy};
use verity_check::{CheckFault, Place, Verifier};
use verity_digest::Algorithm;
use verity_store::{BlockStore, MemStore, Which};

// A verifier of 17 data blocks over these stores, with room for four hash blocks and so many data blocks.
fn keeping<D: BlockStore + Drop, H: BlockStore + Drop>(
    alloc: Global,
    data: D,
    hash: H,
    data_cache: usize,
) -> Result<Result<Verifier<D, H>, CheckFault>, Fail> {
    let table = table(alloc, 17, 0, root_17(Algorithm::Sha256))?;
    Ok(Verifier::with_data_cache(alloc, table, data, hash, 4, data_cache))
}

// How many things in a row are answered as they are to be by a verifier that may read so many data blocks in all.
fn answered_in_reads(
    alloc: Global,
    reads: u64,
    data_cache: usize,
    asks: &[Ask],
) -> Result<Option<usize>, Fail> {
    let (data, hash) = data_and_tree(alloc, Algorithm::Sha256)?;
    let data = failing(store(data)?, Failure::ReadsAfter(reads));
    match keeping(alloc, data, store(hash)?, data_cache)? {
        Ok(mut verifier) => Ok(Some(answered_by(alloc, None, &mut verifier, asks))),
        Err(_) => Ok(None),
    }
}

// The same of one whose data store gives these blocks in turn.
fn answered_by_picks(
    alloc: Global,
    numbers: &[usize],
    data_cache: usize,
    asks: &[Ask],
) -> Result<Option<usize>, Fail> {
    let (data, hash) = data_and_tree(alloc, Algorithm::Sha256)?;
    let data = picks(alloc, &data, numbers)?;
    match keeping(alloc, data, store(hash)?, data_cache)? {
        Ok(mut verifier) => Ok(Some(answered_by(alloc, None, &mut verifier, asks))),
        Err(_) => Ok(None),
    }
}

// What reads of so many bytes each, in sequence, return together, to the volume's end or the first that is refused.
fn in_parts<D: BlockStore, H: BlockStore>(
    alloc: Global,
    verifier: &mut Verifier<D, H>,
    len: u32,
) -> Vec<u8> {
    let mut out = Vec::new(alloc);
    let size = verifier.size();
    let mut offset = 0u64;
    for _ in 0..8704 {
        let rest = size.saturating_sub(offset);
        let part = if rest < len as u64 { rest as u32 } else { len };
        if part == 0 || range(verifier, offset, part, &mut out).is_err() {
            return out;
        }
        offset = offset.saturating_add(part as u64);
    }
    out
}

// Whether such reads return the volume, by a verifier that may read so many data blocks in all.
fn returns_all(alloc: Global, len: u32, reads: u64, data_cache: usize) -> Result<bool, Fail> {
    let (data, hash) = data_and_tree(alloc, Algorithm::Sha256)?;
    let data = failing(store(data)?, Failure::ReadsAfter(reads));
    match keeping(alloc, data, store(hash)?, data_cache)? {
        Ok(mut verifier) => {
            let returned = in_parts(alloc, &mut verifier, len);
            Ok(returned.as_slice() == image(alloc, 17)?.as_slice())
        }
        Err(_) => Ok(false),
    }
}

// Each data block is read once where parts of it are read in sequence, and once for each part where none is kept.
#[test]
fn parts_in_sequence_read_each_block_once(rt: HostRuntime) -> Result<(), Fail> {
    let alloc = rt.alloc();
    for (len, data_cache, reads) in [(128, 1, 17), (128, 0, 68), (64, 17, 17), (64, 0, 136)] {
        assert!(rt;
            returns_all(alloc, len, reads, data_cache)?,
            "{len} {data_cache}"
        );
        assert!(rt;
            !returns_all(alloc, len, reads.saturating_sub(1), data_cache)?,
            "{len} {data_cache}"
        );
    }
    Ok(())
}

// Reads that begin and end within blocks return the bytes of the volume, with a data cache and without.
#[test]
fn parts_and_whole_blocks_join(rt: HostRuntime) -> Result<(), Fail> {
    let alloc = rt.alloc();
    for len in [100, 511, 513, 1300, 5000] {
        for data_cache in [0, 1, 2, 17] {
            assert!(rt;
                returns_all(alloc, len, u64::MAX, data_cache)?,
                "{len} {data_cache}"
            );
        }
    }
    Ok(())
}

// Block 3 from its middle on, blocks 4 and 5 whole, and the front of block 6 are read: then blocks 3 and 6 are kept, also where one is
// read whole and alone, and block 4 isn't.
#[test]
fn only_blocks_of_which_a_part_is_read_are_kept(rt: HostRuntime) -> Result<(), Fail> {
    let asks = [
        Ask::Serves(1700, 1400, [3, 6]),
        Ask::Serves(1536, 10, [3, 3]),
        Ask::Serves(3500, 84, [6, 6]),
        Ask::Refuses(2048, 10, CheckFault::Store(Which::Data)),
        Ask::Serves(1600, 448, [3, 3]),
        Ask::Serves(1536, 512, [3, 3]),
        Ask::Refuses(1536, 1024, CheckFault::Store(Which::Data)),
    ];
    assert_eq!(rt; answered_in_reads(rt.alloc(), 4, 8, &asks)?, Some(7));
    Ok(())
}

// The block that is kept is the one that was used last.
#[test]
fn a_data_cache_of_one_block_keeps_the_last(rt: HostRuntime) -> Result<(), Fail> {
    let asks = [
        Ask::Serves(0, 10, [0, 0]),
        Ask::Serves(502, 10, [0, 0]),
        Ask::Serves(512, 10, [1, 1]),
        Ask::Serves(1014, 10, [1, 1]),
        Ask::Serves(100, 10, [0, 0]),
        Ask::Serves(200, 10, [0, 0]),
        Ask::Refuses(600, 10, CheckFault::Store(Which::Data)),
    ];
    assert_eq!(rt; answered_in_reads(rt.alloc(), 3, 1, &asks)?, Some(7));
    Ok(())
}

// Of two blocks the one stays that was used since the other.
#[test]
fn a_kept_block_that_is_used_stays(rt: HostRuntime) -> Result<(), Fail> {
    let asks = [
        Ask::Serves(0, 10, [0, 0]),
        Ask::Serves(512, 10, [1, 1]),
        Ask::Serves(0, 10, [0, 0]),
        Ask::Serves(1024, 10, [2, 2]),
        Ask::Serves(0, 10, [0, 0]),
        Ask::Refuses(512, 10, CheckFault::Store(Which::Data)),
    ];
    assert_eq!(rt; answered_in_reads(rt.alloc(), 3, 2, &asks)?, Some(6));
    Ok(())
}

// Block 3 is refused, and read again; then it is kept, and the store has no more to give.
#[test]
fn a_block_that_was_bad_is_not_kept(rt: HostRuntime) -> Result<(), Fail> {
    let asks = [
        Ask::Refuses(1536, 128, CheckFault::Mismatch(Place::Data(3))),
        Ask::Serves(1536, 128, [3, 3]),
        Ask::Serves(1664, 384, [3, 3]),
    ];
    assert_eq!(rt; answered_by_picks(rt.alloc(), &[4, 3], 2, &asks)?, Some(3));
    Ok(())
}

// Block 3 is served from what was checked, in parts and whole. Where it is read anew, the store gives another block.
#[test]
fn a_kept_block_is_served_though_the_store_lies(rt: HostRuntime) -> Result<(), Fail> {
    let asks = [
        Ask::Serves(1536, 128, [3, 3]),
        Ask::Serves(1664, 128, [3, 3]),
        Ask::Serves(1536, 512, [3, 3]),
        Ask::RefusesBlock(3, CheckFault::Mismatch(Place::Data(3))),
        Ask::Serves(1920, 128, [3, 3]),
    ];
    assert_eq!(rt;
        answered_by_picks(rt.alloc(), &[3, 4, 5], 2, &asks)?,
        Some(5)
    );
    Ok(())
}

// Eight blocks, the last of them by a part, are read beforehand, and then served without a read, also when they were warmed again.
#[test]
fn blocks_that_were_warmed_are_served_without_a_read(rt: HostRuntime) -> Result<(), Fail> {
    const RANGES: &[(u64, u32)] = &[
        (512, 512),
        (8192, 512),
        (2048, 512),
        (1536, 512),
        (0, 512),
        (5120, 512),
        (7680, 512),
        (3100, 10),
    ];
    let asks = [
        Ask::Warms(RANGES),
        Ask::Warms(RANGES),
        Ask::Serves(0, 512, [0, 0]),
        Ask::Serves(8192, 512, [16, 16]),
        Ask::Serves(3072, 512, [6, 6]),
        Ask::Serves(512, 512, [1, 1]),
        Ask::Serves(2048, 512, [4, 4]),
        Ask::Serves(7680, 512, [15, 15]),
        Ask::Serves(1536, 512, [3, 3]),
        Ask::Serves(5120, 512, [10, 10]),
        Ask::Refuses(1024, 512, CheckFault::Store(Which::Data)),
    ];
    assert_eq!(rt; answered_in_reads(rt.alloc(), 8, 8, &asks)?, Some(11));
    Ok(())
}

// Ranges in one block are read once. Nothing is warmed of ranges that are empty, lie in two blocks or go past the end, without a data
// cache, or beyond its size.
#[test]
fn what_cannot_be_kept_is_not_warmed(rt: HostRuntime) -> Result<(), Fail> {
    const NONE: &[(u64, u32)] = &[
        (512, 0),
        (500, 100),
        (8704, 1),
        (8703, 2),
        (18_446_744_073_709_551_615, 4_294_967_295),
    ];
    let refused = Ask::Refuses(512, 10, CheckFault::Store(Which::Data));
    assert_eq!(rt;
        answered_in_reads(
            rt.alloc(),
            1,
            8,
            &[Ask::Warms(NONE), Ask::Serves(0, 10, [0, 0]), refused]
        )?,
        Some(3)
    );
    const ONE: &[(u64, u32)] = &[(512, 100), (612, 100), (712, 100)];
    let whole = Ask::Serves(512, 512, [1, 1]);
    assert_eq!(rt;
        answered_in_reads(rt.alloc(), 1, 8, &[Ask::Warms(ONE), whole])?,
        Some(2)
    );
    const TWO: &[(u64, u32)] = &[(0, 10), (512, 10)];
    let served = Ask::Serves(1024, 10, [2, 2]);
    assert_eq!(rt;
        answered_in_reads(rt.alloc(), 1, 0, &[Ask::Warms(TWO), served])?,
        Some(2)
    );
    assert_eq!(rt;
        answered_in_reads(
            rt.alloc(),
            1,
            1,
            &[Ask::Warms(TWO), Ask::Serves(0, 10, [0, 0]), refused]
        )?,
        Some(3)
    );
    Ok(())
}

// Of the blocks that are warmed one is bad: it isn't kept, so each request that asks for it reads it.
#[test]
fn a_bad_block_is_not_warmed(rt: HostRuntime) -> Result<(), Fail> {
    const RANGES: &[(u64, u32)] = &[(1536, 512), (2048, 512), (2560, 512)];
    let asks = [
        Ask::Warms(RANGES),
        Ask::Serves(1536, 512, [3, 3]),
        Ask::Serves(2560, 512, [5, 5]),
        Ask::Refuses(2048, 512, CheckFault::Mismatch(Place::Data(4))),
        Ask::Serves(2048, 512, [4, 4]),
    ];
    assert_eq!(rt;
        answered_by_picks(rt.alloc(), &[3, 7, 5, 7, 4], 8, &asks)?,
        Some(5)
    );
    Ok(())
}

// What a verifier over zeroed stores is refused for, if it is, with room for so many hash blocks and so many data blocks.
fn refusal(alloc: Global, cache: usize, data_cache: usize) -> Result<Option<CheckFault>, Fail> {
    let table = table(alloc, 17, 0, root_17(Algorithm::Sha256))?;
    let (data, hash) = (
        MemStore::zeroed(alloc, 512, 17)?,
        MemStore::zeroed(alloc, 512, 3)?,
    );
    Ok(Verifier::with_data_cache(alloc, table, data, hash, cache, data_cache).err())
}

#[test]
fn data_cache_sizes_have_borders(rt: HostRuntime) -> Result<(), Fail> {
    let alloc = rt.alloc();
    let refusals = (
        refusal(alloc, 1, 0)?,
        refusal(alloc, 1, 65_536)?,
        refusal(alloc, 1, 65_537)?,
        refusal(alloc, 0, 1)?,
    );
    let cache_size = Some(CheckFault::CacheSize);
    assert_eq!(rt; refusals, (None, None, cache_size, cache_size));
    Ok(())
}

// How often, at most three times, a verifier whose memory is a heap serves a part of data block 0 from two reads of data blocks,
// where there is one.
fn served_within(
    alloc: Global,
    volume: &BuiltVolume,
    heap: &LocalHeap,
) -> Result<Option<usize>, Fail> {
    let data = failing(copy(alloc, &volume.data_store)?, Failure::ReadsAfter(2));
    let hash = failing(copy(alloc, &volume.hash_store)?, NEVER);
    let Ok(table) = salted_table(heap) else {
        return Ok(None);
    };
    match Verifier::with_data_cache(heap, table, data, hash, 1, 1) {
        Ok(mut verifier) => Ok(Some(answered_by(
            alloc,
            Some(heap),
            &mut verifier,
            &[Ask::Serves(0, 10, [0, 0]); 3],
        ))),
        Err(_) => Ok(None),
    }
}

// How often the first verifier that is made serves it, and one with much room.
fn served_by_two(alloc: Global) -> Result<Option<(usize, Option<usize>)>, Fail> {
    let volume = salted(alloc)?;
    let wide = LocalHeap::new(alloc, 65_536)?;
    for steps in 0usize..1000 {
        let heap = LocalHeap::new(alloc, steps.saturating_mul(STEP))?;
        if let Some(times) = served_within(alloc, &volume, &heap)? {
            return Ok(Some((times, served_within(alloc, &volume, &wide)?)));
        }
    }
    Ok(None)
}

// Each read needs the data block where none is kept.
#[test]
fn a_data_cache_without_memory_stays_empty(rt: HostRuntime) -> Result<(), Fail> {
    assert_eq!(rt; served_by_two(rt.alloc())?, Some((2, Some(3))));
    Ok(())
}
