//! Verifiers that are made, and then asked one thing after the other.
use crate::room::{is_report_given, steps_to_read};
use crate::verifiers::{
    data_and_tree, flip, range, refuses, refuses_block, reports, root_17, salted_table, serves,
    serves_block, store, table,
};
use linked_list_allocator::LocalHeap;
use std::alloc::{Allocator, Global};
use std::test::Fail;
use test_stores::FailStore;
use test_volumes::{BuiltVolume, copy};
use verity_check::{CheckFault, Place, Verdict, Verifier};
use verity_digest::{Algorithm, Digest};
use verity_store::{BlockStore, MemStore};
use verity_superblock::Table;

/// What a verifier is asked, and what it is to answer.
#[derive(Clone, Copy)]
pub enum Ask {
    /// This offset and length are served, with these bytes at the ends.
    Serves(u64, u32, [u8; 2]),
    /// Nothing is read at this offset.
    ServesNothing(u64),
    /// The blocks from this one on and below that one are served, each filled with its number.
    ServesBlocks(u64, u64),
    /// This offset and length are refused with this fault, and nothing is appended.
    Refuses(u64, u32, CheckFault),
    /// This block is refused with this fault, and nothing is appended.
    RefusesBlock(u64, CheckFault),
    /// These ranges, each an offset and a length, are read beforehand, where that can be.
    Warms(&'static [(u64, u32)]),
    /// A report lists these faults and counts so many places as unchecked.
    Reports(&'static [(Place, Verdict)], u64),
    /// A report lists this fault alone and counts so many places as unchecked.
    ReportsOne(Place, Verdict, u64),
    /// Reads into lists with one step more room each are first served when there are more than so many, and refused with V4 before.
    NeedsSteps(usize),
    /// A report that finds so many steps of room in the verifier's heap is right, or is refused memory where this is false.
    ReportsWithin(usize, bool),
}

// Whether the blocks from this one on and below that one are served.
fn serves_blocks<D: BlockStore, H: BlockStore, A: Allocator + Copy + Drop>(
    alloc: Global,
    verifier: &mut Verifier<D, H, A>,
    from: u64,
    end: u64,
) -> bool {
    for n in from..end {
        if !serves_block(alloc, verifier, n) {
            return false;
        }
    }
    true
}

// Whether a verifier answers as it is to; its memory is from a heap if there is one.
fn is_answered<D: BlockStore, H: BlockStore, A: Allocator + Copy + Drop>(
    alloc: Global,
    heap: Option<&LocalHeap>,
    verifier: &mut Verifier<D, H, A>,
    ask: Ask,
) -> bool {
    match ask {
        Ask::Serves(offset, len, ends) => serves(alloc, verifier, offset, len, ends),
        Ask::ServesNothing(offset) => range(verifier, offset, 0, &mut Vec::new(alloc)).is_ok(),
        Ask::ServesBlocks(from, end) => serves_blocks(alloc, verifier, from, end),
        Ask::Refuses(offset, len, fault) => refuses(alloc, verifier, offset, len, fault),
        Ask::RefusesBlock(n, fault) => refuses_block(alloc, verifier, n, fault),
        Ask::Warms(ranges) => {
            verifier.warm(ranges);
            true
        }
        Ask::Reports(faults, unchecked) => reports(verifier, faults, unchecked),
        Ask::ReportsOne(place, verdict, unchecked) => {
            reports(verifier, &[(place, verdict)], unchecked)
        }
        Ask::NeedsSteps(least) => steps_to_read(alloc, verifier).is_some_and(|steps| least < steps),
        Ask::ReportsWithin(steps, is_given) => match heap {
            Some(heap) => is_report_given(alloc, heap, verifier, steps) == Some(is_given),
            None => false,
        },
    }
}

/// How many things in a row a verifier answers as it is to; its memory is from a heap if there is one.
pub fn answered_by<D: BlockStore, H: BlockStore, A: Allocator + Copy + Drop>(
    alloc: Global,
    heap: Option<&LocalHeap>,
    verifier: &mut Verifier<D, H, A>,
    asks: &[Ask],
) -> usize {
    for (count, ask) in asks.iter().enumerate() {
        if !is_answered(alloc, heap, verifier, *ask) {
            return count;
        }
    }
    asks.len()
}

/// How many things in a row are answered as they are to be by a verifier over these stores whose memory is `memory`, which is a
/// heap's if there is one; or why there is no verifier.
pub fn answered_over<D: BlockStore + Drop, H: BlockStore + Drop, A: Allocator + Copy + Drop>(
    alloc: Global,
    heap: Option<&LocalHeap>,
    memory: A,
    table: Table<A>,
    data: D,
    hash: H,
    cache: usize,
    asks: &[Ask],
) -> Result<usize, CheckFault> {
    let mut verifier = Verifier::new(memory, table, data, hash, cache)?;
    Ok(answered_by(alloc, heap, &mut verifier, asks))
}

/// Which call of a store fails.
#[derive(Clone, Copy)]
pub enum Failure {
    /// The call of this number alone; of number 0, none.
    Call(u64),
    /// Each read after so many.
    ReadsAfter(u64),
}

/// No call fails.
pub const NEVER: Failure = Failure::Call(0);

/// A store that fails there.
pub fn failing(store: MemStore, at: Failure) -> FailStore<MemStore> {
    match at {
        Failure::Call(call) => FailStore::at(store, call),
        Failure::ReadsAfter(count) => FailStore::reads_after(store, count),
    }
}

/// The table line of a verifier.
#[derive(Clone, Copy)]
pub enum Line {
    /// Without a salt, of so many data blocks, of a tree that begins at this hash block, with this root hash.
    Plain(u64, u64, Digest),
    /// That of the salted volume.
    Salted,
}

fn table_of(alloc: Global, line: Line) -> Result<Table, Fail> {
    match line {
        Line::Plain(blocks, start, root) => table(alloc, blocks, start, root),
        Line::Salted => Ok(salted_table(alloc)?),
    }
}

/// How many things in a row are answered as they are to be by a verifier over these stores, or why there is none.
pub fn answered(
    alloc: Global,
    line: Line,
    data: FailStore<MemStore>,
    hash: FailStore<MemStore>,
    cache: usize,
    asks: &[Ask],
) -> Result<Result<usize, CheckFault>, Fail> {
    let table = table_of(alloc, line)?;
    Ok(answered_over(alloc, None, alloc, table, data, hash, cache, asks))
}

/// Stores of these bytes that fail there.
fn stores_of(
    bytes: (Vec<u8>, Vec<u8>),
    at: (Failure, Failure),
) -> Result<(FailStore<MemStore>, FailStore<MemStore>), Fail> {
    let (data, hash) = bytes;
    let data = store(data)?;
    let hash = store(hash)?;
    Ok((failing(data, at.0), failing(hash, at.1)))
}

/// Whether all is answered as it is to be by a verifier over stores of these bytes that fail there.
pub fn is_right(
    alloc: Global,
    line: Line,
    bytes: (Vec<u8>, Vec<u8>),
    at: (Failure, Failure),
    cache: usize,
    asks: &[Ask],
) -> Result<bool, Fail> {
    let (data, hash) = stores_of(bytes, at)?;
    Ok(answered(alloc, line, data, hash, cache, asks)? == Ok(asks.len()))
}

/// The table line of 17 data blocks whose tree begins at hash block 0.
pub fn line_17(algorithm: Algorithm) -> Line {
    Line::Plain(17, 0, root_17(algorithm))
}

/// Whether all is answered as it is to be by a verifier of 17 data blocks where a bit of the data and a bit of the tree are flipped,
/// if they are there.
pub fn is_right_flipped(
    alloc: Global,
    algorithm: Algorithm,
    data_at: usize,
    hash_at: usize,
    asks: &[Ask],
) -> Result<bool, Fail> {
    let (mut data, mut hash) = data_and_tree(alloc, algorithm)?;
    flip(&mut data, data_at);
    flip(&mut hash, hash_at);
    is_right(
        alloc,
        line_17(algorithm),
        (data, hash),
        (NEVER, NEVER),
        2,
        asks,
    )
}

/// How many things in a row are answered as they are to be by a verifier of the salted volume over a heap of so many bytes, whose
/// hash store fails there, or why there is none; None where its table line found no room.
pub fn answered_within(
    alloc: Global,
    volume: &BuiltVolume,
    room: usize,
    hash_failure: Failure,
    asks: &[Ask],
) -> Result<Option<Result<usize, CheckFault>>, Fail> {
    let data = failing(copy(alloc, &volume.data_store)?, NEVER);
    let hash = failing(copy(alloc, &volume.hash_store)?, hash_failure);
    let heap = LocalHeap::new(alloc, room)?;
    let Ok(table) = salted_table(&heap) else {
        return Ok(None);
    };
    Ok(Some(answered_over(alloc, Some(&heap), &heap, table, data, hash, 4, asks)))
}
