//! Heaps with little room, and stores in them.

use linked_list_allocator::LocalHeap;
use std::alloc::{Allocator, Global};
use std::test::Fail;
use test_volumes::fill;
use verity_store::MemStore;

// Room for an editor of the tests and its stores, with some to spare.
pub const AMPLE: usize = 65_536;

// Takes all of a heap but so many bytes.
pub fn squeeze<'a>(
    alloc: Global,
    heap: &'a LocalHeap,
    room: usize,
) -> Result<Vec<Vec<u8, &'a LocalHeap>>, Fail> {
    let gap = Vec::from_elem(heap, 0u8, room)?;
    let rest = fill(alloc, heap)?;
    drop(gap);
    Ok(rest)
}

// A store of the same bytes.
pub fn copy_in<S: Allocator + Copy>(
    alloc: S,
    store: &MemStore,
    size: usize,
) -> Result<MemStore<S>, Fail> {
    Ok(MemStore::new(store.bytes().to_vec(alloc)?, size)?)
}
