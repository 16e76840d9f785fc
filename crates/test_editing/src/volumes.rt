//! Volumes made from scratch.

use std::alloc::{Allocator, Global};
use std::test::Fail;
use test_volumes::{BuiltVolume, make_volume, numbered};
use verity_store::MemStore;

pub const SIZE: usize = 512;

// A volume of so many data blocks.
pub fn volume_of(alloc: Global, count: usize) -> Result<BuiltVolume, Fail> {
    make_volume(alloc, numbered(alloc, count)?)
}

// Whether two stores hold a volume.
pub fn is_same<S: Allocator>(
    data_store: &MemStore<S>,
    hash_store: &MemStore<S>,
    wanted: &BuiltVolume,
) -> bool {
    data_store.bytes() == wanted.data_store.bytes()
        && hash_store.bytes() == wanted.hash_store.bytes()
}
