//! The volume of 17 data blocks with a salt, which memory is refused over.
use std::alloc::{Allocator, Global};
use std::test::Fail;
use test_volumes::{BuiltVolume, make_volume, numbered, table};
use verity_digest::Digest;
use verity_superblock::{Table, TableFault};

// Its root hash, as another program answers it.
const ROOT: [u8; 32] = [
    0x23, 0x42, 0x59, 0xa1, 0x2c, 0xf4, 0xcb, 0xa7, 0x8b, 0xef, 0x12, 0x72, 0x91, 0x89, 0x39, 0x94,
    0xc9, 0xf0, 0x19, 0x3a, 0xe8, 0x55, 0xcd, 0xd6, 0xa7, 0x4e, 0x85, 0x38, 0xa6, 0xe6, 0x66, 0x5c,
];

pub fn salted(alloc: Global) -> Result<BuiltVolume, Fail> {
    make_volume(alloc, numbered(alloc, 17)?)
}

// Its table line.
pub fn salted_table<A: Allocator + Copy>(alloc: A) -> Result<Table<A>, TableFault> {
    table(alloc, 17, Digest::from_bytes(ROOT))
}
