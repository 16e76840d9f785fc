//! The levels of a hash tree, and where their blocks stand.
ghost use Rattle.std.specs.Prelude.{◌≡◌, ◌+◌, ◌-◌, ◌/◌, ◌%◌, ◌^◌, ◌<◌, ◌≤◌, IsTrue, IfOk};
ghost use Rattle.verity_digest.specs.Shape.{level_count, blocks_of_levels};
ghost use Rattle.verity_profile.specs.Profile.{IsBlockSize, IsBlockCount};
ghost use Rattle.verity_geometry.specs.Geometry.{IsShape, is_digest_size, digests_per_block, levels_of, len_of, start_of, place_of};
ghost use Rattle.verity_geometry.specs.Geometry.{total_of, above_of};

use crate::GeometryFault;
use std::marker::Model;
use verity_profile::{is_block_count, is_block_size};

/// The sizes and the count of a volume, which determine the shape of its hash tree. A contract sees these four numbers.
#[derive(Clone, Copy, Debug, PartialEq, Eq)]
pub struct Geometry {
    data_size: usize,
    hash_size: usize,
    digest_size: usize,
    blocks: u64,
}

impl Model for Geometry {
    ghost use Rattle.verity_geometry.specs.Geometry.{Shape};

    ghost Value = { Shape };

    ghost use Rattle.verity_geometry.specs.Kept.{shape, kept, IsKept};

    ghost view = { shape };

    ghost invariant = { IsKept };

    ghost inverse = { kept };
}

/// How many levels stand above `blocks` data blocks, where a hash block has room for `per_block` digests.
fn count_levels(per_block: u64, blocks: u64) -> usize
    requires wide { 8 ≤ per_block }
    requires narrow { per_block ≤ 2 ^ 14 }
    requires few { blocks ≤ 2 ^ 40 }
    ensures { result ≡ level_count per_block blocks }
{
    let mut levels = 0;
    let mut reach = 1;
    while reach < blocks {
        reach *= per_block;
        levels += 1;
    }
    levels
}

/// How many data blocks lie below a block of a level.
fn blocks_below(per_block: u64, level: usize) -> u64
    requires wide { 8 ≤ per_block }
    requires narrow { per_block ≤ 2 ^ 14 }
    requires there { per_block ^ level < 2 ^ 40 }
    ensures value { result ≡ per_block ^ (level + 1) }
    ensures some { 0 < result }
{
    per_block.pow(level as u32 + 1)
}

impl Geometry {
    ghost use Rattle.verity_geometry.specs.Faults.{shape_of, shape_or_fault};

    /// The geometry of a volume with SHA-256, whose digests have 32 bytes. M1 and M2 as in `with_digest`.
    pub fn new(data_size: usize, hash_size: usize, blocks: u64) -> Result<Self, GeometryFault>
        ensures answer { result ≡ shape_or_fault data_size hash_size blocks 32 }
        ensures ok { IfOk result (λ geometry. geometry ≡ shape_of data_size hash_size blocks 32) }
    {
        Geometry::with_digest(data_size, hash_size, blocks, 32)
    }

    /// The geometry of a volume with data blocks of `data_size` bytes, hash blocks of `hash_size` bytes, so many data
    /// blocks, and digests of `digest_size` bytes. The first that applies: M1 where one of the block sizes is no power
    /// of two from 512 to 524,288, M2 where the count is 0 or over 2^40, M3 where the digest's size is neither 32 nor 64.
    pub fn with_digest(
        data_size: usize,
        hash_size: usize,
        blocks: u64,
        digest_size: usize,
    ) -> Result<Self, GeometryFault>
        ensures answer { result ≡ shape_or_fault data_size hash_size blocks digest_size }
        ensures ok { IfOk result (λ geometry. geometry ≡ shape_of data_size hash_size blocks digest_size) }
    {
        if !(is_block_size(data_size) && is_block_size(hash_size)) {
            return Err(GeometryFault::BadSize);
        }
        if !is_block_count(blocks) {
            return Err(GeometryFault::BadCount);
        }
        if digest_size != 32 && digest_size != 64 {
            return Err(GeometryFault::DigestSize);
        }
        Ok(Geometry {
            data_size,
            hash_size,
            digest_size,
            blocks,
        })
    }

    /// The size of a data block, in bytes.
    pub fn data_size(&self) -> usize
        ensures value { result ≡ self.now.data_size }
        ensures allowed { IsBlockSize result }
    {
        self.data_size
    }

    /// The size of a hash block, in bytes.
    pub fn hash_size(&self) -> usize
        ensures value { result ≡ self.now.hash_size }
        ensures allowed { IsBlockSize result }
    {
        self.hash_size
    }

    /// The size of a digest, in bytes: 32 or 64.
    pub fn digest_size(&self) -> usize
        ensures value { result ≡ self.now.digest_size }
        ensures allowed { IsTrue (is_digest_size result) }
    {
        self.digest_size
    }

    /// How many data blocks the volume has.
    pub fn blocks(&self) -> u64
        ensures value { result ≡ self.now.blocks }
        ensures allowed { IsBlockCount result }
    {
        self.blocks
    }

    /// How many digests a hash block has room for.
    pub fn per_block(&self) -> usize
        ensures value { result ≡ digests_per_block self.now }
        ensures least { 8 ≤ result }
        ensures most { result ≤ 2 ^ 14 }
        ensures shaped { IsShape self.now }
    {
        self.hash_size / self.digest_size
    }

    /// How many levels the tree has: none above one data block, at most 10 with SHA-256 and 14 with SHA-512.
    pub fn levels(&self) -> usize
        ensures value { result ≡ levels_of self.now }
        ensures most { result ≤ 14 }
        ensures most_sha256 { self.now.digest_size ≡ 32 → result ≤ 10 }
        ensures shaped { IsShape self.now }
    {
        let blocks = self.blocks();
        count_levels(self.per_block() as u64, blocks)
    }

    /// How many hash blocks a level has. The caller owes a level that is there.
    pub fn level_len(&self, level: usize) -> u64
        requires { level < levels_of self.now }
        ensures value { result ≡ len_of self.now level }
        ensures some { 0 < result }
        ensures most { result ≤ self.now.blocks }
    {
        let blocks = self.blocks();
        blocks.div_ceil(blocks_below(self.per_block() as u64, level))
    }

    /// How many hash blocks the levels from `first` to before `end` have.
    fn blocks_between(&self, first: usize, end: usize) -> u64
        requires order { first ≤ end }
        requires there { end ≤ levels_of self.now }
        ensures { result ≡ blocks_of_levels (digests_per_block self.now) self.now.blocks first (end - first) }
    {
        let _ = &self.blocks;
        let mut blocks = 0;
        for level in first..end {
            blocks += self.level_len(level);
        }
        blocks
    }

    /// Where a level begins, in hash blocks counted from the block of the root level: the top level stands first and
    /// level 0 last. The caller owes a level that is there. It takes one division for each level above.
    pub fn level_start(&self, level: usize) -> u64
        requires { level < levels_of self.now }
        ensures value { result ≡ start_of self.now level }
        ensures within { result + len_of self.now level ≤ total_of self.now }
        ensures few { result + len_of self.now level ≤ 2 ^ 40 }
    {
        let levels = self.levels();
        self.blocks_between(level + 1, levels)
    }

    /// Where a block of a level stands, counted like `level_start`. The caller owes a level that is there and an index
    /// below its length.
    pub fn place(&self, level: usize, index: u64) -> u64
        requires level { level < levels_of self.now }
        requires index { index < len_of self.now level }
        ensures value { result ≡ place_of self.now level index }
        ensures within { result < total_of self.now }
        ensures few { result < 2 ^ 40 }
    {
        self.level_start(level) + index
    }

    /// The block of level 0 that holds the digest of data block `n`, and the slot in it. The caller owes a data block
    /// that is there, of a volume with a level.
    pub fn leaf_parent(&self, n: u64) -> (u64, usize)
        requires levels { 0 < levels_of self.now }
        requires within { n < self.now.blocks }
        ensures index { result.0 ≡ n / digests_per_block self.now }
        ensures slot { result.1 ≡ n % digests_per_block self.now }
        ensures index_within { result.0 < len_of self.now 0 }
        ensures slot_within { result.1 < digests_per_block self.now }
    {
        let per_block = self.per_block() as u64;
        (n / per_block, (n % per_block) as usize)
    }

    /// The block of the next level that holds the digest of a hash block, and the slot in it. The caller owes a level
    /// that is there and isn't the top one, and an index below its length.
    pub fn parent(&self, level: usize, index: u64) -> (u64, usize)
        requires level { level + 1 < levels_of self.now }
        requires index { index < len_of self.now level }
        ensures index { result.0 ≡ index / digests_per_block self.now }
        ensures slot { result.1 ≡ index % digests_per_block self.now }
        ensures index_within { result.0 < len_of self.now (level + 1) }
        ensures slot_within { result.1 < digests_per_block self.now }
    {
        let per_block = self.per_block() as u64;
        (index / per_block, (index % per_block) as usize)
    }

    /// The block of a level that lies above data block `n`. The caller owes a level that is there and a data block of
    /// the volume.
    pub fn above(&self, level: usize, n: u64) -> u64
        requires level { level < levels_of self.now }
        requires within { n < self.now.blocks }
        ensures value { result ≡ above_of self.now level n }
        ensures within { result < len_of self.now level }
    {
        let span = blocks_below(self.per_block() as u64, level);
        n / span
    }

    /// How many hash blocks all levels have, without the superblock's.
    pub fn total(&self) -> u64
        ensures value { result ≡ total_of self.now }
        ensures most { result ≤ self.now.blocks }
        ensures few { result ≤ 2 ^ 40 }
    {
        let levels = self.levels();
        self.blocks_between(0, levels)
    }
}
