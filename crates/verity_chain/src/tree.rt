//! The tree that a table line describes, as a check goes down it.
ghost use Rattle.std.specs.Prelude.{◌≡◌, ℕ, suc, ◌+◌, ◌-◌, ◌*◌, ◌/◌, ◌%◌, ◌^◌, ◌<◌, ◌≤◌, ◌↔◌, IsTrue, [], length, slice_index_or, IfOk};
ghost use Rattle.std.specs.Fork.{slice_chunk};
ghost use Rattle.verity_digest.specs.Tree.{slot as slot_in};
ghost use Rattle.verity_chain.specs.Table.{IsTable, shape_of, salted_of, hashing_of, branching};
ghost use Rattle.verity_chain.specs.Table.{height, row_len, tree_len, hash_place, path_index};

use base_count::Count;
use std::alloc::{AllocError, Allocator, Global};
use std::marker::Model;
use verity_digest::{Digest, Hasher};
use verity_geometry::Geometry;
use verity_superblock::Table;

/// What is needed to find the blocks of a volume and to check them. A contract sees the table line.
#[derive(Drop)]
pub struct Tree<A: Allocator = Global> {
    table: Table<A>,
    geometry: Geometry,
    hasher: Hasher<A>,
}

impl<A: Allocator> Model for Tree<A> {
    ghost use Rattle.std.specs.Prelude.{◌≡◌};
    ghost use Rattle.verity_chain.specs.Table.{Table as Values, IsTable, shape_of, salted_of};

    ghost Value = { Values };

    ghost view = { λ t. t.table };

    ghost invariant = { λ t. IsTable t.table × (t.geometry ≡ shape_of t.table) × (t.hasher.salted ≡ salted_of t.table) };
}

/// The geometry of a table line, which is of the profile.
pub fn geometry_of<A: Allocator>(table: &Table<A>) -> Geometry
    ensures { result ≡ shape_of table.now }
{
    let data_size = table.data_block_size();
    let hash_size = table.hash_block_size();
    let blocks = table.data_blocks();
    match Geometry::with_digest(data_size, hash_size, blocks, table.algorithm().size()) {
        Ok(geometry) => geometry,
        Err(_) => unreachable!(),
    }
}

impl<A: Allocator + Copy> Tree<A> {
    /// The tree of a table line. It takes memory for a copy of the salt.
    pub fn new(alloc: A, table: Table<A>, geometry: Geometry) -> Result<Self, AllocError>
        requires { geometry ≡ shape_of table }
        ensures { IfOk result (λ t. t ≡ table) }
    {
        let _start = table.hash_start_block();
        let _sizes = (
            table.data_block_size(),
            table.hash_block_size(),
            table.data_blocks(),
        );
        match table.salt().copy(alloc) {
            Ok(salt) => {
                let hasher = Hasher::new(salt, table.algorithm());
                Ok(Tree {
                    table,
                    geometry,
                    hasher,
                })
            }
            Err(_) => Err(AllocError),
        }
    }
}

impl<A: Allocator> Tree<A> {
    /// The values of the table line.
    pub fn table(&self) -> &Table<A>
        ensures value { result.now ≡ self.now }
        ensures allowed { IsTable self.now }
    {
        let _ = &self.geometry;
        &self.table
    }

    /// How many levels there are.
    pub fn levels(&self) -> usize
        ensures value { result ≡ height self.now }
        ensures most { result ≤ 14 }
    {
        self.geometry.levels()
    }

    /// The index in a level of the block above data block `n`.
    pub fn above(&self, level: usize, n: u64) -> u64
        requires level { level < height self.now }
        requires within { n < self.now.data_blocks }
        ensures value { result ≡ path_index self.now n (suc level) }
        ensures within { result < row_len self.now (suc level) }
    {
        self.geometry.above(level, n)
    }

    /// The index in a row of the block above data block `n`, or of data block `n` itself.
    pub fn path_index(&self, row: usize, n: u64) -> u64
        requires row { row ≤ height self.now }
        requires within { n < self.now.data_blocks }
        ensures { result ≡ path_index self.now n row }
    {
        if row == 0 { n } else { self.above(row - 1, n) }
    }

    /// The number in the hash store of a block of a level.
    pub fn hash_place(&self, level: usize, index: u64) -> u64
        requires level { level < height self.now }
        requires index { index < row_len self.now (suc level) }
        ensures value { result ≡ hash_place self.now level index }
        ensures within { result < self.now.hash_start_block + tree_len self.now }
    {
        self.table.hash_start_block() + self.geometry.place(level, index)
    }

    /// The number in the hash store behind the tree's last block.
    pub fn end(&self) -> u64
        ensures { result ≡ self.now.hash_start_block + tree_len self.now }
    {
        self.table.hash_start_block() + self.geometry.total()
    }

    /// The level and the index of a hash block of the tree, by its number in the hash store.
    pub fn locate(&self, number: u64) -> (usize, u64)
        requires begins { self.now.hash_start_block ≤ number }
        requires ends { number < self.now.hash_start_block + tree_len self.now }
        ensures level { result.0 < height self.now }
        ensures index { result.1 < row_len self.now (suc result.0) }
        ensures value { hash_place self.now result.0 result.1 ≡ number }
    {
        let at = number - self.table.hash_start_block();
        for level in 0..self.geometry.levels() {
            let start = self.geometry.level_start(level);
            if start <= at {
                return (level, at - start);
            }
        }
        unreachable!()
    }

    /// How many blocks a level has.
    pub fn level_len(&self, level: usize) -> u64
        requires { level < height self.now }
        ensures value { result ≡ row_len self.now (suc level) }
        ensures few { result ≤ 2 ^ 40 }
        ensures low { level < 14 }
    {
        let _levels = self.geometry.levels();
        self.geometry.level_len(level)
    }

    /// The index of the parent of a block of a row below the top.
    pub fn parent_of(&self, row: usize, index: u64) -> u64
        requires row { row < height self.now }
        requires index { index < row_len self.now row }
        ensures value { result ≡ index / branching self.now }
        ensures within { result < row_len self.now (suc row) }
    {
        index / self.geometry.per_block() as u64
    }

    /// The slot in its parent of the block at an index.
    pub fn slot_of(&self, index: u64) -> usize
        ensures value { result ≡ index % branching self.now }
        ensures within { result < branching self.now }
    {
        (index % self.geometry.per_block() as u64) as usize
    }

    /// The root hash.
    pub fn root(&self) -> Digest
        ensures { result ≡ self.now.root }
    {
        self.table.root()
    }

    /// The digest in a slot of a hash block.
    pub fn digest_in(&self, block: &[u8], slot: usize) -> Digest
        requires within { slot < branching self.now }
        requires whole { length block.now ≡ self.now.hash_block_size }
        ensures { result ≡ slot_in (hashing_of self.now) block.now slot }
    {
        Digest::in_block(block, slot, self.table.algorithm())
    }

    /// Whether a block has this digest.
    pub fn matches(&mut self, block: &[u8], named: &Digest) -> bool
        ensures value { IsTrue result ↔ ((hashing_of self.old).digest block.now ≡ named.now) }
        ensures same { self.new ≡ self.old }
    {
        self.hasher.digest(block).bytes() == named.bytes()
    }

    /// Whether a block has this digest, as `matches` says it. It makes one digest, which it counts, and takes no memory.
    pub fn check(&mut self, block: &[u8], named: &Digest, hashed: &mut Count) -> bool
        ensures value { IsTrue result ↔ ((hashing_of self.old).digest block.now ≡ named.now) }
        ensures counted { hashed.new.steps ≡ hashed.old.steps + 1 }
        ensures same { self.new ≡ self.old }
    {
        hashed.step();
        self.matches(block, named)
    }

    /// Writes the digests of blocks of `size` bytes, which stand one after the other.
    pub fn digest_run(&mut self, blocks: &[u8], size: usize, out: &mut [Digest])
        requires { length blocks.now ≡ length out.old * size }
        ensures digests { (j : ℕ) → j < length out.old
            → slice_index_or out.new j [] ≡ (hashing_of self.old).digest (slice_chunk blocks.now size j) }
        ensures same { self.new ≡ self.old }
    {
        self.hasher.digest_many(blocks, size, out);
    }

    /// How many data blocks from `n` on have the parent that data block `n` has.
    pub fn siblings(&self, n: u64) -> u64
        ensures value { result ≡ branching self.now - n % branching self.now }
        ensures some { 0 < result }
    {
        let per_block = self.geometry.per_block() as u64;
        per_block - n % per_block
    }
}
