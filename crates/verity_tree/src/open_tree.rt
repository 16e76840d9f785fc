//! The hash blocks that are being filled, one a level, and those of each level that wait for their digests.
ghost use Rattle.std.specs.Prelude.{◌≡◌, ◌≢◌, ℕ, suc, ◌+◌, ◌*◌, ◌^◌, ◌<◌, ◌≤◌, ◌↔◌, [], length, replicate, slice_index_or};
ghost use Rattle.std.specs.Prelude.{IsTrue, IfOk, None};
ghost use Rattle.std.specs.Fork.{slice_chunk};
ghost use Rattle.verity_digest.specs.Hash.{size_of, salted_digest};
ghost use Rattle.verity_digest.specs.Tree.{hash_block};
ghost use Rattle.verity_geometry.specs.Geometry.{IsShape, digests_per_block, levels_of};
ghost use Rattle.verity_tree.specs.Climb.{empty, open_at, AreAlike, AreEmpty, Comes, Closes};
ghost use Rattle.verity_tree.specs.Coming.{with_room, waits_at, AreWaiting, coming};

use crate::open_block::OpenBlock;
use crate::waiting::{Waiting, most_waiting};
use std::alloc::{AllocError, Allocator, Global};
use verity_digest::{Digest, Hasher};
use verity_geometry::Geometry;

/// The open hash blocks of a tree, from level 0 up, and the root once it is known.
///
/// A block that is closed waits until its level has as many as are hashed side by side, or until its digest is asked for on the level
/// above. A contract sees, as `opens`, the open blocks with all digests that came to them, also those that are still to be made.
/// The fields are public for contracts.
#[derive(Drop)]
pub struct OpenTree<A: Allocator = Global> {
    /// What makes the digests.
    pub hasher: Hasher<A>,
    /// The sizes and counts of the volume.
    pub geometry: Geometry,
    /// The open block of each level.
    pub blocks: Vec<OpenBlock<A>, A>,
    /// The blocks of each level that wait.
    pub waiting: Vec<Waiting<A>, A>,
    /// The root hash, once the last digest came to its place.
    pub root: Option<Digest>,
    ghost shaped: { IsShape geometry },
    ghost sized: { size_of hasher.salted.algorithm ≡ geometry.digest_size },
    ghost levels: { length blocks.items ≡ levels_of geometry },
    ghost alike: { AreAlike geometry blocks.items },
    ghost rows: { length waiting.items ≡ levels_of geometry },
    ghost waits: { AreWaiting geometry waiting.items },
}

// Block 0 of each level.
fn first_blocks<A: Allocator + Copy>(
    alloc: A,
    geometry: &Geometry,
) -> Result<Vec<OpenBlock<A>, A>, AllocError>
    ensures { IfOk result (λ blocks. blocks.items ≡ replicate (levels_of geometry.now) (empty geometry.now.hash_size
        geometry.now.digest_size)) }
{
    let mut blocks = Vec::with_capacity(alloc, geometry.levels())?;
    for _ in 0..geometry.levels() {
        let block = OpenBlock::new(alloc, geometry.hash_size(), geometry.digest_size())?;
        blocks.push(block)?;
    }
    Ok(blocks)
}

// Room for `room` blocks of each level that wait.
fn none_waiting<A: Allocator + Copy>(
    alloc: A,
    geometry: &Geometry,
    room: usize,
) -> Result<Vec<Waiting<A>, A>, AllocError>
    requires few { room ≤ 8 }
    ensures { IfOk result (λ waiting. waiting.items ≡ replicate (levels_of geometry.now) (with_room geometry.now.hash_size room)) }
{
    let mut waiting = Vec::with_capacity(alloc, geometry.levels())?;
    for _ in 0..geometry.levels() {
        let none = Waiting::new(alloc, geometry.hash_size(), room)?;
        waiting.push(none)?;
    }
    Ok(waiting)
}

impl<A: Allocator + Copy> OpenTree<A> {
    ghost use Rattle.verity_tree.specs.Opens.{opens};

    /// The open blocks of a volume's tree, before its first data block. It takes memory for the bytes of one hash block a level,
    /// and for those that wait: of eight more, or as many as 64 KiB hold where these are fewer, at least one.
    pub fn new(alloc: A, hasher: Hasher<A>, geometry: Geometry) -> Result<Self, AllocError>
        requires { size_of hasher.salted.algorithm ≡ geometry.digest_size }
        ensures salted { IfOk result (λ tree. tree.hasher.salted ≡ hasher.salted) }
        ensures geometry { IfOk result (λ tree. tree.geometry ≡ geometry) }
        ensures empty { IfOk result (λ tree. AreEmpty (opens tree)) }
        ensures root { IfOk result (λ tree. tree.root ≡ None) }
    {
        let room = most_waiting(geometry.hash_size());
        let blocks = first_blocks(alloc, &geometry)?;
        let waiting = none_waiting(alloc, &geometry, room)?;
        Ok(OpenTree {
            hasher,
            geometry,
            blocks,
            waiting,
            root: None,
        })
    }
}

impl<A: Allocator> OpenTree<A> {
    ghost use Rattle.verity_tree.specs.Opens.{hashing_of, opens, IsSettled};

    /// Writes the digests of data blocks, which stand one after the other.
    pub fn digest_run(&mut self, data_blocks: &[u8], out: &mut [Digest])
        requires { length data_blocks.now ≡ length out.old * self.old.geometry.data_size }
        ensures digests { (j : ℕ) → j < length out.old
            → slice_index_or out.new j [] ≡ salted_digest self.old.hasher.salted (slice_chunk data_blocks.now self.old.geometry.data_size
            j) }
        ensures opens { opens self.new ≡ opens self.old }
        ensures root { self.new.root ≡ self.old.root }
        ensures salted { self.new.hasher.salted ≡ self.old.hasher.salted }
        ensures geometry { self.new.geometry ≡ self.old.geometry }
    {
        let size = self.geometry.data_size();
        self.hasher.digest_many(data_blocks, size, out);
    }

    /// Takes the digest of the next data block: it comes to level 0, or is the root where there is no level.
    pub fn take(&mut self, digest: Digest)
        requires sized { length digest ≡ self.old.geometry.digest_size }
        requires room { 0 < length (opens self.old) → length (open_at (opens self.old) 0).digests < digests_per_block self.old.geometry }
        ensures comes { Comes 0 digest (opens self.old) (opens self.new) self.old.root self.new.root }
        ensures salted { self.new.hasher.salted ≡ self.old.hasher.salted }
        ensures geometry { self.new.geometry ≡ self.old.geometry }
    {
        if self.blocks.len() > 0 {
            let block = &mut self.blocks[0];
            block.put(&digest);
        } else {
            self.root = Some(digest);
        }
    }

    /// How many levels there are.
    pub fn levels(&self) -> usize
        ensures value { result ≡ levels_of self.now.geometry }
        ensures shaped { IsShape self.now.geometry }
    {
        self.blocks.len()
    }

    // How many digests that come to a level are still to be made.
    fn coming(&self, level: usize) -> usize
        requires { level < length self.now.blocks.items }
        ensures { result ≡ length (coming (hashing_of self.now) self.now.waiting.items level) }
    {
        if level == 0 {
            return 0;
        }
        self.waiting[level - 1].len()
    }

    /// Whether the open block of a level is full.
    pub fn is_full(&self, level: usize) -> bool
        requires level { level < length self.now.blocks.items }
        requires most { length (open_at (opens self.now) level).digests ≤ digests_per_block self.now.geometry }
        ensures { IsTrue result ↔ (length (open_at (opens self.now) level).digests ≡ digests_per_block self.now.geometry) }
    {
        self.blocks[level].is_full(self.coming(level))
    }

    /// Makes the digests of the blocks that wait below a level, side by side, and puts them into its open block.
    pub fn settle(&mut self, level: usize)
        requires level { level < length self.old.blocks.items }
        requires most { length (open_at (opens self.old) level).digests ≤ digests_per_block self.old.geometry }
        ensures settled { IsSettled self.new level }
        ensures others { (l : ℕ) → l ≢ level
            → coming (hashing_of self.new) self.new.waiting.items l ≡ coming (hashing_of self.old) self.old.waiting.items l }
        ensures opens { opens self.new ≡ opens self.old }
        ensures root { self.new.root ≡ self.old.root }
        ensures salted { self.new.hasher.salted ≡ self.old.hasher.salted }
        ensures geometry { self.new.geometry ≡ self.old.geometry }
    {
        if level == 0 {
            return;
        }
        let below = &mut self.waiting[level - 1];
        let count = below.len();
        let mut digests = [Digest::from_bytes([0; 32]); 8];
        let made = &mut digests[..count];
        self.hasher
            .digest_many(below.bytes(), self.geometry.hash_size(), made);
        below.clear();
        let block = &mut self.blocks[level];
        block.put_all(made);
    }

    /// The index of the open block of a level.
    pub fn index(&self, level: usize) -> u64
        requires { level < length self.now.blocks.items }
        ensures { result ≡ (open_at (opens self.now) level).index }
    {
        self.blocks[level].index()
    }

    /// The bytes of the open block of a level, of which no digest is still to be made.
    pub fn block(&self, level: usize) -> &[u8]
        requires level { level < length self.now.blocks.items }
        requires settled { IsSettled self.now level }
        ensures value { result.now ≡ hash_block (hashing_of self.now) (open_at (opens self.now) level).digests }
        ensures len { length result.now ≡ self.now.geometry.hash_size }
    {
        self.blocks[level].bytes()
    }

    // Makes the digests of the blocks of a level that wait, where there is no room for one more.
    fn make_room(&mut self, level: usize)
        requires level { suc level < length self.old.blocks.items }
        requires most { length (open_at (opens self.old) (suc level)).digests ≤ digests_per_block self.old.geometry }
        ensures room { length (waits_at self.new.waiting.items level).blocks < (waits_at self.new.waiting.items level).room }
        ensures others { (l : ℕ) → l ≢ suc level
            → coming (hashing_of self.new) self.new.waiting.items l ≡ coming (hashing_of self.old) self.old.waiting.items l }
        ensures opens { opens self.new ≡ opens self.old }
        ensures root { self.new.root ≡ self.old.root }
        ensures salted { self.new.hasher.salted ≡ self.old.hasher.salted }
        ensures geometry { self.new.geometry ≡ self.old.geometry }
    {
        if self.waiting[level].has_room() {
            return;
        }
        self.settle(level + 1);
    }

    // The open block of a level below the top waits for its digest, and the level's next block is opened.
    fn wait(&mut self, level: usize)
        requires level { suc level < length self.old.blocks.items }
        requires settled { IsSettled self.old level }
        requires few { (open_at (opens self.old) level).index < 2 ^ 41 }
        requires room { length (waits_at self.old.waiting.items level).blocks < (waits_at self.old.waiting.items level).room }
        ensures closes { Closes (hashing_of self.old) level (opens self.old) (opens self.new) self.old.root self.new.root }
        ensures salted { self.new.hasher.salted ≡ self.old.hasher.salted }
        ensures geometry { self.new.geometry ≡ self.old.geometry }
    {
        let block = &mut self.blocks[level];
        let waiting = &mut self.waiting[level];
        waiting.put(block.bytes());
        block.next();
    }

    // The digest of the top level's block is the root, and the level's next block is opened.
    fn finish(&mut self, level: usize)
        requires level { suc level ≡ length self.old.blocks.items }
        requires settled { IsSettled self.old level }
        requires few { (open_at (opens self.old) level).index < 2 ^ 41 }
        ensures closes { Closes (hashing_of self.old) level (opens self.old) (opens self.new) self.old.root self.new.root }
        ensures salted { self.new.hasher.salted ≡ self.old.hasher.salted }
        ensures geometry { self.new.geometry ≡ self.old.geometry }
    {
        let block = &mut self.blocks[level];
        let digest = self.hasher.digest(block.bytes());
        block.next();
        self.root = Some(digest);
    }

    /// Closes the open block of a level, of which no digest is still to be made: its digest comes to the next level, at the latest
    /// when it is asked for, and the level's next block is opened.
    pub fn close(&mut self, level: usize)
        requires level { level < length self.old.blocks.items }
        requires settled { IsSettled self.old level }
        requires few { (open_at (opens self.old) level).index < 2 ^ 41 }
        requires room { suc level < length self.old.blocks.items
            → length (open_at (opens self.old) (suc level)).digests < digests_per_block self.old.geometry }
        ensures closes { Closes (hashing_of self.old) level (opens self.old) (opens self.new) self.old.root self.new.root }
        ensures salted { self.new.hasher.salted ≡ self.old.hasher.salted }
        ensures geometry { self.new.geometry ≡ self.old.geometry }
    {
        if level + 1 == self.blocks.len() {
            self.finish(level);
            return;
        }
        self.make_room(level);
        self.wait(level);
    }
}
