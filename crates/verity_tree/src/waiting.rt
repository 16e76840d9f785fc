//! The hash blocks of a level whose digests aren't made yet.
ghost use Rattle.std.specs.Prelude.{◌≡◌, ℕ, ◌+◌, ◌*◌, ◌^◌, ◌<◌, ◌≤◌, ◌↔◌, ◌++◌, ◌∷◌, [], length, slice_index_or, IsTrue, IfOk};
ghost use Rattle.std.specs.Fork.{slice_chunk};

use crate::open_block::write_over;
use std::alloc::{AllocError, Allocator, Global};
use std::marker::Model;

/// How many hash blocks of a level wait at most: as many as are hashed side by side.
const SIDE_BY_SIDE: usize = 8;

/// Up to how many bytes more than one hash block of a level waits.
const WAITING_BYTES: usize = 65_536;

/// How many hash blocks of a size wait at most on a level: eight, or as many as 64 KiB hold where these are fewer, at least one.
pub(crate) fn most_waiting(block_size: usize) -> usize
    ensures some { 0 < result }
    ensures most { result ≤ 8 }
{
    (WAITING_BYTES / block_size.max(1)).clamp(1, SIDE_BY_SIDE)
}

/// Hash blocks of a level that are closed and wait for one another, so that their digests are made side by side. A contract sees
/// the blocks, in the order in which they were closed.
#[derive(Drop)]
pub struct Waiting<A: Allocator = Global> {
    bytes: Vec<u8, A>,
    size: usize,
    room: usize,
    count: usize,
}

impl<A: Allocator> Model for Waiting<A> {
    ghost use Rattle.verity_tree.specs.Waits.{Waits};

    ghost Value = { Waits };

    ghost use Rattle.verity_tree.specs.Kept.{waits_of, IsKept};

    ghost view = { waits_of };

    ghost invariant = { IsKept };
}

impl<A: Allocator> Waiting<A> {
    /// None waits, and there is room for `room` blocks. It takes memory for the bytes of as many.
    pub(crate) fn new(alloc: A, block_size: usize, room: usize) -> Result<Self, AllocError>
        requires small { block_size ≤ 2 ^ 20 }
        requires few { room ≤ 8 }
        ensures { IfOk result (λ waiting. waiting ≡ record { size = block_size; room = room; blocks = [] }) }
    {
        let bytes = Vec::from_elem(alloc, 0u8, room * block_size)?;
        Ok(Waiting {
            bytes,
            size: block_size,
            room,
            count: 0,
        })
    }

    /// How many wait.
    pub(crate) fn len(&self) -> usize
        ensures value { result ≡ length self.now.blocks }
        ensures most { result ≤ 8 }
    {
        self.count
    }

    /// Whether one more can wait.
    pub(crate) fn has_room(&self) -> bool
        ensures { IsTrue result ↔ (length self.now.blocks < self.now.room) }
    {
        self.count < self.room
    }

    /// The bytes of the blocks that wait, one after the other.
    pub(crate) fn bytes(&self) -> &[u8]
        ensures len { length result.now ≡ length self.now.blocks * self.now.size }
        ensures value { (j : ℕ) → j < length self.now.blocks
            → slice_chunk result.now self.now.size j ≡ slice_index_or self.now.blocks j [] }
    {
        &self.bytes[..self.count * self.size]
    }

    /// One more block waits.
    pub(crate) fn put(&mut self, block: &[u8])
        requires sized { length block.now ≡ self.old.size }
        requires room { length self.old.blocks < self.old.room }
        ensures { self.new ≡ record self.old { blocks = self.old.blocks ++ block.now ∷ [] } }
    {
        let at = self.count * self.size;
        write_over(&mut self.bytes, at, block);
        self.count += 1;
    }

    /// None waits any more.
    pub(crate) fn clear(&mut self)
        ensures { self.new ≡ record self.old { blocks = [] } }
    {
        self.count = 0;
    }
}
