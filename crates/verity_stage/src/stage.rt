//! Blocks that were written, and lengths.
ghost use Rattle.std.specs.Prelude.{◌≡◌, ℕ, ◌+◌, ◌*◌, ◌<◌, ◌≤◌, ◌^◌, min, List, [], length, slice_set, map};
ghost use Rattle.std.specs.Prelude.{Some, None, OnOk, OnErr, IfOk, IfSome, IfNone};
ghost use Rattle.std.specs.List.Sorted.{IsStrictlySortedBy};
ghost use Rattle.std.specs.Map.{keys_of};
ghost use Rattle.std.specs.Ordering.{nat_cmp};
ghost use Rattle.verity_profile.specs.Profile.{IsBlockSize};
ghost use Rattle.verity_store.specs.Blocks.{resized};
ghost use Rattle.verity_stage.specs.Stage.{staged, written_at, side_of, at_place, IsStage, FitPlaces};

use std::alloc::{AllocError, Allocator, Global};
use std::collections::BTreeMap;
use std::marker::Model;
use verity_journal::{Change, Side};
use verity_store::Block;

/// Blocks that were written over a store, and how many blocks there are and were at least. A contract sees a `Stage` of
/// `specs/Stage.antt`.
#[derive(Drop)]
pub struct Stage<A: Allocator + Copy = Global> {
    alloc: A,
    size: usize,
    least: u64,
    blocks: u64,
    written: BTreeMap<u64, Block<A>, A>,
}

impl<A: Allocator + Copy> Model for Stage<A> {
    ghost use Rattle.verity_stage.specs.Stage.{Stage};

    ghost Value = { Stage };

    ghost use Rattle.verity_stage.specs.Inside.{stage_of, KeepsStage};

    ghost view = { stage_of };

    ghost invariant = { KeepsStage };
}

impl<A: Allocator + Copy> Stage<A> {
    /// Nothing is staged over a store of this many blocks.
    pub fn new(alloc: A, size: usize, blocks: u64) -> Stage<A>
        requires profile { IsBlockSize size }
        requires few { blocks ≤ 2 ^ 41 }
        ensures { result ≡ record { size = size; least = blocks; blocks = blocks; written = [] } }
    {
        Stage {
            alloc,
            size,
            least: blocks,
            blocks,
            written: BTreeMap::new(alloc),
        }
    }

    /// What every stage meets.
    pub fn facts(&self)
        ensures stage { IsStage self.now }
        ensures few { self.now.blocks ≤ 2 ^ 41 }
        ensures ordered { IsStrictlySortedBy nat_cmp (keys_of self.now.written) }
    {
        let _ordered = self.written.len();
    }

    /// How many blocks there are.
    pub fn blocks(&self) -> u64
        ensures { result ≡ self.now.blocks }
    {
        self.blocks
    }

    /// How many blocks there were at least.
    pub fn least(&self) -> u64
        ensures { result ≡ self.now.least }
    {
        self.least
    }

    /// What was written to block `n`.
    pub fn get(&self, n: u64) -> Option<&[u8]>
        ensures some { IfSome result (λ block. written_at self.now n ≡ Some block.now) }
        ensures none { IfNone result (written_at self.now n ≡ None) }
    {
        match self.written.get(&n) {
            Some(block) => Some(block.as_slice()),
            None => None,
        }
    }

    /// Writes block `n`. It takes memory for it; an error changes nothing.
    pub fn write(&mut self, n: u64, block: &[u8]) -> Result<(), AllocError>
        requires within { n < self.old.blocks }
        requires sized { length block.now ≡ self.old.size }
        ensures done { OnOk result ((content : List (List ℕ)) → staged content self.new ≡ slice_set (staged content self.old) n block.now) }
        ensures unchanged { OnErr result (self.new ≡ self.old) }
        ensures size { self.new.size ≡ self.old.size }
        ensures least { self.new.least ≡ self.old.least }
        ensures blocks { self.new.blocks ≡ self.old.blocks }
    {
        let bytes = block.to_vec(self.alloc)?;
        self.written.insert(n, Block::new(bytes))?;
        Ok(())
    }

    /// Cuts it to `blocks` blocks, or fills it up to as many with zero blocks. It takes no memory.
    pub fn resize(&mut self, blocks: u64)
        requires { blocks ≤ 2 ^ 41 }
        ensures done { (content : List (List ℕ)) → staged content self.new ≡ resized self.old.size blocks (staged content self.old) }
        ensures size { self.new.size ≡ self.old.size }
        ensures least { self.new.least ≡ min self.old.least blocks }
        ensures blocks { self.new.blocks ≡ blocks }
    {
        if self.blocks <= blocks {
            self.blocks = blocks;
            return;
        }
        self.written.retain(|n, _| *n < blocks);
        self.least = self.least.min(blocks);
        self.blocks = blocks;
    }

    /// The changes that make of a device with a store's bytes one with what is staged. It takes memory for the blocks once
    /// more.
    pub fn side(&self) -> Result<Side<A>, AllocError>
        ensures side { IfOk result (λ side. side ≡ side_of self.now) }
    {
        let size = self.size as u64;
        let _ordered = self.written.len();
        let changes = changes_of(self.alloc, &self.written, size)?;
        Ok(Side::new(self.least * size, self.blocks * size, changes))
    }
}

// Each block with the place of its first byte.
fn changes_of<A: Allocator + Copy>(
    alloc: A,
    written: &BTreeMap<u64, Block<A>, A>,
    size: u64,
) -> Result<Vec<Change<A>, A>, AllocError>
    requires { FitPlaces size written.now.entries }
    ensures { IfOk result (λ changes. changes.items ≡ map (at_place size) written.now.entries) }
{
    let mut changes = Vec::new(alloc);
    for (n, block) in written {
        changes.push(change_of(alloc, *n, block.as_slice(), size)?)?;
    }
    Ok(changes)
}

// A block with the place of its first byte.
fn change_of<A: Allocator + Copy>(
    alloc: A,
    n: u64,
    block: &[u8],
    size: u64,
) -> Result<Change<A>, AllocError>
    requires { n * size < 2 ^ 64 }
    ensures { IfOk result (λ change. change ≡ (n * size, block.now)) }
{
    let bytes = block.to_vec(alloc)?;
    Ok(Change::new(n * size, bytes))
}
