//! The old line's tree, as it is found in the local hash store.
ghost use Rattle.std.specs.Prelude.{◌≡◌, ◌↔◌, ℕ, suc, ◌+◌, ◌^◌, ◌<◌, ◌≤◌, IfOk, IfSome, IsTrue, length};
ghost use Rattle.verity_store.specs.Stores.{IsOnlyRead};
ghost use Rattle.verity_chain.specs.Table.{IsTable, height, row_len, tree_len, path_index};
ghost use Rattle.verity_chain.specs.Chain.{Names};
ghost use Rattle.verity_report.specs.Descent.{seen_in, AreRows};
ghost use Rattle.verity_pull.specs.Over.{rooted, was_given, AreEnds, IsOldName};

use crate::row::{Row, hold, holds, name_of, rows_of};
use std::alloc::{AllocError, Allocator, Global};
use std::marker::Model;
use verity_chain::Tree;
use verity_digest::Digest;
use verity_store::BlockStore;

/// Whether two digests are the same.
pub(crate) fn are_same(one: &Digest, other: &Digest) -> bool
    ensures { IsTrue result ↔ (one.now ≡ other.now) }
{
    one.bytes() == other.bytes()
}

/// The root hash of the old line, and of each level the last block of the local hash store that was found to be the old tree's own.
#[derive(Drop)]
pub(crate) struct Old<A: Allocator = Global> {
    root: Digest,
    rows: Vec<Row<A>, A>,
}

impl<A: Allocator> Model for Old<A> {
    ghost use Rattle.verity_pull.specs.Over.{OldTree};

    ghost Value = { OldTree };

    ghost view = { λ old. record { root = old.root; rows = old.rows.items } };
}

impl<A: Allocator + Copy> Old<A> {
    /// The old tree, of which only the root hash is known. It takes memory for a hash block a level.
    pub(crate) fn new(alloc: A, tree: &Tree<A>, root: Digest) -> Result<Self, AllocError>
        ensures root { IfOk result (λ old. old.root ≡ root) }
        ensures rows { IfOk result (λ old. AreRows tree.now old.rows) }
        ensures seen { IfOk result (λ old. (r : ℕ) → r ≤ height tree.now → seen_in old.rows r ≡ 0) }
    {
        let rows = rows_of(tree, alloc)?;
        Ok(Old { root, rows })
    }
}

impl<A: Allocator> Old<A> {
    /// The digest that the old tree names for data block `n`, or in a higher row for the block above it, if the block of the old tree that
    /// names it was found.
    pub(crate) fn name(&self, tree: &Tree<A>, row: usize, n: u64) -> Option<Digest>
        requires row { row ≤ height tree.now }
        requires within { n < tree.now.data_blocks }
        requires rows { AreRows tree.now self.now.rows }
        ensures { IfSome result (λ digest.
            IsOldName (rooted tree.now self.now.root) row (path_index tree.now n row) self.now.rows digest) }
    {
        if row == tree.levels() {
            return Some(self.root);
        }
        let parent = tree.above(row, n);
        let _few = tree.level_len(row);
        if !holds(&self.rows, row + 1, parent) {
            return None;
        }
        let index = tree.path_index(row, n);
        Some(name_of(tree, row, index, &self.rows))
    }

    /// Reads the local block of a place, for which the old tree names this digest, and keeps it if it has that digest.
    pub(crate) fn look<K: BlockStore>(
        &mut self,
        tree: &mut Tree<A>,
        local: &mut K,
        block: &mut [u8],
        level: usize,
        index: u64,
        named: &Digest,
    )
        requires allowed { IsTable tree.old }
        requires level { level < height tree.old }
        requires index { index < row_len tree.old (suc level) }
        requires local_size { K.size local.old ≡ tree.old.hash_block_size }
        requires there { tree.old.hash_start_block + tree_len tree.old ≤ length (K.content local.old) }
        requires block { length block.old ≡ tree.old.hash_block_size }
        requires rows { AreRows tree.old self.old.rows }
        ensures rows { AreRows tree.old self.new.rows }
        ensures root { self.new.root ≡ self.old.root }
        ensures found { (mark : ℕ) → mark ≤ length (K.given local.old)
            → AreEnds (rooted tree.old self.old.root) (was_given K.BlockStore tree.old mark local.old) self.old.rows
            → Names (rooted tree.old self.old.root) (was_given K.BlockStore tree.old mark local.old) (suc level) index named.now
            → AreEnds (rooted tree.old self.old.root) (was_given K.BlockStore tree.old mark local.new) self.new.rows }
        ensures reads { K.reads local.new ≡ K.reads local.old + 1 }
        ensures keeps { IsOnlyRead K.BlockStore local.old local.new }
        ensures same { tree.new ≡ tree.old }
    {
        let number = tree.hash_place(level, index);
        if local.read(number, block).is_err() {
            return;
        }
        if !tree.matches(block, named) {
            return;
        }
        let _few = tree.level_len(level);
        hold(&mut self.rows, level + 1, index, block);
    }

    /// Whether the old tree names this digest for the block of a level above data block `n`. If it names another, the local block is read
    /// into `block`, and kept if it's the old tree's own.
    pub(crate) fn agrees<K: BlockStore>(
        &mut self,
        tree: &mut Tree<A>,
        local: &mut K,
        block: &mut [u8],
        n: u64,
        level: usize,
        named: &Digest,
    ) -> bool
        requires allowed { IsTable tree.old }
        requires within { n < tree.old.data_blocks }
        requires level { level < height tree.old }
        requires local_size { K.size local.old ≡ tree.old.hash_block_size }
        requires there { tree.old.hash_start_block + tree_len tree.old ≤ length (K.content local.old) }
        requires block { length block.old ≡ tree.old.hash_block_size }
        requires rows { AreRows tree.old self.old.rows }
        ensures alike { IsTrue result
            → IsOldName (rooted tree.old self.old.root) (suc level) (path_index tree.old n (suc level)) self.old.rows named.now }
        ensures rows { AreRows tree.old self.new.rows }
        ensures root { self.new.root ≡ self.old.root }
        ensures found { (mark : ℕ) → mark ≤ length (K.given local.old)
            → AreEnds (rooted tree.old self.old.root) (was_given K.BlockStore tree.old mark local.old) self.old.rows
            → AreEnds (rooted tree.old self.old.root) (was_given K.BlockStore tree.old mark local.new) self.new.rows }
        ensures reads { K.reads local.new ≤ K.reads local.old + 1 }
        ensures unread { IsTrue result → K.reads local.new ≡ K.reads local.old }
        ensures keeps { IsOnlyRead K.BlockStore local.old local.new }
        ensures same { tree.new ≡ tree.old }
    {
        let _low = tree.level_len(level);
        match self.name(tree, level + 1, n) {
            Some(was) => {
                if are_same(&was, named) {
                    return true;
                }
                let index = tree.above(level, n);
                self.look(tree, local, block, level, index, &was);
                false
            }
            None => false,
        }
    }
}
