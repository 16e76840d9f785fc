//! The edits since the last commit.
ghost use Rattle.std.specs.Prelude.{◌≡◌, ℕ, ◌+◌, ◌-◌, ◌<◌, ◌≤◌, ◌^◌, min, true, List, [], length, slice_index_or};
ghost use Rattle.std.specs.Prelude.{Some, None, OnOk, OnErr, IfOk, IfErr, ◌⊎◌};
ghost use Rattle.verity_profile.specs.Profile.{IsBlockCount, zero_block};
ghost use Rattle.verity_store.specs.Stores.{IsOnlyWritten, TellsFailure};
ghost use Rattle.verity_pending.specs.Edits.{with_write, with_growth, with_shrink, write_rule, grow_rule, shrink_rule};
ghost use Rattle.verity_digest.specs.Hash.{salted_digest, size_of};
ghost use Rattle.verity_pending.specs.Draft.{Draft, IsDraft, edits_of, keeps_last};
ghost use Rattle.verity_pending.specs.Touched.{changed_blocks};
ghost use Rattle.verity_pending.specs.Slots.{AreNamed, AreSized, AreWithin};
ghost use Rattle.verity_pending.specs.Plan.{numbers_of};
ghost use Rattle.verity_pending.specs.Leaves.{leaf_hashes};

use crate::children::Children;
use crate::leaves::changed_leaves;
use crate::writes::{write_pending, write_zeros};
use crate::{EditFault, StoreFailed};
use std::alloc::{AllocError, Allocator, Global};
use std::collections::BTreeMap;
use std::marker::Model;
use verity_digest::Hasher;
use verity_store::{Block, BlockStore};

/// The edits since the last commit. A contract sees a `Draft`.
#[derive(Drop)]
pub struct Pending<A: Allocator + Copy = Global> {
    alloc: A,
    size: usize,
    committed: u64,
    least: u64,
    working: u64,
    written: BTreeMap<u64, Block<A>, A>,
}

impl<A: Allocator + Copy> Model for Pending<A> {
    ghost use Rattle.verity_pending.specs.Draft.{Draft};

    ghost Value = { Draft };

    ghost use Rattle.verity_pending.specs.Pend.{draft, KeepsDraft};

    ghost view = { draft };

    ghost invariant = { KeepsDraft };
}

impl<A: Allocator + Copy> Pending<A> {
    /// No edits of an image of this many blocks.
    pub fn new(alloc: A, size: usize, blocks: u64) -> Self
        requires some { 1 ≤ blocks }
        requires few { blocks ≤ 2 ^ 40 }
        ensures { result ≡ record { size = size; committed = blocks; least = blocks; working = blocks; written = [] } }
    {
        Pending {
            alloc,
            size,
            committed: blocks,
            least: blocks,
            working: blocks,
            written: BTreeMap::new(alloc),
        }
    }

    /// What every draft meets.
    pub fn facts(&self)
        ensures { IsDraft self.now }
    {
        let _ = &self.least;
    }

    /// How many blocks there are.
    pub fn blocks(&self) -> u64
        ensures value { result ≡ self.now.working }
        ensures some { 1 ≤ result }
        ensures few { result ≤ 2 ^ 40 }
        ensures count { IsBlockCount result }
    {
        self.working
    }

    /// Whether the count didn't fall, or the last block was changed.
    pub fn keeps_last(&self) -> bool
        ensures { result ≡ keeps_last self.now }
    {
        if self.working >= self.committed {
            return true;
        }
        let last = self.working - 1;
        self.least <= last || self.written.contains_key(&last)
    }

    /// Writes block `n`. E1 where there is no such block, E2 where the bytes aren't those of a data block, in this order; E5. A refused
    /// write changes nothing. It takes memory for a copy of the bytes.
    pub fn write(&mut self, n: u64, block: &[u8]) -> Result<(), EditFault>
        ensures done { OnOk result ((image : List (List ℕ)) → edits_of image self.new ≡ with_write n block.now (edits_of image self.old)) }
        ensures passed { OnOk result (write_rule self.old.size self.old.working n block.now ≡ None) }
        ensures refused { IfErr result (λ fault. (write_rule self.old.size self.old.working n block.now ≡ Some fault)
            ⊎ ((write_rule self.old.size self.old.working n block.now ≡ None) × (fault ≡ EditFault.NoMemory))) }
        ensures unchanged { OnErr result (self.new ≡ self.old) }
        ensures size { self.new.size ≡ self.old.size }
        ensures committed { self.new.committed ≡ self.old.committed }
    {
        if n >= self.working {
            return Err(EditFault::OutOfRange);
        }
        if block.len() != self.size {
            return Err(EditFault::WrongLength);
        }
        let Ok(bytes) = block.to_vec(self.alloc) else {
            return Err(EditFault::NoMemory);
        };
        match self.written.insert(n, Block::new(bytes)) {
            Ok(_) => Ok(()),
            Err(_) => Err(EditFault::NoMemory),
        }
    }

    /// Adds zero blocks, up to this count. E4 where the count doesn't grow or passes 2^40, and then nothing changes. It takes no memory.
    pub fn grow(&mut self, count: u64) -> Result<(), EditFault>
        ensures done { OnOk result ((image : List (List ℕ))
            → edits_of image self.new ≡ with_growth self.old.size count (edits_of image self.old)) }
        ensures passed { OnOk result (grow_rule self.old.working count ≡ None) }
        ensures refused { IfErr result (λ fault. grow_rule self.old.working count ≡ Some fault) }
        ensures unchanged { OnErr result (self.new ≡ self.old) }
        ensures size { self.new.size ≡ self.old.size }
        ensures committed { self.new.committed ≡ self.old.committed }
    {
        if count <= self.working || count > 1 << 40 {
            return Err(EditFault::TooLarge);
        }
        self.working = count;
        Ok(())
    }

    /// Keeps the blocks before `count`. E3 for none of them, or where the count doesn't fall, and then nothing changes.
    pub fn shrink(&mut self, count: u64) -> Result<(), EditFault>
        ensures done { OnOk result ((image : List (List ℕ)) → edits_of image self.new ≡ with_shrink count (edits_of image self.old)) }
        ensures passed { OnOk result (shrink_rule self.old.working count ≡ None) }
        ensures refused { IfErr result (λ fault. shrink_rule self.old.working count ≡ Some fault) }
        ensures unchanged { OnErr result (self.new ≡ self.old) }
        ensures size { self.new.size ≡ self.old.size }
        ensures committed { self.new.committed ≡ self.old.committed }
    {
        if count == 0 || count >= self.working {
            return Err(EditFault::TooSmall);
        }
        self.written.retain(|n, _| *n < count);
        self.least = self.least.min(count);
        self.working = count;
        Ok(())
    }

    /// The edits were committed: what was the working image is the committed one.
    pub fn settle(&mut self)
        ensures { self.new ≡ record {
          size = self.old.size;
          committed = self.old.working;
          least = self.old.working;
          working =
              self.old.working;
          written = [];
        } }
    {
        self.written.clear();
        self.committed = self.working;
        self.least = self.working;
    }

    /// Drops the edits.
    pub fn discard(&mut self)
        ensures { self.new ≡ record {
          size = self.old.size;
          committed = self.old.committed;
          least = self.old.committed;
          working =
              self.old.committed;
          written = [];
        } }
    {
        self.written.clear();
        self.least = self.committed;
        self.working = self.committed;
    }

    /// How many leaves of written blocks a commit has at most, and how many others stand behind one another.
    pub fn most_leaves(&self) -> (u64, u64)
        ensures named { result.0 ≡ min (length self.now.written + 1) (2 ^ 64 - 1) }
        ensures others { result.1 ≡ self.now.working - self.now.least }
    {
        let named = self.written.len() as u64;
        (
            named.saturating_add(1),
            self.working.saturating_sub(self.least),
        )
    }

    /// The leaves of the blocks that were changed, in order, and how many blocks were hashed for them: each that was written, up to
    /// eight side by side, and one block of zeros where others were added. It takes memory for the digests of the written ones and
    /// for the blocks that are hashed at a time, and all of it before the first is hashed.
    pub fn leaves(
        &self,
        hasher: &mut Hasher<A>,
        zero: &[u8],
    ) -> Result<(Children<A>, u64), AllocError>
        requires zero { zero.now ≡ zero_block self.now.size }
        ensures numbers { IfOk result (λ made. (image : List (List ℕ))
            → numbers_of made.0.items ≡ changed_blocks (edits_of image self.now)) }
        ensures named { IfOk result (λ made. (image : List (List ℕ)) →
            AreNamed (λ n. salted_digest hasher.old.salted (slice_index_or (edits_of image self.now).working n [])) made.0.items) }
        ensures within { IfOk result (λ made. AreWithin self.now.working made.0.items) }
        ensures sized { IfOk result (λ made. AreSized (size_of hasher.old.salted.algorithm) made.0.items) }
        ensures salted { hasher.new.salted ≡ hasher.old.salted }
        ensures count { IfOk result (λ made. (image : List (List ℕ))
            → made.1 ≡ leaf_hashes self.now.written (changed_blocks (edits_of image self.now))) }
        ensures most { IfOk result (λ made. made.1 ≤ length made.0.items) }
        ensures few { IfOk result (λ made. made.1 < 2 ^ 63) }
        ensures hashed { IfOk result (λ made. hasher.new.hashed ≡ hasher.old.hashed + made.1) }
        ensures unhashed { OnErr result (hasher.new.hashed ≡ hasher.old.hashed) }
    {
        let _ordered = self.written.len();
        let made = changed_leaves(
            self.alloc,
            &self.written,
            self.least,
            self.working,
            zero,
            hasher,
        )?;
        Ok(made)
    }

    /// Makes a store that holds the committed image hold the working one, in room that it has: gives it the length, writes zeros
    /// where blocks were dropped and others added again, and each block that was written. It asks for a change, whatever is answered;
    /// it reads nothing and takes no memory. Where the store fails, some of this may be done.
    pub fn apply<D: BlockStore>(&self, store: &mut D, zero: &[u8]) -> Result<(), StoreFailed>
        requires committed { length (D.content store.old) ≡ self.now.committed }
        requires size { D.size store.old ≡ self.now.size }
        requires zero { zero.now ≡ zero_block self.now.size }
        requires reserved { self.now.working ≤ D.room store.old }
        ensures applied { OnOk result (D.tells store.old ≡ true → D.content store.new ≡ (edits_of (D.content store.old) self.now).working) }
        ensures len { OnOk result (length (D.content store.new) ≡ self.now.working) }
        ensures changed { D.changes store.old < D.changes store.new }
        ensures fails { TellsFailure result (D.failures store.old) (D.failures store.new) }
        ensures written_only { IsOnlyWritten D.BlockStore store.old store.new }
    {
        let _ordered = self.written.len();
        store.set_len(self.working)?;
        let kept = self.committed.min(self.working);
        write_zeros(store, self.least, kept, zero)?;
        write_pending(store, &self.written)
    }
}
