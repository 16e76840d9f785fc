//! The edits of an editor under a table line, which are pending until they are committed.
ghost use Rattle.std.specs.Prelude.{◌≡◌, ℕ, ◌⊎◌, ◌↔◌, false, List, None, IfErr, IsOk, OnErr, OnOk};
ghost use Rattle.verity_pending.specs.Edits.{with_write, with_growth, with_shrink, write_rule, grow_rule, shrink_rule};
ghost use Rattle.verity_pending.specs.Draft.{edits_of};
ghost use Rattle.verity_edit.specs.Committing.{RefusesEdit};
ghost use Rattle.verity_edit.specs.Editing.{fresh};

use crate::line::LineEditor;
use std::alloc::Allocator;
use verity_plan::EditFault;
use verity_store::BlockStore;

impl<D: BlockStore, H: BlockStore, A: Allocator + Copy + Drop> LineEditor<D, H, A> {
    /// Writes a data block of the working image. It takes memory for the block, and hashes nothing.
    ///
    /// The first that applies: E7; E1 where `n` isn't below the working count; E2 where the block hasn't the bytes of a
    /// data block; E5 where memory was refused. A refused call changes nothing.
    pub fn write(&mut self, n: u64, block: &[u8]) -> Result<(), EditFault>
        ensures done { OnOk result ((image : List (List ℕ))
            → edits_of image self.new.draft ≡ with_write n block.now (edits_of image self.old.draft)) }
        ensures passed { OnOk result ((self.old.broken ≡ false)
            × (write_rule self.old.draft.size self.old.draft.working n block.now ≡ None)) }
        ensures refused { IfErr result (λ fault. RefusesEdit self.old.broken
            (write_rule self.old.draft.size self.old.draft.working n block.now) fault
            ⊎ ((self.old.broken ≡ false) × (write_rule self.old.draft.size self.old.draft.working n block.now ≡ None)
            × (fault ≡ EditFault.NoMemory))) }
        ensures unchanged { OnErr result (self.new ≡ self.old) }
        ensures only { self.new ≡ record self.old { draft = self.new.draft } }
        ensures size { self.new.draft.size ≡ self.old.draft.size }
    {
        if self.broken {
            return Err(EditFault::Broken);
        }
        self.pending.write(n, block)
    }

    /// Adds zero blocks to the working image, up to this count. It takes no memory.
    ///
    /// The first that applies: E7; E4 where the count isn't above the working one, or over 2^40. A refused call changes
    /// nothing.
    pub fn grow(&mut self, count: u64) -> Result<(), EditFault>
        ensures done { OnOk result ((image : List (List ℕ))
            → edits_of image self.new.draft ≡ with_growth self.old.draft.size count (edits_of image self.old.draft)) }
        ensures passed { OnOk result ((self.old.broken ≡ false) × (grow_rule self.old.draft.working count ≡ None)) }
        ensures refused { IfErr result (λ fault. RefusesEdit self.old.broken (grow_rule self.old.draft.working count) fault) }
        ensures unchanged { OnErr result (self.new ≡ self.old) }
        ensures only { self.new ≡ record self.old { draft = self.new.draft } }
        ensures size { self.new.draft.size ≡ self.old.draft.size }
    {
        if self.broken {
            return Err(EditFault::Broken);
        }
        self.pending.grow(count)
    }

    /// Drops the blocks of the working image from this count on. It takes no memory.
    ///
    /// The first that applies: E7; E3 where the count is 0, or not below the working one. A refused call changes nothing.
    pub fn shrink(&mut self, count: u64) -> Result<(), EditFault>
        ensures done { OnOk result ((image : List (List ℕ))
            → edits_of image self.new.draft ≡ with_shrink count (edits_of image self.old.draft)) }
        ensures passed { OnOk result ((self.old.broken ≡ false) × (shrink_rule self.old.draft.working count ≡ None)) }
        ensures refused { IfErr result (λ fault. RefusesEdit self.old.broken (shrink_rule self.old.draft.working count) fault) }
        ensures unchanged { OnErr result (self.new ≡ self.old) }
        ensures only { self.new ≡ record self.old { draft = self.new.draft } }
        ensures size { self.new.draft.size ≡ self.old.draft.size }
    {
        if self.broken {
            return Err(EditFault::Broken);
        }
        self.pending.shrink(count)
    }

    /// Drops the edits since the last commit: the working image is the committed one again. It takes no memory.
    ///
    /// E7, and then nothing is changed.
    pub fn discard(&mut self) -> Result<(), EditFault>
        ensures done { OnOk result (self.new ≡ record self.old { draft = fresh self.old.draft.size self.old.draft.committed }) }
        ensures ok { IsOk result ↔ (self.old.broken ≡ false) }
        ensures refused { IfErr result (λ fault. fault ≡ EditFault.Broken) }
        ensures unchanged { OnErr result (self.new ≡ self.old) }
    {
        if self.broken {
            return Err(EditFault::Broken);
        }
        self.pending.discard();
        Ok(())
    }
}
