//! What an update edits.
ghost use Rattle.std.specs.Prelude.{◌≡◌, ◌≢◌, ◌⊎◌, ℕ, ◌<◌, ◌-◌, ◌++◌, Bool, false, true, None, List, length, take, replicate, slice_set};
ghost use Rattle.std.specs.Prelude.{IfErr, OnErr, OnOk};
ghost use Rattle.verity_profile.specs.Profile.{zero_block};
ghost use Rattle.verity_edit.specs.Committing.{RefusesEdit};
ghost use Rattle.verity_edit.specs.Edits.{grow_rule, shrink_rule, write_rule};

use std::alloc::Allocator;
use verity_edit::{EditFault, Editor};
use verity_store::BlockStore;
use verity_trusted::LineEditor;

/// What an update edits: an editor, whichever way it was opened.
pub trait Edited {
    /// The working image, where this is the committed one.
    ghost working: { Self → List (List ℕ) → List (List ℕ) };

    /// How many blocks the working image has.
    ghost count: { Self → ℕ };

    /// The bytes of a data block.
    ghost size: { Self → ℕ };

    /// The blocks in the data store.
    ghost content: { Self → List (List ℕ) };

    /// How many reads were asked of the data store.
    ghost data_reads: { Self → ℕ };

    /// How many blocks the committed image has.
    ghost committed: { Self → ℕ };

    /// Which blocks were written or added since the last commit.
    ghost changed: { Self → ℕ → Bool };

    /// Whether a commit was cut short.
    ghost broken: { Self → Bool };

    /// The working count of data blocks.
    fn blocks(&self) -> u64
        ensures value { result ≡ count self.now }
        ensures length { (image : List (List ℕ)) → length (working self.now image) ≡ count self.now };

    /// Writes a data block of the working image.
    fn write(&mut self, n: u64, block: &[u8]) -> Result<(), EditFault>
        ensures done { OnOk result ((image : List (List ℕ)) → working self.new image ≡ slice_set (working self.old image) n block.now) }
        ensures content { content self.new ≡ content self.old }
        ensures data_reads { data_reads self.new ≡ data_reads self.old }
        ensures count { count self.new ≡ count self.old }
        ensures others { OnOk result ((i : ℕ) → i ≢ n → changed self.new i ≡ changed self.old i) }
        ensures here { OnOk result (changed self.new n ≡ true) }
        ensures refused { IfErr result (λ fault.
            RefusesEdit (broken self.old) (write_rule (size self.old) (count self.old) n block.now) fault
            ⊎ ((broken self.old ≡ false) × (write_rule (size self.old) (count self.old) n block.now ≡ None)
            × (fault ≡ EditFault.NoMemory))) }
        ensures unchanged { OnErr result (self.new ≡ self.old) }
        ensures size { size self.new ≡ size self.old }
        ensures broken { broken self.new ≡ broken self.old };

    /// Adds zero blocks to the working image, up to this count.
    fn grow(&mut self, wanted: u64) -> Result<(), EditFault>
        ensures done { OnOk result ((image : List (List ℕ)) → working self.new image
            ≡ working self.old image ++ replicate (wanted - length (working self.old image)) (zero_block (size self.old))) }
        ensures content { content self.new ≡ content self.old }
        ensures data_reads { data_reads self.new ≡ data_reads self.old }
        ensures others { OnOk result ((i : ℕ) → i < count self.old → changed self.new i ≡ changed self.old i) }
        ensures passed { OnOk result (grow_rule (count self.old) wanted ≡ None) }
        ensures refused { IfErr result (λ fault. RefusesEdit (broken self.old) (grow_rule (count self.old) wanted) fault) }
        ensures unchanged { OnErr result (self.new ≡ self.old) }
        ensures size { size self.new ≡ size self.old }
        ensures broken { broken self.new ≡ broken self.old };

    /// Drops the blocks of the working image from this count on.
    fn shrink(&mut self, wanted: u64) -> Result<(), EditFault>
        ensures done { OnOk result ((image : List (List ℕ)) → working self.new image ≡ take wanted (working self.old image)) }
        ensures content { content self.new ≡ content self.old }
        ensures data_reads { data_reads self.new ≡ data_reads self.old }
        ensures others { OnOk result ((i : ℕ) → changed self.old i ≡ false → changed self.new i ≡ false) }
        ensures passed { OnOk result (shrink_rule (count self.old) wanted ≡ None) }
        ensures refused { IfErr result (λ fault. RefusesEdit (broken self.old) (shrink_rule (count self.old) wanted) fault) }
        ensures unchanged { OnErr result (self.new ≡ self.old) }
        ensures size { size self.new ≡ size self.old }
        ensures broken { broken self.new ≡ broken self.old };

    /// Drops the edits since the last commit.
    fn discard(&mut self) -> Result<(), EditFault>
        ensures done { OnOk result ((image : List (List ℕ)) → length image ≡ count self.new → working self.new image ≡ image) }
        ensures content { content self.new ≡ content self.old }
        ensures data_reads { data_reads self.new ≡ data_reads self.old }
        ensures count { OnOk result (count self.new ≡ committed self.old) }
        ensures none { OnOk result ((i : ℕ) → i < count self.new → changed self.new i ≡ false) }
        ensures refused { IfErr result (λ fault. fault ≡ EditFault.Broken) }
        ensures broken_refused { OnErr result (broken self.old ≡ true) }
        ensures sound { OnOk result (broken self.new ≡ false) }
        ensures broken { broken self.new ≡ broken self.old }
        ensures unchanged { OnErr result (self.new ≡ self.old) }
        ensures size { size self.new ≡ size self.old };
}

impl<D: BlockStore, H: BlockStore, A: Allocator + Copy> Edited for Editor<D, H, A> {
    ghost use Rattle.verity_edit.specs.Draft.{edits_of, is_changed};

    ghost working = { λ e image. (edits_of image e.draft).working };

    ghost count = { λ e. e.draft.working };

    ghost size = { λ e. e.draft.size };

    ghost content = { λ e. D.content e.data_store };

    ghost data_reads = { λ e. D.reads e.data_store };

    ghost committed = { λ e. e.draft.committed };

    ghost changed = { λ e. is_changed e.draft };

    ghost broken = { λ e. e.broken };

    fn blocks(&self) -> u64 {
        Editor::blocks(self)
    }

    fn write(&mut self, n: u64, block: &[u8]) -> Result<(), EditFault> {
        Editor::write(self, n, block)
    }

    fn grow(&mut self, wanted: u64) -> Result<(), EditFault> {
        Editor::grow(self, wanted)
    }

    fn shrink(&mut self, wanted: u64) -> Result<(), EditFault> {
        Editor::shrink(self, wanted)
    }

    fn discard(&mut self) -> Result<(), EditFault> {
        Editor::discard(self)
    }
}

impl<D: BlockStore, H: BlockStore, A: Allocator + Copy + Drop> Edited for LineEditor<D, H, A> {
    ghost use Rattle.verity_edit.specs.Draft.{edits_of, is_changed};

    ghost working = { λ e image. (edits_of image e.draft).working };

    ghost count = { λ e. e.draft.working };

    ghost size = { λ e. e.draft.size };

    ghost content = { λ e. D.content e.data_store };

    ghost data_reads = { λ e. D.reads e.data_store };

    ghost committed = { λ e. e.draft.committed };

    ghost changed = { λ e. is_changed e.draft };

    ghost broken = { λ e. e.broken };

    fn blocks(&self) -> u64 {
        LineEditor::blocks(self)
    }

    fn write(&mut self, n: u64, block: &[u8]) -> Result<(), EditFault> {
        LineEditor::write(self, n, block)
    }

    fn grow(&mut self, wanted: u64) -> Result<(), EditFault> {
        LineEditor::grow(self, wanted)
    }

    fn shrink(&mut self, wanted: u64) -> Result<(), EditFault> {
        LineEditor::shrink(self, wanted)
    }

    fn discard(&mut self) -> Result<(), EditFault> {
        LineEditor::discard(self)
    }
}
