//! What the clauses of [`crate::LineFile`] come to, from the first write of a commit's line to the line that is left after a crash.
//!
//! Let FILE hold the line of the volume from before a commit. A crash while FILE.next is begun leaves files that stand for that volume
//! ([`begun_stands`]), a crash of the commit files that stand for the volume from before it and for the one after it
//! ([`under_way_stands`]), and a crash while FILE.next takes FILE's place files that stand for the one after it ([`finished_stands`]).
//! Where two files stand for a volume, `settle` leaves its line in FILE ([`settled_fits`]), which is one of the lines that they held, and a
//! crash of it leaves files that still stand for the volume ([`settling_stands`]); it is refused only where they don't
//! ([`refused_stands_for_none`]). A volume that is that of an image shows the image's line ([`shows_its_line`]).
ghost use Rattle.std.specs.Prelude.{◌≡◌, ◌⊎◌, None, Some};
ghost use Rattle.os_line_file.specs.Folder.{Texts, with_next, replaced, KeepsLine};
ghost use Rattle.verity_superblock.specs.Line.{TableLine};
ghost use Rattle.verity_line_file.specs.Lines.{text_of, HoldsWhole};
ghost use Rattle.verity_line_file.specs.Outcome.{IsSettled, IsRefused, IsMeant};
ghost use Rattle.verity_line_file.specs.Shown.{Values, Shows};
ghost use Rattle.verity_line_file.specs.Standing.{FitsLine, HasLine, HasNext, Replaces, Settles, Stands};
ghost use Rattle.verity_line_file.specs.Top.{ShowsItsLine};
ghost use Rattle.verity_line_file.specs.declared.fault.LineFileFault.{LineFileFault};
ghost use Rattle.verity_line_file.specs.declared.line_file.Settled.{Settled};

use os_line_file::LineFolder;
use verity_digest::laws as trees;
use verity_superblock::laws;

/// While FILE.next is begun, FILE fits the volume as it did.
pub fn begun_stands<F: LineFolder>()
    ensures { (v : Values) (folder : F) → ((d : Texts) → F.may_leave folder d → FitsLine v d)
        → (c : Texts) → KeepsLine (F.may_leave folder) c → Stands v c }
{}

/// Once it is begun, both files stand for the volume from before the commit and for the one after it.
pub fn under_way_stands()
    ensures before { (v : Values) (texts : Texts) (t : TableLine) → FitsLine v texts → Stands v (with_next (Some (text_of t)) texts) }
    ensures after { (w : Values) (texts : Texts) (t : TableLine) → HoldsWhole (text_of t) t → Shows w t
        → Stands w (with_next (Some (text_of t)) texts) }
    ensures next { (w : Values) (texts : Texts) (t : TableLine) → HoldsWhole (text_of t) t → Shows w t
        → HasNext w (with_next (Some (text_of t)) texts) }
{}

/// While FILE.next, which holds the volume's line, takes FILE's place, both files stand for the volume; then FILE holds its line.
pub fn finished_stands<F: LineFolder>()
    ensures stands { (w : Values) (folder : F) → HasNext w (F.seen folder) → ((d : Texts) → F.may_leave folder d → Stands w d)
        → (c : Texts) → Replaces (F.seen folder) (F.may_leave folder) c → Stands w c }
    ensures done { (w : Values) (seen : Texts) → HasNext w seen → HasLine w (replaced seen) }
{}

/// Both files that stand for a volume are settled so that FILE holds its line, if there is a FILE, and there is no FILE.next. The line that
/// is left is one of the two.
pub fn settled_fits()
    ensures fits { (v : Values) (old new : Texts) (done : Settled) → Stands v old → IsSettled v old new done → FitsLine v new }
    ensures next { (v : Values) (old new : Texts) (done : Settled) → IsSettled v old new done → new.next ≡ None }
    ensures held { (v : Values) (old new : Texts) (done : Settled) → IsSettled v old new done
        → (new.line ≡ old.line) ⊎ (new.line ≡ old.next) }
{}

/// While they are settled, both files stand for the volume.
pub fn settling_stands<F: LineFolder>()
    ensures { (v : Values) (folder : F) → ((d : Texts) → F.may_leave folder d → Stands v d)
        → (c : Texts) → Settles v (F.seen folder) (F.may_leave folder) c → Stands v c }
{}

/// Neither memory nor the folder to blame, both files are refused only where they don't stand for the volume.
pub fn refused_stands_for_none()
    ensures { (v : Values) (texts : Texts) (e : LineFileFault) → IsMeant e → IsRefused v texts e → ¬ Stands v texts }
{
    laws::determines_line();
}

/// A volume whose superblock has a line's values, and whose top block is that of the image whose line it is, shows that line: so over
/// stores that hold what a line says `settle` refuses nothing.
pub fn shows_its_line()
    ensures { ShowsItsLine }
{
    trees::has_no_level();
    trees::hashes_all();
    trees::counts_blocks();
    trees::places_blocks();
    trees::orders_levels();
    trees::names_digests();
}
