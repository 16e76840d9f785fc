//! Laws of commits under table lines.
ghost use Rattle.std.specs.Prelude.{ℕ, List};
ghost use Rattle.verity_chain.specs.Table.{Table};
ghost use Rattle.verity_chain.specs.Right.{Fits};
ghost use Rattle.verity_trusted.specs.Lines.{LineStep, AreRightLines, KeepsLines};

/// Of a chain of commits under lines, each under the line that the one before it answered, the last line is that of the image with
/// all edits made, for every image that fits the first line; or in one of the commits the hash store gave a block that differs from
/// the image's own at its place and has its length and its digest.
pub fn keeps_lines()
    ensures { (steps : List LineStep) (t : Table) (image : List (List ℕ)) → AreRightLines steps t → Fits t image
        → KeepsLines steps t image }
{}
