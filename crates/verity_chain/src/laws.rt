//! What follows for callers. A function here does nothing; its contract is a law, in the words of `specs/`.
ghost use Rattle.std.specs.Prelude.{◌⊎◌, ℕ, List};
ghost use Rattle.verity_chain.specs.Table.{Table, IsTable};
ghost use Rattle.verity_chain.specs.Right.{Fits, Clash};
ghost use Rattle.verity_chain.specs.Notes.{Note, noted, AreChecked, AreOwn};

/// Under a table line that fits the image, blocks that were read and checked are the image's own, or one of them differs
/// from the image's own at its place and has its length and its digest.
pub fn checked_is_own()
    ensures { (t : Table) (image : List (List ℕ)) (notes : List Note) → IsTable t → Fits t image → AreChecked t notes
        → AreOwn t image notes ⊎ Clash t (noted t notes) image }
{}
