//! What follows from the definitions, for the layers above.
ghost use Rattle.std.specs.Prelude.{ℕ, List, length};
ghost use Rattle.verity_profile.specs.Profile.{AllSized};
ghost use Rattle.verity_superblock.specs.Superblock.{Params, IsProfile};
ghost use Rattle.verity_superblock.specs.LineLaws.{SpellsBack, DeterminesLine, RefusesOtherLines};
ghost use Rattle.verity_superblock.specs.Laws.{ReadsBack, Determines, RefusesTheRest, IsInBlocks};

/// A superblock has 512 bytes, and reads as what it was made from, whatever follows it.
pub fn reads_back()
    ensures { ReadsBack }
{}

/// Bytes read as one volume at most: what a superblock says is determined by its bytes.
pub fn determines()
    ensures { Determines }
{}

/// `decode` refuses nothing that reads as a volume of the profile, and all else.
pub fn refuses_the_rest()
    ensures { RefusesTheRest }
{}

/// A hash device is whole blocks: those in front, the superblock's, and the tree's. A store whose bytes
/// are the device's holds these blocks and no other.
pub fn is_in_blocks()
    ensures { (p : Params) (image front : List (List ℕ)) → IsProfile p (length image) → AllSized p.hash_block_size front
        → IsInBlocks p image front }
{}

/// The canonical spelling of a table line is one with these values: `parse` gives back what `text` spelt.
pub fn spells_back()
    ensures { SpellsBack }
{}

/// A text is one table line at most.
pub fn determines_line()
    ensures { DeterminesLine }
{}

/// `parse` refuses no table line, and all else.
pub fn refuses_other_lines()
    ensures { RefusesOtherLines }
{}
