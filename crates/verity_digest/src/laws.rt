//! What follows from the definition of the tree: laws over every way of hashing and every image. Each function does
//! nothing; its contract is the law, in the words of `specs/Laws.antt`. Proofs cite the lemmas of `proofs/TreeLaws.antt`.
ghost use Rattle.std.specs.Prelude.{ℕ, ◌<◌, ◌≤◌, List};
ghost use Rattle.verity_digest.specs.Tree.{Hashing, per_block, IsHashing};
ghost use Rattle.verity_digest.specs.Laws.{UnfoldsRounds, HasNoLevel, CountsBlocks, PlacesBlocks, OrdersLevels, NamesDigests};
ghost use Rattle.verity_digest.specs.Laws.{FillsBlocks, GoesByRows, NamesByRows, HashesAll, GrowsWithCount, LiesAbove};

/// One digest has no level above it. More have the level that holds them and the levels above its digests, and these
/// end at one digest.
pub fn unfolds_rounds()
    ensures { (h : Hashing) → 2 ≤ per_block h → UnfoldsRounds h }
{}

/// One data block has no level, and its digest is the root hash.
pub fn has_no_level()
    ensures { (h : Hashing) (block : List ℕ) → HasNoLevel h block }
{}

/// How many levels a tree has, how many blocks each, and how many all.
pub fn counts_blocks()
    ensures { (h : Hashing) (image : List (List ℕ)) → 2 ≤ per_block h → CountsBlocks h image }
{}

/// Where the blocks of a level stand in the tree.
pub fn places_blocks()
    ensures { (h : Hashing) (image : List (List ℕ)) → 2 ≤ per_block h → PlacesBlocks h image }
{}

/// The top level comes first and level 0 last, without gaps.
pub fn orders_levels()
    ensures { (k n : ℕ) → 2 ≤ k → 0 < n → OrdersLevels k n }
{}

/// Which block and slot hold the digest of a block, and that the root hash is the digest of the top.
pub fn names_digests()
    ensures { (h : Hashing) (image : List (List ℕ)) → IsHashing h → NamesDigests h image }
{}

/// Every hash block has the block size, and its unused room is zeros.
pub fn fills_blocks()
    ensures { (h : Hashing) (image : List (List ℕ)) → IsHashing h → FillsBlocks h image }
{}

/// The levels, row by row from the data blocks up.
pub fn goes_by_rows()
    ensures { (h : Hashing) (image : List (List ℕ)) → 2 ≤ per_block h → GoesByRows h image }
{}

/// Which block and slot of the next row hold the digest of a block, also above the root.
pub fn names_by_rows()
    ensures { (h : Hashing) (image : List (List ℕ)) → IsHashing h → NamesByRows h image }
{}

/// Both algorithms give digests of their size, and with hash blocks of 512 bytes or more a tree.
pub fn hashes_all()
    ensures { HashesAll }
{}

/// A larger count has no fewer levels, no shorter level and no smaller start of a level.
pub fn grows_with_count()
    ensures { (k n m : ℕ) → 2 ≤ k → n ≤ m → GrowsWithCount k n m }
{}

/// The blocks above a data block, level by level.
pub fn lies_above()
    ensures { (k n b : ℕ) → 0 < k → b < n → LiesAbove k n b }
{}
