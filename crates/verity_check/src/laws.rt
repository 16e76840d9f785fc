//! What follows for callers. Each function does nothing; its contract is a law, in the words of `specs/`. Proofs cite the
//! lemmas of `proofs/`: `RangeLaw`, `FindingLaws`, `ReportLaws`, `HoldsLaws`, and of `verity_chain`: `ChainLaw`.
ghost use Rattle.std.specs.Prelude.{◌≡◌, ℕ, suc, ◌+◌, ◌*◌, ◌<◌, ◌≤◌, ◌≢◌, true, List, [], length, Contains};
ghost use Rattle.std.specs.List.{concat};
ghost use Rattle.verity_profile.specs.Profile.{AllSized};
ghost use Rattle.verity_superblock.specs.Superblock.{Params, IsProfile};
ghost use Rattle.verity_superblock.specs.Image.{hash_image};
ghost use Rattle.verity_chain.specs.Table.{Table, IsTable};
ghost use Rattle.verity_chain.specs.Chain.{AreSized, EndsChain, WrongAt};
ghost use Rattle.verity_chain.specs.Right.{Fits, IsRight, AreRight, GaveOther, bytes_of};
ghost use Rattle.verity_chain.specs.declared.place.Place.{Place};
ghost use Rattle.verity_report.specs.declared.finding.Verdict.{Verdict};
ghost use Rattle.verity_report.specs.declared.finding.Verdict.TheVariants as verdict;
ghost use Rattle.verity_report.specs.Report.{IsReportGiven};
ghost use Rattle.verity_check.specs.Reported.{IsWrongPlace, AllChained};
ghost use Rattle.verity_check.specs.Range.{ServesBytes, Wrong};
ghost use Rattle.verity_report.specs.declared.finding.Finding.TheVariants.{Good};
ghost use Rattle.verity_report.specs.Finding.{finding};
ghost use Rattle.verity_chain.specs.Stores.{hash_given, IsHashStoreOf};
ghost use Rattle.verity_report.specs.Stores.{Marks, given_in, held_in, BothTell, IsDataStoreOf};
ghost use Rattle.verity_check.specs.Holds.{Holds, IsLineOf};

use verity_store::BlockStore;

/// A block at the end of a chain of given blocks under a table line that fits the image is the image's own, or at some
/// place a store gave a block that differs from the image's own there and has its length and digest.
pub fn chain_is_right<D: BlockStore, H: BlockStore>()
    ensures { (t : Table) (marks : Marks) (d : _) (h : _) (image : List (List ℕ)) (n : ℕ) (block : List ℕ) → IsTable t
        → IsDataStoreOf D.BlockStore t d → IsHashStoreOf H.BlockStore t h → Fits t image → n < t.data_blocks
        → EndsChain t (given_in D.BlockStore H.BlockStore t marks d h) 0 n block
        → IsRight t (given_in D.BlockStore H.BlockStore t marks d h) image n block }
{}

/// So the bytes of a range that was served are the image's, or there is such a clash.
pub fn bytes_are_right<D: BlockStore, H: BlockStore>()
    ensures { (t : Table) (marks : Marks) (d : _) (h : _) (image : List (List ℕ)) (offset len : ℕ) (bytes : List ℕ) → IsTable t
        → IsDataStoreOf D.BlockStore t d → IsHashStoreOf H.BlockStore t h → Fits t image
        → ServesBytes t (given_in D.BlockStore H.BlockStore t marks d h) offset len bytes
        → AreRight t (given_in D.BlockStore H.BlockStore t marks d h) image offset len bytes }
{}

/// Where the stores tell, a block at the end of a chain is the one that is held at its place, and a report finds the place
/// good. So it is with each cached block, which ends a chain of blocks that the hash store gave.
pub fn chained_is_good<D: BlockStore, H: BlockStore>()
    ensures chained { (t : Table) (marks : Marks) (d : _) (h : _) (row index : ℕ) (block : List ℕ) → BothTell D.BlockStore H.BlockStore d h
        → EndsChain t (given_in D.BlockStore H.BlockStore t marks d h) row index block
        → (finding t (held_in D.BlockStore H.BlockStore t d h) [] row index ≡ Good)
        × (block ≡ held_in D.BlockStore H.BlockStore t d h row index) }
    ensures cached { (t : Table) (marks : Marks) (d : _) (h : _) (level index : ℕ) (block : List ℕ) → BothTell D.BlockStore H.BlockStore d h
        → EndsChain t (hash_given H.BlockStore t marks.of_hash h) (suc level) index block
        → (finding t (held_in D.BlockStore H.BlockStore t d h) [] (suc level) index ≡ Good)
        × (block ≡ held_in D.BlockStore H.BlockStore t d h (suc level) index) }
{}

/// What a report says, whatever the stores are, by what they gave while it was made. It calls a place bad only where one gave, below a
/// chain of given blocks, a block without the digest that is named there: so for each image that fits the table line one gave a block
/// that isn't the image's own. It calls a place unread only where one failed. Where it names no place, of each data block one was given
/// that ends a chain: the image's own, or there is a clash.
pub fn report_is_right<D: BlockStore, H: BlockStore>()
    ensures bad { (t : Table) (marks : Marks) (d : _) (h : _) (faults : List (Place × Verdict)) (unchecked old new : ℕ) → IsTable t
        → IsReportGiven t (given_in D.BlockStore H.BlockStore t marks d h) faults unchecked old new
        → (place : Place) → Contains faults (place, verdict.Bad)
        → IsWrongPlace t (given_in D.BlockStore H.BlockStore t marks d h) place }
    ensures other { (t : Table) (marks : Marks) (d : _) (h : _) (faults : List (Place × Verdict)) (unchecked old new : ℕ) → IsTable t
        → IsReportGiven t (given_in D.BlockStore H.BlockStore t marks d h) faults unchecked old new
        → (image : List (List ℕ)) → Fits t image → (place : Place) → Contains faults (place, verdict.Bad)
        → GaveOther t (given_in D.BlockStore H.BlockStore t marks d h) image }
    ensures unread { (t : Table) (marks : Marks) (d : _) (h : _) (faults : List (Place × Verdict)) (unchecked old new : ℕ) → IsTable t
        → IsReportGiven t (given_in D.BlockStore H.BlockStore t marks d h) faults unchecked old new
        → (place : Place) → Contains faults (place, verdict.Unread) → old < new }
    ensures verified { (t : Table) (marks : Marks) (d : _) (h : _) (unchecked old new : ℕ) → IsTable t
        → IsReportGiven t (given_in D.BlockStore H.BlockStore t marks d h) [] unchecked old new
        → AllChained t (given_in D.BlockStore H.BlockStore t marks d h) }
    ensures right { (t : Table) (marks : Marks) (d : _) (h : _) (unchecked old new : ℕ) → IsTable t
        → IsDataStoreOf D.BlockStore t d → IsHashStoreOf H.BlockStore t h
        → IsReportGiven t (given_in D.BlockStore H.BlockStore t marks d h) [] unchecked old new
        → (image : List (List ℕ)) → Fits t image → (n : ℕ) → n < t.data_blocks
        → (block : List ℕ) × given_in D.BlockStore H.BlockStore t marks d h 0 n block
        × IsRight t (given_in D.BlockStore H.BlockStore t marks d h) image n block }
{}

/// Where the stores hold the image and its tree, nothing wrong was given, and what was served is the image's.
pub fn holds_serves<D: BlockStore, H: BlockStore>()
    ensures right { (t : Table) (marks : Marks) (d : _) (h : _) (image : List (List ℕ)) (offset len : ℕ) → IsTable t
        → Holds t (D.tells d) (D.content d) (H.tells h) (H.content h) image
        → offset + len ≤ t.data_blocks * t.data_block_size → Wrong t (given_in D.BlockStore H.BlockStore t marks d h) offset len → ⊥ }
    ensures bytes { (t : Table) (marks : Marks) (d : _) (h : _) (image : List (List ℕ)) (offset len : ℕ) (bytes : List ℕ) → IsTable t
        → Holds t (D.tells d) (D.content d) (H.tells h) (H.content h) image
        → ServesBytes t (given_in D.BlockStore H.BlockStore t marks d h) offset len bytes → bytes ≡ bytes_of image offset len }
{}

/// Stores that tell, of which the data store holds the image and the hash store is the image's hash device with some
/// blocks in front, hold the image and its tree under each table line of the device: its start block is what `tree_start`
/// gives for the superblock behind those blocks.
pub fn device_holds()
    ensures { (p : Params) (t : Table) (image front hash_content : List (List ℕ)) → IsProfile p (length image)
        → AllSized p.data_block_size image → AllSized p.hash_block_size front → AllSized p.hash_block_size hash_content
        → concat hash_content ≡ hash_image p image front → IsLineOf p image (length front) t
        → Holds t true image true hash_content image }
{}
