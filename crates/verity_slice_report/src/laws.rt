//! What follows for callers. Each function does nothing; its contract is a law, in the words of `specs/`. Proofs cite the lemmas of
//! `proofs/VerifiedLaws`.
ghost use Rattle.std.specs.Prelude.{ℕ, suc, ◌<◌, ◌≤◌, []};
ghost use Rattle.verity_slice.specs.declared.run.Run.{Run};
ghost use Rattle.verity_chain.specs.Table.{Table, IsTable};
ghost use Rattle.verity_report.specs.Stores.{given_between};
ghost use Rattle.verity_slice_report.specs.Sliced.{IsSliceReport};
ghost use Rattle.verity_slice_report.specs.Verified.{AreChained, AllChained, IsVerified, given_in_all};

use verity_slice::cuts_evenly;
use verity_store::BlockStore;

/// Where the report of a slice names no place, of each data block of its run one was returned, while it was made, that ends a chain of
/// returned blocks from the root of the table line.
pub fn slice_is_chained<D: BlockStore, H: BlockStore>()
    ensures { (t : Table) (run : Run) (image : _) (device : _) (unchecked : ℕ) → IsTable t → run.end ≤ t.data_blocks
        → (report : IsSliceReport D.BlockStore H.BlockStore t run image device [] unchecked)
        → AreChained t (given_between D.BlockStore H.BlockStore t image device report.read.image' report.read.device') run }
{}

/// Where the reports of all slices name no place, each over stores of its own, that holds of each data block of the volume, by what was
/// returned to all of them.
pub fn all_slices_are_chained<D: BlockStore, H: BlockStore>()
    ensures { (t : Table) (count : ℕ) → IsTable t → 0 < count
        → (each : (k : ℕ) → k < count → IsVerified D.BlockStore H.BlockStore t (suc k) count)
        → AllChained t (given_in_all D.BlockStore H.BlockStore t count each) }
{
    cuts_evenly();
}
