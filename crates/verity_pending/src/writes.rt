//! The writes of a commit to the hash store.
ghost use Rattle.std.specs.Prelude.{◌≡◌, ℕ, ◌-◌, ◌<◌, ◌≤◌, true, [], length, slice_index_or, OnOk};
ghost use Rattle.verity_store.specs.Moves.{ChangesWithin};
ghost use Rattle.verity_store.specs.Stores.{IsOnlyWritten, TellsFailure};
ghost use Rattle.verity_pending.specs.Applied.{overwritten, FitStore};
ghost use Rattle.verity_pending.specs.Plan.{planned_at};
ghost use Rattle.verity_pending.specs.Written.{AreWritten, OnlyPlanned};

use crate::StoreFailed;
use crate::made::Made;
use std::alloc::Allocator;
use std::collections::BTreeMap;
use verity_store::{Block, BlockStore};

/// Writes the blocks of a plan.
pub fn write_made<H: BlockStore, A: Allocator>(
    hash_store: &mut H,
    plan: &[Made<A>],
) -> Result<(), StoreFailed>
    requires within { (c : ℕ) → c < length plan.now → (planned_at plan.now c).at < length (H.content hash_store.old) }
    requires sized { (c : ℕ) → c < length plan.now → length (planned_at plan.now c).block ≡ H.size hash_store.old }
    ensures written { OnOk result (H.tells hash_store.old ≡ true → AreWritten (length plan.now) plan.now (H.content hash_store.new)) }
    ensures others { OnlyPlanned (length plan.now) plan.now (H.content hash_store.old) (H.content hash_store.new) }
    ensures len { length (H.content hash_store.new) ≡ length (H.content hash_store.old) }
    ensures fails { TellsFailure result (H.failures hash_store.old) (H.failures hash_store.new) }
    ensures written_only { IsOnlyWritten H.BlockStore hash_store.old hash_store.new }
{
    for made in plan {
        hash_store.write(made.at(), made.block())?;
    }
    Ok(())
}

/// Writes the pending blocks to the data store.
pub fn write_pending<D: BlockStore, A: Allocator>(
    store: &mut D,
    written: &BTreeMap<u64, Block<A>, A>,
) -> Result<(), StoreFailed>
    requires { FitStore (length (D.content store.old)) (D.size store.old) written.now.entries }
    ensures written { OnOk result (D.tells store.old ≡ true → D.content store.new ≡ overwritten written.now.entries (D.content store.old)) }
    ensures len { length (D.content store.new) ≡ length (D.content store.old) }
    ensures fails { TellsFailure result (D.failures store.old) (D.failures store.new) }
    ensures written_only { IsOnlyWritten D.BlockStore store.old store.new }
{
    for (n, block) in written {
        store.write(*n, block.as_slice())?;
    }
    Ok(())
}

/// Writes zeros to a run of blocks.
pub fn write_zeros<D: BlockStore>(
    store: &mut D,
    from: u64,
    to: u64,
    zero: &[u8],
) -> Result<(), StoreFailed>
    requires order { from ≤ to }
    requires within { to ≤ length (D.content store.old) }
    requires sized { length zero.now ≡ D.size store.old }
    ensures zeroed { OnOk result (D.tells store.old ≡ true → (q : ℕ) → from ≤ q → q < to
        → slice_index_or (D.content store.new) q [] ≡ zero.now) }
    ensures others { ChangesWithin from (to - from) (D.content store.old) (D.content store.new) }
    ensures fails { TellsFailure result (D.failures store.old) (D.failures store.new) }
    ensures written_only { IsOnlyWritten D.BlockStore store.old store.new }
{
    for n in from..to {
        store.write(n, zero)?;
    }
    Ok(())
}
