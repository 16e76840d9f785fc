//! What a commit changes in the hash store.
ghost use Rattle.std.specs.Prelude.{◌≡◌, ◌+◌, ◌-◌, ◌^◌, ◌≤◌, true, [], length, drop, slice_index_or, OnOk};
ghost use Rattle.verity_digest.specs.Tree.{Hashing, tree};
ghost use Rattle.verity_geometry.specs.Geometry.{total_of};
ghost use Rattle.verity_store.specs.Stores.{StaysStore, TellsFailure};
ghost use Rattle.verity_pending.specs.Edits.{Edits};
ghost use Rattle.verity_plan.specs.Levels.{KeepsFront, moved_blocks};
ghost use Rattle.verity_pending.specs.Plan.{ArePlanned};
ghost use Rattle.verity_plan.specs.Carried.{IsCarried, AreInTree};

use crate::StoreFailed;
use crate::levels::move_tree;
use crate::tree::Change;
use std::alloc::Allocator;
use verity_pending::{Made, write_made};
use verity_store::BlockStore;

/// Gives the hash store the length of the new tree, moves the levels that both trees have, writes the blocks of the plan
/// and, in front of the tree, the superblock's block, in room that the store has. It reads the blocks that it moves and no others.
/// Where the store fails, some of this may be done.
pub fn change_hash<H: BlockStore, A: Allocator>(
    hash_store: &mut H,
    change: &Change,
    plan: &[Made<A>],
    superblock: &[u8],
    block: &mut [u8],
) -> Result<(), StoreFailed>
    requires hash_size { change.now.new.hash_size ≡ change.now.old.hash_size }
    requires digest_size { change.now.new.digest_size ≡ change.now.old.digest_size }
    requires behind { 1 ≤ change.now.first }
    requires first { change.now.first ≤ 2 ^ 40 }
    requires room { change.now.first + total_of change.now.old ≤ length (H.content hash_store.old) }
    requires reserved { change.now.first + total_of change.now.new ≤ H.room hash_store.old }
    requires sized { length block.old ≡ H.size hash_store.old }
    requires superblock { length superblock.now ≡ H.size hash_store.old }
    requires planned { ArePlanned (H.size hash_store.old) plan.now }
    requires places { AreInTree change.now.first (total_of change.now.new) plan.now }
    ensures tree { OnOk result (H.tells hash_store.old ≡ true → (h : Hashing) (e : Edits)
        → IsCarried h e change.now (H.content hash_store.old) plan.now
        → drop change.now.first (H.content hash_store.new) ≡ tree h e.working) }
    ensures superblock { OnOk result (H.tells hash_store.old ≡ true
        → slice_index_or (H.content hash_store.new) (change.now.first - 1) [] ≡ superblock.now) }
    ensures len { OnOk result (length (H.content hash_store.new) ≡ change.now.first + total_of change.now.new) }
    ensures front { KeepsFront (change.now.first - 1) (H.content hash_store.old) (H.content hash_store.new) }
    ensures stays { change.now.new ≡ change.now.old → H.reads hash_store.new ≡ H.reads hash_store.old }
    ensures moved_reads { H.reads hash_store.new ≤ H.reads hash_store.old + moved_blocks change.now.old change.now.new }
    ensures fails { TellsFailure result (H.failures hash_store.old) (H.failures hash_store.new) }
    ensures store { StaysStore H.BlockStore hash_store.old hash_store.new }
{
    move_tree(hash_store, change.first, &change.old, &change.new, block)?;
    write_made(hash_store, plan)?;
    Ok(hash_store.write(change.first - 1, superblock)?)
}
