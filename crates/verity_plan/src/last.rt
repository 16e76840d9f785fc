//! The last data block where the count fell: it keeps its digest, but what stood behind it in its hash block goes.
ghost use Rattle.std.specs.Prelude.{◌≡◌, ℕ, ◌+◌, ◌-◌, ◌*◌, ◌<◌, ◌≤◌, List, length, take, drop, OnOk};
ghost use Rattle.verity_digest.specs.Hash.{size_of};
ghost use Rattle.verity_store.specs.Stores.{IsOnlyRead};
ghost use Rattle.verity_plan.specs.Faults.{PlansOrFails};
ghost use Rattle.verity_plan.specs.Seen.{GivesAt, Shows};
ghost use Rattle.verity_pending.specs.Slots.{AreSized, AreWithin};
ghost use Rattle.verity_plan.specs.Making.{IsChange};
ghost use Rattle.verity_plan.specs.Last.{AddsLast, NamesLast, IsAboveLast, AreChanged, AreEdited, NamesEdited};

use crate::EditFault;
use crate::tree::Change;
use std::alloc::Allocator;
use verity_digest::{Algorithm, Digest};
use verity_pending::{Child, Children, Pending};
use verity_store::{BlockStore, Which};

/// Adds the last data block of the new count to the leaves, with the digest that level 0 of the committed tree holds. It
/// reads one hash block.
pub fn add_last<H: BlockStore, A: Allocator + Copy>(
    hash_store: &mut H,
    change: &Change,
    algorithm: Algorithm,
    block: &mut [u8],
    leaves: &mut Children<A>,
) -> Result<(), EditFault>
    requires change { IsChange change.now (length (H.content hash_store.old)) (H.size hash_store.old) (size_of algorithm) }
    requires sized { length block.old ≡ H.size hash_store.old }
    requires fell { change.now.new.blocks < change.now.old.blocks }
    ensures added { OnOk result (AddsLast (size_of algorithm) (change.now.new.blocks - 1) leaves.old.items leaves.new.items) }
    ensures named { OnOk result ((content : List (List ℕ)) → Shows H.BlockStore hash_store.new content →
        NamesLast change.now content leaves.old.items leaves.new.items) }
    ensures fails { PlansOrFails result (H.failures hash_store.old) (H.failures hash_store.new) }
    ensures reads { H.reads hash_store.new ≤ H.reads hash_store.old + 1 }
    ensures gives { GivesAt (IsAboveLast change.now) (H.given hash_store.old) (H.given hash_store.new) }
    ensures read_only { IsOnlyRead H.BlockStore hash_store.old hash_store.new }
{
    let _shaped = change.old.levels();
    let _some = change.new.blocks();
    let last = change.new.blocks() - 1;
    let (index, slot) = change.old.leaf_parent(last);
    let at = change.first + change.old.place(0, index);
    let Ok(()) = hash_store.read(at, block) else {
        return Err(EditFault::Store(Which::Hash));
    };
    let child = Child {
        number: last,
        digest: Digest::in_block(block, slot, algorithm),
    };
    match leaves.push(child) {
        Ok(()) => Ok(()),
        Err(_) => Err(EditFault::NoMemory),
    }
}

/// Where the count fell and the last block wasn't changed, adds its leaf to those of the changed blocks, since what its
/// hash blocks held behind it goes. It then reads one hash block.
pub fn add_fallen<H: BlockStore, A: Allocator + Copy>(
    pending: &Pending<A>,
    hash_store: &mut H,
    change: &Change,
    algorithm: Algorithm,
    block: &mut [u8],
    leaves: &mut Children<A>,
) -> Result<(), EditFault>
    requires change { IsChange change.now (length (H.content hash_store.old)) (H.size hash_store.old) (size_of algorithm) }
    requires sized { length block.old ≡ H.size hash_store.old }
    requires committed { pending.now.committed ≡ change.now.old.blocks }
    requires working { pending.now.working ≡ change.now.new.blocks }
    requires leaves { AreChanged pending.now leaves.old.items }
    requires leaves_sized { AreSized (size_of algorithm) leaves.old.items }
    requires leaves_within { AreWithin change.now.new.blocks leaves.old.items }
    ensures edited { OnOk result (AreEdited pending.now leaves.new.items) }
    ensures named { OnOk result ((content : List (List ℕ)) → Shows H.BlockStore hash_store.new content →
        NamesEdited change.now content pending.now leaves.old.items leaves.new.items) }
    ensures edited_sized { OnOk result (AreSized (size_of algorithm) leaves.new.items) }
    ensures edited_within { OnOk result (AreWithin change.now.new.blocks leaves.new.items) }
    ensures fails { PlansOrFails result (H.failures hash_store.old) (H.failures hash_store.new) }
    ensures reads { change.now.new.blocks ≡ change.now.old.blocks → H.reads hash_store.new ≡ H.reads hash_store.old }
    ensures gives { GivesAt (IsAboveLast change.now) (H.given hash_store.old) (H.given hash_store.new) }
    ensures read_only { IsOnlyRead H.BlockStore hash_store.old hash_store.new }
{
    pending.facts();
    if pending.keeps_last() {
        return Ok(());
    }
    add_last(hash_store, change, algorithm, block, leaves)
}
