//! One level of the tree that is made again.
ghost use Rattle.std.specs.Prelude.{◌≡◌, ℕ, ◌+◌, ◌*◌, ◌<◌, ◌≤◌, true, List, [], ◌∷◌, length};
ghost use Rattle.std.specs.Prelude.{map, slice_index, slice_index_or, ◌++◌, OnOk, IfOk, IfSome};
ghost use Rattle.verity_digest.specs.Tree.{pack};
ghost use Rattle.verity_digest.specs.Hash.{hashing, size_of};
ghost use Rattle.verity_store.specs.Stores.{IsOnlyRead, TellsFailure};
ghost use Rattle.verity_plan.specs.Faults.{PlansOrFails};
ghost use Rattle.verity_plan.specs.Seen.{GivesAt, Shows};
ghost use Rattle.verity_pending.specs.Slots.{slots, AreSized};
ghost use Rattle.verity_pending.specs.Plan.{numbers_of, places, ArePlanned, AddsPlanned, AddsChild, made_blocks, made_digests};

use crate::plan::{remake, set_slot};
use crate::{EditFault, StoreFailed};
use std::alloc::Allocator;
use verity_digest::{Digest, Hasher};
use verity_pending::{Child, Children, Made};
use verity_store::{BlockStore, Which};

/// Where the hash blocks of a level of the committed tree stand, and its first digest where no block holds it.
#[derive(Clone, Copy, Debug)]
pub struct OldLevel {
    /// The hash block at which it begins.
    pub start: u64,
    /// How many hash blocks it has.
    pub len: u64,
    /// The root hash, for the level above the committed tree's top.
    pub first: Option<Digest>,
}

/// A level that a commit makes again.
#[derive(Clone, Copy, Debug)]
pub struct Level {
    /// What stood there.
    pub old: OldLevel,
    /// The hash block at which it will begin.
    pub start: u64,
    /// How many digests it holds.
    pub digests: u64,
    /// How many digests a hash block has room for.
    pub per_block: u64,
    /// The bytes of a digest.
    pub digest_size: usize,
}

ghost use Rattle.verity_plan.specs.Level.{Holds, Renews, IsLevel, IsOldBlock, IsOldOf, AreChildren};

/// Gives the old block of a place, or one for the digest that is kept elsewhere, else zeros.
fn read_old<H: BlockStore>(
    hash_store: &mut H,
    level: &Level,
    index: u64,
    block: &mut [u8],
) -> Result<(), StoreFailed>
    requires level { IsLevel level.now (length (H.content hash_store.old)) (H.size hash_store.old) level.now.digest_size }
    requires sized { length block.old ≡ H.size hash_store.old }
    ensures read { OnOk result ((content : List (List ℕ)) → Shows H.BlockStore hash_store.new content →
        index < level.now.old.len → block.new ≡ slice_index_or content (level.now.old.start + index) []) }
    ensures first { OnOk result (level.now.old.len ≤ index → index ≡ 0
        → IfSome level.now.old.first (λ digest. slice_index_or (slots level.now.digest_size level.now.per_block block.new) 0 [] ≡ digest)) }
    ensures fails { TellsFailure result (H.failures hash_store.old) (H.failures hash_store.new) }
    ensures reads { H.reads hash_store.new ≤ H.reads hash_store.old + 1 }
    ensures gives { GivesAt (IsOldBlock level.now index) (H.given hash_store.old) (H.given hash_store.new) }
    ensures read_only { IsOnlyRead H.BlockStore hash_store.old hash_store.new }
{
    let _len = hash_store.len();
    if index < level.old.len {
        return Ok(hash_store.read(level.old.start + index, block)?);
    }
    block.fill(0);
    if index == 0 {
        if let Some(digest) = level.old.first {
            set_slot(block, 0, level.digest_size, digest.bytes());
        }
    }
    Ok(())
}

/// Makes hash block `index` of a level again, and answers its digest.
fn make_again<H: BlockStore, A: Allocator + Copy>(
    hash_store: &mut H,
    hasher: &mut Hasher<A>,
    level: &Level,
    children: &Children<A>,
    index: u64,
    block: &mut [u8],
) -> Result<Digest, StoreFailed>
    requires level { IsLevel level.now (length (H.content hash_store.old)) (H.size hash_store.old) (size_of hasher.old.salted.algorithm) }
    requires children { AreChildren level.now children.now.items }
    requires sized { length block.old ≡ H.size hash_store.old }
    requires index { index * level.now.per_block < level.now.digests }
    ensures made { IfOk result (λ digest. (content : List (List ℕ)) → Shows H.BlockStore hash_store.new content → (old new : List (List ℕ))
        → let h = hashing hasher.old.salted (length block.old) in
        length new ≡ level.now.digests → Holds h old level.now.old content
        → Renews level.now.digest_size old new children.now.items
        → (block.new ≡ slice_index_or (pack h new) index []) × (digest ≡ h.digest (slice_index_or (pack h new) index []))) }
    ensures digest_size { IfOk result (λ digest. length digest ≡ level.now.digest_size) }
    ensures salted { hasher.new.salted ≡ hasher.old.salted }
    ensures hashed { OnOk result (hasher.new.hashed ≡ hasher.old.hashed + 1) }
    ensures fails { TellsFailure result (H.failures hash_store.old) (H.failures hash_store.new) }
    ensures reads { H.reads hash_store.new ≤ H.reads hash_store.old + 1 }
    ensures gives { GivesAt (IsOldBlock level.now index) (H.given hash_store.old) (H.given hash_store.new) }
    ensures read_only { IsOnlyRead H.BlockStore hash_store.old hash_store.new }
{
    read_old(hash_store, level, index, block)?;
    let per_block = level.per_block;
    let left = level.digests - index * per_block;
    let len = left.min(per_block) as usize;
    remake(block, children, index, per_block, level.digest_size, len);
    Ok(hasher.digest(block))
}

/// Makes hash block `index` of a level again, adds it to the plan and its digest to `next`.
fn make_block<H: BlockStore, A: Allocator + Copy>(
    hash_store: &mut H,
    hasher: &mut Hasher<A>,
    level: &Level,
    children: &Children<A>,
    index: u64,
    block: &mut [u8],
    plan: &mut Vec<Made<A>, A>,
    next: &mut Children<A>,
) -> Result<(), EditFault>
    requires level { IsLevel level.now (length (H.content hash_store.old)) (H.size hash_store.old) (size_of hasher.old.salted.algorithm) }
    requires children { AreChildren level.now children.now.items }
    requires sized { length block.old ≡ H.size hash_store.old }
    requires index { index * level.now.per_block < level.now.digests }
    ensures made { OnOk result ((content : List (List ℕ)) → Shows H.BlockStore hash_store.new content → (old new : List (List ℕ))
        → let h = hashing hasher.old.salted (length block.old) in
        length new ≡ level.now.digests → Holds h old level.now.old content
        → Renews level.now.digest_size old new children.now.items
        → (plan.new.items ≡ plan.old.items ++ made_blocks h new level.now.start (index ∷ []))
        × (next.new.items ≡ next.old.items ++ made_digests h new (index ∷ []))) }
    ensures planned { OnOk result (AddsPlanned (length block.old) plan.old.items plan.new.items (level.now.start + index)) }
    ensures next { OnOk result (AddsChild level.now.digest_size next.old.items next.new.items index) }
    ensures salted { hasher.new.salted ≡ hasher.old.salted }
    ensures hashed { OnOk result (hasher.new.hashed ≡ hasher.old.hashed + 1) }
    ensures fails { PlansOrFails result (H.failures hash_store.old) (H.failures hash_store.new) }
    ensures reads { H.reads hash_store.new ≤ H.reads hash_store.old + 1 }
    ensures gives { GivesAt (IsOldBlock level.now index) (H.given hash_store.old) (H.given hash_store.new) }
    ensures read_only { IsOnlyRead H.BlockStore hash_store.old hash_store.new }
{
    let Ok(digest) = make_again(hash_store, hasher, level, children, index, block) else {
        return Err(EditFault::Store(Which::Hash));
    };
    let alloc = *plan.allocator();
    let Ok(made) = Made::behind(alloc, plan.last(), level.start + index, block) else {
        return Err(EditFault::NoMemory);
    };
    if plan.push(made).is_err() {
        return Err(EditFault::NoMemory);
    }
    let child = Child {
        number: index,
        digest,
    };
    match next.push(child) {
        Ok(()) => Ok(()),
        Err(_) => Err(EditFault::NoMemory),
    }
}

/// Makes the hash blocks of these numbers of a level again, adds them to the plan and answers their digests, in this room.
pub fn make_level<H: BlockStore, A: Allocator + Copy>(
    hash_store: &mut H,
    hasher: &mut Hasher<A>,
    level: &Level,
    children: &Children<A>,
    numbers: &[u64],
    room: Children<A>,
    block: &mut [u8],
    plan: &mut Vec<Made<A>, A>,
) -> Result<Children<A>, EditFault>
    requires level { IsLevel level.now (length (H.content hash_store.old)) (H.size hash_store.old) (size_of hasher.old.salted.algorithm) }
    requires children { AreChildren level.now children.now.items }
    requires sized { length block.old ≡ H.size hash_store.old }
    requires empty { room.items ≡ [] }
    requires below { (t : ℕ) → t < length numbers.now → slice_index numbers.now t * level.now.per_block < level.now.digests }
    ensures made { IfOk result (λ next. (content : List (List ℕ)) → Shows H.BlockStore hash_store.new content → (old new : List (List ℕ))
        → let h = hashing hasher.old.salted (length block.old) in
        length new ≡ level.now.digests → Holds h old level.now.old content
        → Renews level.now.digest_size old new children.now.items
        → (plan.new.items ≡ plan.old.items ++ made_blocks h new level.now.start numbers.now)
        × (next.items ≡ made_digests h new numbers.now)) }
    ensures numbers { IfOk result (λ next. numbers_of next.items ≡ numbers.now) }
    ensures next_sized { IfOk result (λ next. AreSized level.now.digest_size next.items) }
    ensures places { OnOk result (places plan.new.items ≡ places plan.old.items ++ map (λ i. level.now.start + i) numbers.now) }
    ensures planned { OnOk result (ArePlanned (length block.old) plan.old.items → ArePlanned (length block.old) plan.new.items) }
    ensures salted { hasher.new.salted ≡ hasher.old.salted }
    ensures hashed { OnOk result (hasher.new.hashed ≡ hasher.old.hashed + length numbers.now) }
    ensures fails { PlansOrFails result (H.failures hash_store.old) (H.failures hash_store.new) }
    ensures reads { H.reads hash_store.new ≤ H.reads hash_store.old + length numbers.now }
    ensures gives { GivesAt (IsOldOf level.now numbers.now) (H.given hash_store.old) (H.given hash_store.new) }
    ensures read_only { IsOnlyRead H.BlockStore hash_store.old hash_store.new }
{
    let mut next = room;
    for index in numbers {
        make_block(
            hash_store, hasher, level, children, *index, block, plan, &mut next,
        )?;
    }
    Ok(next)
}
