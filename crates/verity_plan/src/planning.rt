//! The plan of a commit: all that it reads and hashes and all memory that it takes, before the first change.
ghost use Rattle.std.specs.Prelude.{◌≡◌, ℕ, ◌+◌, ◌^◌, ◌≤◌, true, List, length, drop, replicate, IfErr, IfOk};
ghost use Rattle.verity_digest.specs.Hash.{size_of, hashing};
ghost use Rattle.verity_digest.specs.Tree.{root, tree};
ghost use Rattle.verity_geometry.specs.Geometry.{IsShape, digests_per_block, levels_of, total_of};
ghost use Rattle.verity_profile.specs.Profile.{IsBlockCount, zero_block};
ghost use Rattle.verity_superblock.specs.Superblock.{salted};
ghost use Rattle.verity_superblock.specs.Image.{superblock_block};
ghost use Rattle.verity_store.specs.Stores.{IsOnlyRead};
ghost use Rattle.verity_plan.specs.Faults.{PlansOrFails};
ghost use Rattle.verity_plan.specs.Seen.{GivesAt, Shows};
ghost use Rattle.verity_pending.specs.Draft.{edits_of};
ghost use Rattle.verity_pending.specs.Leaves.{hashes};
ghost use Rattle.verity_pending.specs.Touched.{touched_count};
ghost use Rattle.verity_pending.specs.Plan.{ArePlanned};
ghost use Rattle.verity_plan.specs.Making.{IsChange, IsTouchedPlace, touched_blocks};
ghost use Rattle.verity_plan.specs.Carried.{AreInTree};
ghost use Rattle.verity_plan.specs.Standing.{BeginsWith};

use crate::EditFault;
use crate::last::add_fallen;
use crate::rooms::{most_made, rooms_for};
use crate::tree::{Change, make_tree};
use std::alloc::Allocator;
use verity_digest::{Digest, Hasher};
use verity_geometry::Geometry;
use verity_pending::{Made, Pending};
use verity_store::{BlockStore, Which};
use verity_superblock::Superblock;

/// What a commit makes before it changes anything.
#[derive(Drop)]
pub struct CommitPlan<A: Allocator> {
    /// The committed tree and the one in its place.
    pub change: Change,
    /// The touched hash blocks of the new tree.
    pub made: Vec<Made<A>, A>,
    /// The superblock of the new count.
    pub superblock: Superblock<A>,
    /// The hash block that it stands in.
    pub first_block: Vec<u8, A>,
    /// The root hash of the new tree.
    pub root: Digest,
    /// How many blocks were hashed.
    pub hashed: u64,
    /// A data block of zeros.
    pub zero: Vec<u8, A>,
}

ghost use Rattle.verity_plan.specs.Planning.{volume_shape, IsPlan, IsRight, ReadsTouched, GivesTouched};

/// The geometry of a volume with so many data blocks.
pub fn geometry_over<A: Allocator>(superblock: &Superblock<A>, blocks: u64) -> Geometry
    requires { IsBlockCount blocks }
    ensures value { result ≡ volume_shape superblock.now.params blocks }
    ensures shaped { IsShape result }
{
    match Geometry::with_digest(
        superblock.data_block_size(),
        superblock.hash_block_size(),
        blocks,
        superblock.algorithm().size(),
    ) {
        Ok(geometry) => {
            let _levels = geometry.levels();
            geometry
        }
        Err(_) => unreachable!(),
    }
}

/// The superblock of the same volume with so many data blocks.
fn superblock_over<A: Allocator + Copy>(
    alloc: A,
    superblock: &Superblock<A>,
    blocks: u64,
) -> Result<Superblock<A>, EditFault>
    requires { IsBlockCount blocks }
    ensures value { IfOk result (λ next. next ≡ record { params = superblock.now.params; data_blocks = blocks }) }
    ensures fault { IfErr result (λ fault. fault ≡ EditFault.NoMemory) }
{
    let salt = superblock.salt().copy(alloc)?;
    match Superblock::new(
        superblock.data_block_size(),
        superblock.hash_block_size(),
        blocks,
        salt,
        superblock.uuid(),
        superblock.algorithm(),
    ) {
        Ok(next) => Ok(next),
        Err(_) => unreachable!(),
    }
}

/// The hash block that a superblock stands in.
fn first_block_of<A: Allocator + Copy>(
    alloc: A,
    superblock: &Superblock<A>,
) -> Result<Vec<u8, A>, EditFault>
    ensures value { IfOk result (λ block. block.items ≡ superblock_block superblock.now.params superblock.now.data_blocks) }
    ensures size { IfOk result (λ block. length block.items ≡ superblock.now.params.hash_block_size) }
    ensures fault { IfErr result (λ fault. fault ≡ EditFault.NoMemory) }
{
    superblock.facts();
    let Ok(mut block) = superblock.encode().to_vec(alloc) else {
        return Err(EditFault::NoMemory);
    };
    match block.resize(superblock.hash_block_size(), 0) {
        Ok(()) => Ok(block),
        Err(_) => Err(EditFault::NoMemory),
    }
}

/// What the new tree is made of: its touched blocks, its root hash, and how many blocks were hashed for it.
#[derive(Drop)]
struct NewTree<A: Allocator> {
    made: Vec<Made<A>, A>,
    root: Digest,
    hashed: u64,
}

/// Makes the tree of the working image again: hashes each written block that is still there and each touched hash block
/// once, and one block of zeros where others were added, and reads the old block of each touched place that has one.
fn plan_tree<H: BlockStore, A: Allocator + Copy>(
    alloc: A,
    hash_store: &mut H,
    hasher: &mut Hasher<A>,
    pending: &Pending<A>,
    change: &Change,
    zero: &[u8],
    block: &mut [u8],
) -> Result<NewTree<A>, EditFault>
    requires change { IsChange change.now (length (H.content hash_store.old)) (H.size hash_store.old)
        (size_of hasher.old.salted.algorithm) }
    requires committed { pending.now.committed ≡ change.now.old.blocks }
    requires working { pending.now.working ≡ change.now.new.blocks }
    requires zero { zero.now ≡ zero_block pending.now.size }
    requires sized { length block.old ≡ H.size hash_store.old }
    ensures right { IfOk result (λ plan. (content : List (List ℕ)) → Shows H.BlockStore hash_store.new content → (image : List (List ℕ))
        → length image ≡ pending.now.committed
        → let h = hashing hasher.old.salted (length block.old) in BeginsWith (drop change.now.first content)
        (tree h image) → change.now.root ≡ root h image
        → (plan.made.items ≡ touched_blocks h (edits_of image pending.now) change.now.first change.now.new.blocks
        (levels_of change.now.new))
        × (plan.root ≡ root h (edits_of image pending.now).working)) }
    ensures planned { IfOk result (λ plan. ArePlanned (length block.old) plan.made.items) }
    ensures places { IfOk result (λ plan. AreInTree change.now.first (total_of change.now.new) plan.made.items) }
    ensures root_size { IfOk result (λ plan. length plan.root ≡ size_of hasher.old.salted.algorithm) }
    ensures hashed { IfOk result (λ plan. (image : List (List ℕ)) → length image ≡ pending.now.committed
        → plan.hashed ≡ hashes (digests_per_block change.now.new) pending.now (edits_of image pending.now)) }
    ensures counted { IfOk result (λ plan. hasher.new.hashed ≡ hasher.old.hashed + plan.hashed) }
    ensures salted { hasher.new.salted ≡ hasher.old.salted }
    ensures fails { PlansOrFails result (H.failures hash_store.old) (H.failures hash_store.new) }
    ensures reads { (image : List (List ℕ)) → length image ≡ pending.now.committed → change.now.new.blocks ≡ change.now.old.blocks
        → H.reads hash_store.new ≤ H.reads hash_store.old + touched_count (digests_per_block change.now.new) (edits_of image pending.now) }
    ensures gives { (image : List (List ℕ)) → length image ≡ pending.now.committed
        → GivesAt (IsTouchedPlace change.now (edits_of image pending.now)) (H.given hash_store.old) (H.given hash_store.new) }
    ensures read_only { IsOnlyRead H.BlockStore hash_store.old hash_store.new }
{
    pending.facts();
    let algorithm = hasher.algorithm();
    let (named, others) = pending.most_leaves();
    let rooms = rooms_for(alloc, &change.new, named, others)?;
    let mut made = Vec::with_capacity(alloc, most_made(&change.new, named, others))?;
    let Ok(changed) = pending.leaves(hasher, zero) else {
        return Err(EditFault::NoMemory);
    };
    let (mut leaves, leaf_hashes) = changed;
    add_fallen(pending, hash_store, change, algorithm, block, &mut leaves)?;
    let root = make_tree(
        alloc, hash_store, hasher, change, leaves, rooms, block, &mut made,
    )?;
    let hashed = leaf_hashes + made.len() as u64;
    Ok(NewTree { made, root, hashed })
}

/// Plans a commit of the pending edits, of a volume whose tree begins at hash block `first` and has this root. E5 where memory is
/// refused, E6 where the hash store fails. It changes nothing and leaves any bytes in `block`. It reads the old block of each touched
/// place that has one and no data block, and hashes what `IsPlan` says. It takes memory for the plan, and for the numbers and digests
/// of each level.
pub fn plan_commit<H: BlockStore, A: Allocator + Copy>(
    alloc: A,
    hash_store: &mut H,
    hasher: &mut Hasher<A>,
    pending: &Pending<A>,
    superblock: &Superblock<A>,
    first: u64,
    root: Digest,
    block: &mut [u8],
) -> Result<CommitPlan<A>, EditFault>
    requires near { first ≤ 2 ^ 40 }
    requires committed { pending.now.committed ≡ superblock.now.data_blocks }
    requires data_size { superblock.now.params.data_block_size ≡ pending.now.size }
    requires hash_size { H.size hash_store.old ≡ superblock.now.params.hash_block_size }
    requires sized { length block.old ≡ H.size hash_store.old }
    requires salted { hasher.old.salted ≡ salted superblock.now.params }
    requires root_size { length root ≡ size_of superblock.now.params.algorithm }
    requires within { first + total_of (volume_shape superblock.now.params superblock.now.data_blocks) ≤ length (H.content hash_store.old) }
    ensures plan { IfOk result (λ plan. IsPlan superblock.now pending.now first root plan) }
    ensures right { IfOk result (λ plan. (content : List (List ℕ)) → Shows H.BlockStore hash_store.new content →
        IsRight superblock.now pending.now first root content plan) }
    ensures counted { IfOk result (λ plan. hasher.new.hashed ≡ hasher.old.hashed + plan.hashed) }
    ensures salted { hasher.new.salted ≡ hasher.old.salted }
    ensures fails { PlansOrFails result (H.failures hash_store.old) (H.failures hash_store.new) }
    ensures reads { ReadsTouched superblock.now pending.now (H.reads hash_store.old) (H.reads hash_store.new) }
    ensures gives { GivesTouched superblock.now pending.now first root (H.given hash_store.old) (H.given hash_store.new) }
    ensures read_only { IsOnlyRead H.BlockStore hash_store.old hash_store.new }
{
    let blocks = pending.blocks();
    let change = Change {
        first,
        old: geometry_over(superblock, superblock.data_blocks()),
        new: geometry_over(superblock, blocks),
        root,
    };
    let zero = Vec::from_elem(alloc, 0u8, superblock.data_block_size())?;
    let next = superblock_over(alloc, superblock, blocks)?;
    let first_block = first_block_of(alloc, &next)?;
    let tree = plan_tree(alloc, hash_store, hasher, pending, &change, &zero, block)?;
    Ok(CommitPlan {
        change,
        made: tree.made,
        superblock: next,
        first_block,
        root: tree.root,
        hashed: tree.hashed,
        zero,
    })
}
