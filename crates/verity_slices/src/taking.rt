//! Digests that come to a tree several at a time.
ghost use Rattle.std.specs.Prelude.{◌≡◌, ℕ, ◌+◌, ◌^◌, ◌<◌, ◌≤◌, List, [], length, slice_index_or, true, OnOk, OnErr};
ghost use Rattle.verity_digest.specs.Hash.{hashing};
ghost use Rattle.verity_digest.specs.Tree.{tree as tree_of};
ghost use Rattle.verity_geometry.specs.Geometry.{digests_per_block, total_of};
ghost use Rattle.verity_build.specs.Progress.{Growing, Grown, IsRight};
ghost use Rattle.verity_build.specs.Device.{AreStored};
ghost use Rattle.verity_tree.specs.Opens.{opens};
ghost use Rattle.verity_slices.specs.Leaves.{WritesPart};
ghost use Rattle.verity_slices.specs.Taking.{AreDigests};

use crate::closing::write_done;
use std::alloc::Allocator;
use verity_digest::Digest;
use verity_store::{BlockStore, StoreFault};
use verity_tree::OpenTree;

/// Takes the digests of the blocks from `first` on, in their order, and writes each hash block that they fill.
pub(crate) fn take_all<A: Allocator, H: BlockStore>(
    tree: &mut OpenTree<A>,
    hash_store: &mut H,
    start: u64,
    first: u64,
    digests: &[Digest],
) -> Result<(), StoreFault>
    requires growing { Growing (digests_per_block tree.old.geometry) first (opens tree.old) tree.old.root }
    requires some { 0 < length digests.now }
    requires within { first + length digests.now ≤ tree.old.geometry.blocks }
    requires sized { (j : ℕ) → j < length digests.now → length (slice_index_or digests.now j []) ≡ tree.old.geometry.digest_size }
    requires near { start ≤ 2 ^ 40 }
    requires room { start + total_of tree.old.geometry ≤ length (H.content hash_store.old) }
    requires size { H.size hash_store.old ≡ tree.old.geometry.hash_size }
    ensures growing { OnOk result (first + length digests.now < tree.old.geometry.blocks
        → Growing (digests_per_block tree.old.geometry) (first + length digests.now) (opens tree.new) tree.new.root) }
    ensures grown { OnOk result (first + length digests.now ≡ tree.old.geometry.blocks
        → Grown (digests_per_block tree.old.geometry) (first + length digests.now) (opens tree.new) tree.new.root) }
    ensures right { OnOk result (let h = hashing tree.old.hasher.salted tree.old.geometry.hash_size in
        (image : List (List ℕ)) → length image ≡ tree.old.geometry.blocks → AreDigests h image first digests.now
        → IsRight h image (opens tree.old) tree.old.root → IsRight h image (opens tree.new) tree.new.root) }
    ensures stored { OnOk result (H.tells hash_store.old ≡ true → let h = hashing tree.old.hasher.salted tree.old.geometry.hash_size in
        (image : List (List ℕ)) → length image ≡ tree.old.geometry.blocks → AreDigests h image first digests.now
        → IsRight h image (opens tree.old) tree.old.root
        → AreStored tree.old.geometry start (tree_of h image) (opens tree.old) (H.content hash_store.old)
        → AreStored tree.old.geometry start (tree_of h image) (opens tree.new) (H.content hash_store.new)) }
    ensures salted { tree.new.hasher.salted ≡ tree.old.hasher.salted }
    ensures geometry { tree.new.geometry ≡ tree.old.geometry }
    ensures writes { WritesPart H.BlockStore start (start + total_of tree.old.geometry) hash_store.old hash_store.new }
    ensures failed { OnErr result (H.failures hash_store.old < H.failures hash_store.new) }
    ensures unfailed { OnOk result (H.failures hash_store.new ≡ H.failures hash_store.old) }
{
    for j in 0..digests.len() {
        let _ = tree.geometry.blocks();
        tree.take(digests[j]);
        write_done(tree, hash_store, start, first + j as u64 + 1)?;
    }
    Ok(())
}
