//! Writes the hash blocks of a tree as they fill.
ghost use Rattle.std.specs.Prelude.{◌≡◌, ℕ, ◌+◌, ◌^◌, ◌<◌, ◌≤◌, length, true, OnOk, OnErr};
ghost use Rattle.verity_digest.specs.Hash.{hashing};
ghost use Rattle.verity_geometry.specs.Geometry.{digests_per_block, total_of};
ghost use Rattle.verity_build.specs.Progress.{Growing, Grown, Settling};
ghost use Rattle.verity_build.specs.Device.{StaysRight, StaysStored};
ghost use Rattle.verity_tree.specs.Opens.{opens};
ghost use Rattle.verity_slices.specs.Leaves.{WritesPart};

use std::alloc::Allocator;
use verity_store::{BlockStore, StoreFault};
use verity_tree::OpenTree;

/// Writes each hash block that no digest will come to any more, after `blocks` data blocks have come:
/// level by level those that are full, and at the end all that hold a digest. It changes no block behind the tree.
pub(crate) fn write_done<A: Allocator, H: BlockStore>(
    tree: &mut OpenTree<A>,
    hash_store: &mut H,
    start: u64,
    blocks: u64,
) -> Result<(), StoreFault>
    requires come { Settling (digests_per_block tree.old.geometry) blocks tree.old.geometry.blocks 0 (opens tree.old) tree.old.root }
    requires few { blocks ≤ tree.old.geometry.blocks }
    requires near { start ≤ 2 ^ 40 }
    requires room { start + total_of tree.old.geometry ≤ length (H.content hash_store.old) }
    requires size { H.size hash_store.old ≡ tree.old.geometry.hash_size }
    ensures growing { OnOk result (blocks < tree.old.geometry.blocks
        → Growing (digests_per_block tree.old.geometry) blocks (opens tree.new) tree.new.root) }
    ensures grown { OnOk result (blocks ≡ tree.old.geometry.blocks
        → Grown (digests_per_block tree.old.geometry) blocks (opens tree.new) tree.new.root) }
    ensures right { OnOk result (let h = hashing tree.old.hasher.salted tree.old.geometry.hash_size in
        StaysRight h tree.old.geometry.blocks (opens tree.old) tree.old.root (opens tree.new) tree.new.root) }
    ensures stored { OnOk result (H.tells hash_store.old ≡ true → let h = hashing tree.old.hasher.salted tree.old.geometry.hash_size in
        StaysStored h tree.old.geometry start (opens tree.old) tree.old.root (H.content hash_store.old) (opens tree.new)
        (H.content hash_store.new)) }
    ensures salted { tree.new.hasher.salted ≡ tree.old.hasher.salted }
    ensures geometry { tree.new.geometry ≡ tree.old.geometry }
    ensures writes { WritesPart H.BlockStore start (start + total_of tree.old.geometry) hash_store.old hash_store.new }
    ensures failed { OnErr result (H.failures hash_store.old < H.failures hash_store.new) }
    ensures unfailed { OnOk result (H.failures hash_store.new ≡ H.failures hash_store.old) }
{
    let last = blocks == tree.geometry.blocks();
    for level in 0..tree.levels() {
        if !last && !tree.is_full(level) {
            return Ok(());
        }
        tree.settle(level);
        let index = tree.index(level);
        let place = tree.geometry.place(level, index);
        hash_store.write(start + place, tree.block(level))?;
        tree.close(level);
    }
    Ok(())
}
