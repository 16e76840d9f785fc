//! Compares a hash device with the tree of a data store.
ghost use Rattle.std.specs.Prelude.{◌≡◌, ◌≢◌, ◌+◌, ◌^◌, ◌<◌, ◌≤◌, ◌↔◌, true, [], length, slice_index_or, IsTrue, OnOk, OnErr, IfOk};
ghost use Rattle.std.specs.Prelude.{IfErr, IsErrOf, None};
ghost use Rattle.verity_digest.specs.Hash.{hashing};
ghost use Rattle.verity_digest.specs.Tree.{tree as tree_of};
ghost use Rattle.verity_geometry.specs.Geometry.{digests_per_block, total_of};
ghost use Rattle.verity_store.specs.Stores.{IsOnlyRead};
ghost use Rattle.verity_superblock.specs.Image.{CanBegin, start_behind};
ghost use Rattle.verity_profile.specs.Profile.{IsBlockCount};
ghost use Rattle.verity_build.specs.Parameters.{salted_by, shape_over};
ghost use Rattle.verity_build.specs.Faults.{CanBuild, Explains};
ghost use Rattle.verity_tree.specs.Climb.{AreEmpty};
ghost use Rattle.verity_build.specs.Progress.{closed, Growing, Grown, Settling, IsRight};
ghost use Rattle.verity_build.specs.Device.{StaysRight};
ghost use Rattle.verity_build.specs.Differences as spec;
ghost use Rattle.verity_tree.specs.Opens.{opens};

use crate::prepare::prepare_compare;
use crate::{BuildFault, BuildParameters, Compared};
use std::alloc::Allocator;
use verity_geometry::GeometryFault;
use verity_store::{BlockStore, StoreFault, Which};
use verity_tree::{Leaves, OpenTree};

/// Where a hash block stands in a tree.
#[derive(Clone, Copy, Debug)]
pub(crate) struct Place {
    pub(crate) level: usize,
    pub(crate) index: u64,
}

/// Of what was found and a new difference, the first in the order of the device: blocks of one level
/// come by rising index, and a higher level stands before a lower one.
fn earlier(found: Option<Place>, new: Place) -> Option<Place>
    ensures { result ≡ spec.earlier found new }
{
    match found {
        Some(place) if place.level >= new.level => Some(place),
        _ => Some(new),
    }
}

/// Whether a store holds this block at a place. A place past its end holds none.
fn holds<H: BlockStore>(
    hash_store: &mut H,
    place: u64,
    block: &[u8],
    hash_block: &mut [u8],
) -> Result<bool, StoreFault>
    requires some { 0 < length block.now }
    requires sized { length block.now ≡ H.size hash_store.old }
    requires room { length hash_block.old ≡ H.size hash_store.old }
    ensures same { IfOk result (λ same. H.tells hash_store.old ≡ true → IsTrue same
        ↔ (slice_index_or (H.content hash_store.old) place [] ≡ block.now)) }
    ensures read { IsOnlyRead H.BlockStore hash_store.old hash_store.new }
    ensures failed { OnErr result (H.failures hash_store.old < H.failures hash_store.new) }
    ensures unfailed { OnOk result (H.failures hash_store.new ≡ H.failures hash_store.old) }
    ensures reads { H.reads hash_store.new ≤ H.reads hash_store.old + 1 }
{
    if place >= hash_store.len() {
        return Ok(false);
    }
    hash_store.read(place, hash_block)?;
    Ok(&*hash_block == block)
}

/// Compares each hash block that no digest will come to any more, after `blocks` data blocks have come:
/// level by level those that are full, and at the end all that hold a digest. Answers the first that
/// differs, in the order of the device, of these and of what was found before.
fn compare_done<A: Allocator, H: BlockStore>(
    tree: &mut OpenTree<A>,
    hash_store: &mut H,
    start: u64,
    blocks: u64,
    hash_block: &mut [u8],
    found_before: Option<Place>,
) -> Result<Option<Place>, StoreFault>
    requires come { Settling (digests_per_block tree.old.geometry) blocks tree.old.geometry.blocks 0 (opens tree.old) tree.old.root }
    requires few { blocks ≤ tree.old.geometry.blocks }
    requires near { start ≤ 2 ^ 40 }
    requires size { H.size hash_store.old ≡ tree.old.geometry.hash_size }
    requires room { length hash_block.old ≡ tree.old.geometry.hash_size }
    ensures growing { OnOk result (blocks < tree.old.geometry.blocks
        → Growing (digests_per_block tree.old.geometry) blocks (opens tree.new) tree.new.root) }
    ensures grown { OnOk result (blocks ≡ tree.old.geometry.blocks
        → Grown (digests_per_block tree.old.geometry) blocks (opens tree.new) tree.new.root) }
    ensures right { OnOk result (let h = hashing tree.old.hasher.salted tree.old.geometry.hash_size in
        StaysRight h tree.old.geometry.blocks (opens tree.old) tree.old.root (opens tree.new) tree.new.root) }
    ensures compared { IfOk result (λ found. H.tells hash_store.old ≡ true
        → let h = hashing tree.old.hasher.salted tree.old.geometry.hash_size in
        spec.StaysCompared h tree.old.geometry start (H.content hash_store.old) (opens tree.old) tree.old.root found_before
        (opens tree.new) found) }
    ensures salted { tree.new.hasher.salted ≡ tree.old.hasher.salted }
    ensures geometry { tree.new.geometry ≡ tree.old.geometry }
    ensures read { IsOnlyRead H.BlockStore hash_store.old hash_store.new }
    ensures failed { OnErr result (H.failures hash_store.old < H.failures hash_store.new) }
    ensures unfailed { OnOk result (H.failures hash_store.new ≡ H.failures hash_store.old) }
    ensures reads { OnOk result (H.reads hash_store.new + closed (opens tree.old) ≤ H.reads hash_store.old + closed
        (opens tree.new)) }
    ensures reads_most { H.reads hash_store.new + closed (opens tree.old) ≤ H.reads hash_store.old + total_of tree.old.geometry }
{
    let mut found = found_before;
    let last = blocks == tree.geometry.blocks();
    for level in 0..tree.levels() {
        if !last && !tree.is_full(level) {
            return Ok(found);
        }
        tree.settle(level);
        let index = tree.index(level);
        let place = start + tree.geometry.place(level, index);
        if !holds(hash_store, place, tree.block(level), hash_block)? {
            found = earlier(found, Place { level, index });
        }
        tree.close(level);
    }
    Ok(found)
}

/// Reads the data blocks in their order, several at a time, and compares each hash block as soon as the
/// digests that it holds are made. Answers the first that differs, in the order of the device.
fn compare_tree<A: Allocator, D: BlockStore, H: BlockStore>(
    tree: &mut OpenTree<A>,
    data_store: &mut D,
    hash_store: &mut H,
    start: u64,
    buffer: &mut [u8],
    hash_block: &mut [u8],
) -> Result<Option<Place>, Which>
    requires empty { AreEmpty (opens tree.old) }
    requires rootless { tree.old.root ≡ None }
    requires blocks { length (D.content data_store.old) ≡ tree.old.geometry.blocks }
    requires data_size { D.size data_store.old ≡ tree.old.geometry.data_size }
    requires data_buffer { tree.old.geometry.data_size ≤ length buffer.old }
    requires hash_size { H.size hash_store.old ≡ tree.old.geometry.hash_size }
    requires room { length hash_block.old ≡ tree.old.geometry.hash_size }
    requires near { start ≤ 2 ^ 40 }
    ensures grown { OnOk result (Grown (digests_per_block tree.old.geometry) tree.old.geometry.blocks (opens tree.new) tree.new.root) }
    ensures right { OnOk result (D.tells data_store.old ≡ true → let h = hashing tree.old.hasher.salted tree.old.geometry.hash_size in
        IsRight h (D.content data_store.old) (opens tree.new) tree.new.root) }
    ensures compared { IfOk result (λ found. D.tells data_store.old ≡ true → H.tells hash_store.old ≡ true
        → let h = hashing tree.old.hasher.salted tree.old.geometry.hash_size in
        spec.AreCompared tree.old.geometry start (tree_of h (D.content data_store.old)) (opens tree.new)
        (H.content hash_store.old) found) }
    ensures geometry { tree.new.geometry ≡ tree.old.geometry }
    ensures data_store { IsOnlyRead D.BlockStore data_store.old data_store.new }
    ensures data_reads { OnOk result (D.reads data_store.new ≡ D.reads data_store.old + tree.old.geometry.blocks) }
    ensures data_reads_most { D.reads data_store.new ≤ D.reads data_store.old + tree.old.geometry.blocks }
    ensures hash_store { IsOnlyRead H.BlockStore hash_store.old hash_store.new }
    ensures data_failed { result ≡ Err Which.Data → D.failures data_store.old < D.failures data_store.new }
    ensures hash_failed { result ≡ Err Which.Hash → H.failures hash_store.old < H.failures hash_store.new }
    ensures data_unfailed { OnOk result (D.failures data_store.new ≡ D.failures data_store.old) }
    ensures hash_unfailed { OnOk result (H.failures hash_store.new ≡ H.failures hash_store.old) }
    ensures hash_reads { H.reads hash_store.new ≤ H.reads hash_store.old + total_of tree.old.geometry }
{
    let mut leaves = Leaves::new();
    let mut found = None;
    for n in 0..tree.geometry.blocks() {
        let digest = leaves.next(tree, data_store, n, buffer)?;
        tree.take(digest);
        let Ok(first) = compare_done(tree, hash_store, start, n + 1, hash_block, found) else {
            return Err(Which::Hash);
        };
        found = first;
    }
    Ok(found)
}

/// Compares the tree of a data store with a hash store from `start` on: its root hash, or the first block that differs.
fn compare_device<A: Allocator, D: BlockStore, H: BlockStore>(
    tree: &mut OpenTree<A>,
    data_store: &mut D,
    hash_store: &mut H,
    start: u64,
    buffer: &mut [u8],
    hash_block: &mut [u8],
) -> Result<Compared, Which>
    requires empty { AreEmpty (opens tree.old) }
    requires rootless { tree.old.root ≡ None }
    requires blocks { length (D.content data_store.old) ≡ tree.old.geometry.blocks }
    requires data_size { D.size data_store.old ≡ tree.old.geometry.data_size }
    requires data_buffer { tree.old.geometry.data_size ≤ length buffer.old }
    requires hash_size { H.size hash_store.old ≡ tree.old.geometry.hash_size }
    requires room { length hash_block.old ≡ tree.old.geometry.hash_size }
    requires near { start ≤ 2 ^ 40 }
    ensures compared { IfOk result (λ found. D.tells data_store.old ≡ true → H.tells hash_store.old ≡ true
        → spec.IsCompared tree.old.geometry (hashing tree.old.hasher.salted tree.old.geometry.hash_size) (D.content data_store.old) start
        (H.content hash_store.old) found) }
    ensures data_store { IsOnlyRead D.BlockStore data_store.old data_store.new }
    ensures data_reads { OnOk result (D.reads data_store.new ≡ D.reads data_store.old + tree.old.geometry.blocks) }
    ensures data_reads_most { D.reads data_store.new ≤ D.reads data_store.old + tree.old.geometry.blocks }
    ensures hash_store { IsOnlyRead H.BlockStore hash_store.old hash_store.new }
    ensures data_failed { result ≡ Err Which.Data → D.failures data_store.old < D.failures data_store.new }
    ensures hash_failed { result ≡ Err Which.Hash → H.failures hash_store.old < H.failures hash_store.new }
    ensures data_unfailed { OnOk result (D.failures data_store.new ≡ D.failures data_store.old) }
    ensures hash_unfailed { OnOk result (H.failures hash_store.new ≡ H.failures hash_store.old) }
    ensures hash_reads { H.reads hash_store.new ≤ H.reads hash_store.old + total_of tree.old.geometry }
{
    let found = compare_tree(tree, data_store, hash_store, start, buffer, hash_block)?;
    match found {
        Some(place) => Ok(Compared::Differs {
            level: place.level,
            index: place.index,
        }),
        None => match tree.root {
            Some(root) => Ok(Compared::Same(root)),
            None => unreachable!(),
        },
    }
}

/// Compares the tree of a data store with a hash store from hash block 1 on: as `compare_at` with the
/// offset 0, which U4 never refuses.
pub fn compare<A: Allocator + Copy, P: Allocator, D: BlockStore, H: BlockStore>(
    alloc: A,
    data_store: &mut D,
    hash_store: &mut H,
    params: &BuildParameters<P>,
) -> Result<Compared, BuildFault>
    ensures compared { IfOk result (λ found. D.tells data_store.old ≡ true → H.tells hash_store.old ≡ true
        → spec.IsCompared (shape_over params.now (D.size data_store.old) (H.size hash_store.old) (length (D.content data_store.old)))
        (hashing (salted_by params.now) (H.size hash_store.old)) (D.content data_store.old) 1 (H.content hash_store.old) found) }
    ensures ok { OnOk result (IsBlockCount (length (D.content data_store.old))) }
    ensures bad_count { IsErrOf result (BuildFault.Geometry GeometryFault.BadCount) ↔ ¬ IsBlockCount (length (D.content data_store.old)) }
    ensures fault { IfErr result (Explains (length (D.content data_store.old)) 0 (H.size hash_store.old)
        (D.failures data_store.old < D.failures data_store.new) (H.failures hash_store.old < H.failures hash_store.new)) }
    ensures no_offset { IfErr result (λ fault. fault ≢ BuildFault.Offset) }
    ensures data_store { IsOnlyRead D.BlockStore data_store.old data_store.new }
    ensures data_reads { OnOk result (D.reads data_store.new ≡ D.reads data_store.old + length (D.content data_store.old)) }
    ensures data_reads_most { D.reads data_store.new ≤ D.reads data_store.old + length (D.content data_store.old) }
    ensures hash_store { IsOnlyRead H.BlockStore hash_store.old hash_store.new }
    ensures hash_reads_most { H.reads hash_store.new ≤ H.reads hash_store.old
        + total_of (shape_over params.now (D.size data_store.old) (H.size hash_store.old) (length (D.content data_store.old))) }
    ensures data_unfailed { OnOk result (D.failures data_store.new ≡ D.failures data_store.old) }
    ensures hash_unfailed { OnOk result (H.failures hash_store.new ≡ H.failures hash_store.old) }
    ensures refused_unfailed { IfErr result (λ fault. fault ≢ BuildFault.Store Which.Data → fault ≢ BuildFault.Store Which.Hash
        → (D.failures data_store.new ≡ D.failures data_store.old) × (H.failures hash_store.new ≡ H.failures hash_store.old)) }
{
    compare_at(alloc, data_store, hash_store, params, 0)
}

/// Compares the tree of a data store with a hash store, from the hash block behind a superblock at a byte
/// offset on.
///
/// `Same` with the root hash where the hash store holds there what `build_at` would write; else `Differs`
/// with the first block that differs in the order of the device, the top level first. A place past the
/// end of the hash store differs. The superblock's block isn't looked at, nor what is in front of it or
/// behind the tree. Both stores are only read, the data store's blocks once, from block 0 on.
///
/// The first that applies: U1 where the data store has no block or more than 2^40; U4 where the offset
/// isn't a multiple of the hash block size, or is of 2^40 of them or more; U3 where memory was refused;
/// U2 with the store of which a read failed.
///
/// It reads and hashes each data block once, and reads each block of the tree at most once, and hashes
/// it from its digests once. It takes memory for the salt, the hash blocks of each level and the data blocks that are
/// read at a time, as many as `build_at` does, and for a hash block, all before the first read.
pub fn compare_at<A: Allocator + Copy, P: Allocator, D: BlockStore, H: BlockStore>(
    alloc: A,
    data_store: &mut D,
    hash_store: &mut H,
    params: &BuildParameters<P>,
    offset: u64,
) -> Result<Compared, BuildFault>
    ensures compared { IfOk result (λ found. D.tells data_store.old ≡ true → H.tells hash_store.old ≡ true
        → spec.IsCompared (shape_over params.now (D.size data_store.old) (H.size hash_store.old) (length (D.content data_store.old)))
        (hashing (salted_by params.now) (H.size hash_store.old)) (D.content data_store.old) (start_behind offset (H.size hash_store.old))
        (H.content hash_store.old) found) }
    ensures ok { OnOk result (CanBuild (length (D.content data_store.old)) offset (H.size hash_store.old)) }
    ensures bad_count { IsErrOf result (BuildFault.Geometry GeometryFault.BadCount) ↔ ¬ IsBlockCount (length (D.content data_store.old)) }
    ensures bad_offset { IsErrOf result BuildFault.Offset ↔ (IsBlockCount (length (D.content data_store.old))
        × ¬ CanBegin offset (H.size hash_store.old)) }
    ensures fault { IfErr result (Explains (length (D.content data_store.old)) offset (H.size hash_store.old)
        (D.failures data_store.old < D.failures data_store.new) (H.failures hash_store.old < H.failures hash_store.new)) }
    ensures data_store { IsOnlyRead D.BlockStore data_store.old data_store.new }
    ensures data_reads { OnOk result (D.reads data_store.new ≡ D.reads data_store.old + length (D.content data_store.old)) }
    ensures data_reads_most { D.reads data_store.new ≤ D.reads data_store.old + length (D.content data_store.old) }
    ensures hash_store { IsOnlyRead H.BlockStore hash_store.old hash_store.new }
    ensures hash_reads_most { H.reads hash_store.new ≤ H.reads hash_store.old
        + total_of (shape_over params.now (D.size data_store.old) (H.size hash_store.old) (length (D.content data_store.old))) }
    ensures data_unfailed { OnOk result (D.failures data_store.new ≡ D.failures data_store.old) }
    ensures hash_unfailed { OnOk result (H.failures hash_store.new ≡ H.failures hash_store.old) }
    ensures refused_unfailed { IfErr result (λ fault. fault ≢ BuildFault.Store Which.Data → fault ≢ BuildFault.Store Which.Hash
        → (D.failures data_store.new ≡ D.failures data_store.old) × (H.failures hash_store.new ≡ H.failures hash_store.old)) }
{
    let mut made = prepare_compare(alloc, data_store, hash_store, params, offset)?;
    match compare_device(
        &mut made.tree,
        data_store,
        hash_store,
        made.start,
        &mut made.buffer,
        &mut made.hash_block,
    ) {
        Ok(found) => Ok(found),
        Err(which) => Err(BuildFault::Store(which)),
    }
}
