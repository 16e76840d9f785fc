//! Builds a hash device.
ghost use Rattle.std.specs.Prelude.{◌≡◌, ◌≢◌, ℕ, suc, ◌+◌, ◌-◌, ◌/◌, ◌^◌, ◌<◌, ◌≤◌, ◌↔◌, ◌++◌, ◌∷◌, List, [], true, length};
ghost use Rattle.std.specs.Prelude.{slice_index_or, slice_set, OnOk, OnErr, IfOk, IfErr, IsErrOf, None};
ghost use Rattle.std.specs.List.{concat};
ghost use Rattle.verity_digest.specs.Hash.{hashing};
ghost use Rattle.verity_digest.specs.Tree.{root, tree as tree_of};
ghost use Rattle.verity_geometry.specs.Geometry.{digests_per_block, total_of};
ghost use Rattle.verity_store.specs.Stores.{IsLater, IsOnlyRead};
ghost use Rattle.verity_store.specs.Blocks.{resized, ChangesAt};
ghost use Rattle.verity_profile.specs.Profile.{IsBlockCount};
ghost use Rattle.verity_superblock.specs.Image.{CanBegin, hash_image, hash_blocks};
ghost use Rattle.verity_superblock.specs.Superblock.{zero_filled};
ghost use Rattle.verity_build.specs.Parameters.{salted_by, volume, front};
ghost use Rattle.verity_build.specs.Faults.{CanBuild, Explains};
ghost use Rattle.verity_build.specs.Given.{IsGivenImage, IsRootOfGiven};
ghost use Rattle.verity_tree.specs.Climb.{AreEmpty};
ghost use Rattle.verity_build.specs.Progress.{Growing, Grown, Settling, IsRight};
ghost use Rattle.verity_build.specs.Device.{AreStored, StaysRight, StaysStored, WritesFrom};
ghost use Rattle.verity_tree.specs.Opens.{opens};

use crate::prepare::prepare_build;
use crate::{BuildFault, BuildParameters};
use std::alloc::Allocator;
use verity_digest::Digest;
use verity_geometry::GeometryFault;
use verity_store::{BlockStore, StoreFault, Which};
use verity_tree::{Leaves, OpenTree};

/// Writes each hash block that no digest will come to any more, after `blocks` data blocks have come:
/// level by level those that are full, and at the end all that hold a digest.
fn write_done<A: Allocator, H: BlockStore>(
    tree: &mut OpenTree<A>,
    hash_store: &mut H,
    start: u64,
    blocks: u64,
) -> Result<(), StoreFault>
    requires come { Settling (digests_per_block tree.old.geometry) blocks tree.old.geometry.blocks 0 (opens tree.old) tree.old.root }
    requires few { blocks ≤ tree.old.geometry.blocks }
    requires near { start ≤ 2 ^ 40 }
    requires room { start + total_of tree.old.geometry ≤ length (H.content hash_store.old) }
    requires size { H.size hash_store.old ≡ tree.old.geometry.hash_size }
    ensures growing { OnOk result (blocks < tree.old.geometry.blocks
        → Growing (digests_per_block tree.old.geometry) blocks (opens tree.new) tree.new.root) }
    ensures grown { OnOk result (blocks ≡ tree.old.geometry.blocks
        → Grown (digests_per_block tree.old.geometry) blocks (opens tree.new) tree.new.root) }
    ensures right { OnOk result (let h = hashing tree.old.hasher.salted tree.old.geometry.hash_size in
        StaysRight h tree.old.geometry.blocks (opens tree.old) tree.old.root (opens tree.new) tree.new.root) }
    ensures stored { OnOk result (H.tells hash_store.old ≡ true → let h = hashing tree.old.hasher.salted tree.old.geometry.hash_size in
        StaysStored h tree.old.geometry start (opens tree.old) tree.old.root (H.content hash_store.old) (opens tree.new)
        (H.content hash_store.new)) }
    ensures salted { tree.new.hasher.salted ≡ tree.old.hasher.salted }
    ensures geometry { tree.new.geometry ≡ tree.old.geometry }
    ensures from { WritesFrom H.BlockStore start hash_store.old hash_store.new }
    ensures failed { OnErr result (H.failures hash_store.old < H.failures hash_store.new) }
    ensures unfailed { OnOk result (H.failures hash_store.new ≡ H.failures hash_store.old) }
{
    let last = blocks == tree.geometry.blocks();
    for level in 0..tree.levels() {
        if !last && !tree.is_full(level) {
            return Ok(());
        }
        tree.settle(level);
        let index = tree.index(level);
        let place = tree.geometry.place(level, index);
        hash_store.write(start + place, tree.block(level))?;
        tree.close(level);
    }
    Ok(())
}

/// Reads the data blocks in their order, several at a time, and writes each hash block as soon as the digests that it holds are made.
fn write_tree<A: Allocator, D: BlockStore, H: BlockStore>(
    tree: &mut OpenTree<A>,
    data_store: &mut D,
    hash_store: &mut H,
    start: u64,
    buffer: &mut [u8],
) -> Result<(), Which>
    requires empty { AreEmpty (opens tree.old) }
    requires rootless { tree.old.root ≡ None }
    requires blocks { length (D.content data_store.old) ≡ tree.old.geometry.blocks }
    requires data_size { D.size data_store.old ≡ tree.old.geometry.data_size }
    requires data_buffer { tree.old.geometry.data_size ≤ length buffer.old }
    requires hash_size { H.size hash_store.old ≡ tree.old.geometry.hash_size }
    requires near { start ≤ 2 ^ 40 }
    requires room { start + total_of tree.old.geometry ≤ length (H.content hash_store.old) }
    ensures grown { OnOk result (Grown (digests_per_block tree.old.geometry) tree.old.geometry.blocks (opens tree.new) tree.new.root) }
    ensures right { OnOk result (D.tells data_store.old ≡ true → let h = hashing tree.old.hasher.salted tree.old.geometry.hash_size in
        IsRight h (D.content data_store.old) (opens tree.new) tree.new.root) }
    ensures given { OnOk result ((image : List (List ℕ)) × IsGivenImage D.BlockStore data_store.old data_store.new image
        × IsRight (hashing tree.old.hasher.salted tree.old.geometry.hash_size) image (opens tree.new) tree.new.root) }
    ensures stored { OnOk result (D.tells data_store.old ≡ true → H.tells hash_store.old ≡ true
        → let h = hashing tree.old.hasher.salted tree.old.geometry.hash_size in
        AreStored tree.old.geometry start (tree_of h (D.content data_store.old)) (opens tree.new) (H.content hash_store.new)) }
    ensures geometry { tree.new.geometry ≡ tree.old.geometry }
    ensures data_store { IsOnlyRead D.BlockStore data_store.old data_store.new }
    ensures data_reads { OnOk result (D.reads data_store.new ≡ D.reads data_store.old + tree.old.geometry.blocks) }
    ensures data_reads_most { D.reads data_store.new ≤ D.reads data_store.old + tree.old.geometry.blocks }
    ensures hash_store { WritesFrom H.BlockStore start hash_store.old hash_store.new }
    ensures data_failed { result ≡ Err Which.Data → D.failures data_store.old < D.failures data_store.new }
    ensures hash_failed { result ≡ Err Which.Hash → H.failures hash_store.old < H.failures hash_store.new }
    ensures data_unfailed { OnOk result (D.failures data_store.new ≡ D.failures data_store.old) }
    ensures hash_unfailed { OnOk result (H.failures hash_store.new ≡ H.failures hash_store.old) }
{
    let mut leaves = Leaves::new();
    for n in 0..tree.geometry.blocks() {
        let digest = leaves.next(tree, data_store, n, buffer)?;
        tree.take(digest);
        let Ok(()) = write_done(tree, hash_store, start, n + 1) else {
            return Err(Which::Hash);
        };
    }
    Ok(())
}

/// Writes a superblock, and zeros behind it, to a block, and syncs.
fn write_superblock<H: BlockStore>(
    hash_store: &mut H,
    place: u64,
    superblock: &[u8],
    block: &mut [u8],
) -> Result<(), StoreFault>
    requires within { place < length (H.content hash_store.old) }
    requires fits { length superblock.now ≤ length block.old }
    requires sized { length block.old ≡ H.size hash_store.old }
    ensures written { OnOk result (H.tells hash_store.old ≡ true
        → H.content hash_store.new ≡ slice_set (H.content hash_store.old) place (zero_filled (H.size hash_store.old) superblock.now)) }
    ensures others { ChangesAt place (H.content hash_store.old) (H.content hash_store.new) }
    ensures reads { H.reads hash_store.new ≡ H.reads hash_store.old }
    ensures later { IsLater H.BlockStore hash_store.old hash_store.new }
    ensures failed { OnErr result (H.failures hash_store.old < H.failures hash_store.new) }
    ensures synced { OnOk result (H.synced hash_store.new ≡ true) }
    ensures unfailed { OnOk result (H.failures hash_store.new ≡ H.failures hash_store.old) }
{
    let len = superblock.len();
    block[..len].copy_from_slice(superblock);
    block[len..].fill(0);
    hash_store.write(place, block)?;
    hash_store.sync()
}

/// Makes the hash device whose tree begins at `start`: sets its length, writes the tree, then the
/// superblock in front of it, and syncs.
fn write_device<A: Allocator, D: BlockStore, H: BlockStore>(
    tree: &mut OpenTree<A>,
    data_store: &mut D,
    hash_store: &mut H,
    start: u64,
    superblock: &[u8],
    buffer: &mut [u8],
) -> Result<Digest, Which>
    requires empty { AreEmpty (opens tree.old) }
    requires rootless { tree.old.root ≡ None }
    requires blocks { length (D.content data_store.old) ≡ tree.old.geometry.blocks }
    requires data_size { D.size data_store.old ≡ tree.old.geometry.data_size }
    requires hash_size { H.size hash_store.old ≡ tree.old.geometry.hash_size }
    requires behind { 1 ≤ start }
    requires near { start ≤ 2 ^ 40 }
    requires reserved { start + total_of tree.old.geometry ≤ H.room hash_store.old }
    requires superblock { length superblock.now ≤ 512 }
    requires data_buffer { tree.old.geometry.data_size ≤ length buffer.old }
    requires hash_buffer { tree.old.geometry.hash_size ≤ length buffer.old }
    ensures written { OnOk result (D.tells data_store.old ≡ true → H.tells hash_store.old ≡ true
        → let s = tree.old.geometry in H.content hash_store.new ≡ resized s.hash_size (start - 1) (H.content hash_store.old)
        ++ (zero_filled s.hash_size superblock.now ∷ tree_of (hashing tree.old.hasher.salted s.hash_size) (D.content data_store.old))) }
    ensures root { IfOk result (λ digest. D.tells data_store.old ≡ true
        → digest ≡ root (hashing tree.old.hasher.salted tree.old.geometry.hash_size) (D.content data_store.old)) }
    ensures given { IfOk result (IsRootOfGiven D.BlockStore data_store.old data_store.new
        (hashing tree.old.hasher.salted tree.old.geometry.hash_size)) }
    ensures front { (q : ℕ) → suc q < start → q < length (H.content hash_store.old)
        → slice_index_or (H.content hash_store.new) q [] ≡ slice_index_or (H.content hash_store.old) q [] }
    ensures data_store { IsOnlyRead D.BlockStore data_store.old data_store.new }
    ensures data_reads { OnOk result (D.reads data_store.new ≡ D.reads data_store.old + tree.old.geometry.blocks) }
    ensures data_reads_most { D.reads data_store.new ≤ D.reads data_store.old + tree.old.geometry.blocks }
    ensures hash_store { IsLater H.BlockStore hash_store.old hash_store.new }
    ensures hash_reads { H.reads hash_store.new ≡ H.reads hash_store.old }
    ensures data_failed { result ≡ Err Which.Data → D.failures data_store.old < D.failures data_store.new }
    ensures hash_failed { result ≡ Err Which.Hash → H.failures hash_store.old < H.failures hash_store.new }
    ensures data_unfailed { OnOk result (D.failures data_store.new ≡ D.failures data_store.old) }
    ensures hash_synced { OnOk result (H.synced hash_store.new ≡ true) }
    ensures hash_unfailed { OnOk result (H.failures hash_store.new ≡ H.failures hash_store.old) }
{
    let blocks = start + tree.geometry.total();
    let Ok(()) = hash_store.set_len(blocks) else {
        return Err(Which::Hash);
    };
    write_tree(tree, data_store, hash_store, start, buffer)?;
    let hash_size = tree.geometry.hash_size();
    let block = &mut buffer[..hash_size];
    let Ok(()) = write_superblock(hash_store, start - 1, superblock, block) else {
        return Err(Which::Hash);
    };
    match tree.root {
        Some(root) => Ok(root),
        None => unreachable!(),
    }
}

/// Makes the hash device of a data store in a hash store, with the superblock at byte 0: as `build_at`
/// with the offset 0, which U4 never refuses.
pub fn build<A: Allocator + Copy, P: Allocator, D: BlockStore, H: BlockStore>(
    alloc: A,
    data_store: &mut D,
    hash_store: &mut H,
    params: &BuildParameters<P>,
) -> Result<Digest, BuildFault>
    ensures built { OnOk result (D.tells data_store.old ≡ true → H.tells hash_store.old ≡ true
        → H.content hash_store.new ≡ hash_blocks (volume params.now (D.size data_store.old) (H.size hash_store.old))
        (D.content data_store.old) []) }
    ensures bytes { OnOk result (D.tells data_store.old ≡ true → H.tells hash_store.old ≡ true
        → concat (H.content hash_store.new) ≡ hash_image (volume params.now (D.size data_store.old) (H.size hash_store.old))
        (D.content data_store.old) []) }
    ensures root { IfOk result (λ digest. D.tells data_store.old ≡ true
        → digest ≡ root (hashing (salted_by params.now) (H.size hash_store.old)) (D.content data_store.old)) }
    ensures given { IfOk result (IsRootOfGiven D.BlockStore data_store.old data_store.new
        (hashing (salted_by params.now) (H.size hash_store.old))) }
    ensures ok { OnOk result (IsBlockCount (length (D.content data_store.old))) }
    ensures bad_count { IsErrOf result (BuildFault.Geometry GeometryFault.BadCount) ↔ ¬ IsBlockCount (length (D.content data_store.old)) }
    ensures fault { IfErr result (Explains (length (D.content data_store.old)) 0 (H.size hash_store.old)
        (D.failures data_store.old < D.failures data_store.new) (H.failures hash_store.old < H.failures hash_store.new)) }
    ensures no_offset { IfErr result (λ fault. fault ≢ BuildFault.Offset) }
    ensures refused { IfErr result (λ fault. fault ≢ BuildFault.Store Which.Data → fault ≢ BuildFault.Store Which.Hash
        → H.content hash_store.new ≡ H.content hash_store.old) }
    ensures data_store { IsOnlyRead D.BlockStore data_store.old data_store.new }
    ensures data_reads { OnOk result (D.reads data_store.new ≡ D.reads data_store.old + length (D.content data_store.old)) }
    ensures data_reads_most { D.reads data_store.new ≤ D.reads data_store.old + length (D.content data_store.old) }
    ensures hash_store { IsLater H.BlockStore hash_store.old hash_store.new }
    ensures hash_reads { H.reads hash_store.new ≡ H.reads hash_store.old }
    ensures data_unfailed { OnOk result (D.failures data_store.new ≡ D.failures data_store.old) }
    ensures hash_synced { OnOk result (H.synced hash_store.new ≡ true) }
    ensures hash_unfailed { OnOk result (H.failures hash_store.new ≡ H.failures hash_store.old) }
    ensures refused_unfailed { IfErr result (λ fault. fault ≢ BuildFault.Store Which.Data → fault ≢ BuildFault.Store Which.Hash
        → (D.failures data_store.new ≡ D.failures data_store.old) × (H.failures hash_store.new ≡ H.failures hash_store.old)) }
{
    build_at(alloc, data_store, hash_store, params, 0)
}

/// Makes the hash device of a data store in a hash store, with the superblock at a byte offset, and
/// answers the root hash (cryptsetup's on-disk format of verity, and "Verity hash table format" of the
/// Linux dm-verity documentation).
///
/// The hash store then holds the blocks in front that it held before, zero blocks where it was shorter,
/// the superblock with zeros behind it, and the tree; nothing follows, and it was synced last. The data
/// store is only read, each block once, from block 0 on.
///
/// The first that applies: U1 where the data store has no block or more than 2^40; U4 where the offset
/// isn't a multiple of the hash block size, or is of 2^40 of them or more; U3 where memory was refused;
/// U2 with the store of which a call failed. After U1, U3 and U4 both stores hold what they held. After
/// U2 the hash store's content is open, but for the blocks in front, which are as they were.
///
/// It reads and hashes each data block once, and hashes and writes each block of the tree once. It takes
/// memory for the salt, twice, for hash blocks of each level, and for one buffer, all of it before the first
/// write, as is the hash store's room. A level has the block that is being filled, and eight more that wait to be
/// hashed side by side, or as many as 64 KiB hold where these are fewer, at least one. The buffer has the bytes of
/// the data blocks that are read at a time, or of a hash block where that is longer: of as many data blocks as 64 KiB
/// hold, or of eight where these are more, but of no more than a hash block has digests for, or 512 KiB hold, at
/// least one.
pub fn build_at<A: Allocator + Copy, P: Allocator, D: BlockStore, H: BlockStore>(
    alloc: A,
    data_store: &mut D,
    hash_store: &mut H,
    params: &BuildParameters<P>,
    offset: u64,
) -> Result<Digest, BuildFault>
    ensures built { OnOk result (D.tells data_store.old ≡ true → H.tells hash_store.old ≡ true
        → H.content hash_store.new ≡ hash_blocks (volume params.now (D.size data_store.old) (H.size hash_store.old))
        (D.content data_store.old) (front offset (H.size hash_store.old) (H.content hash_store.old))) }
    ensures bytes { OnOk result (D.tells data_store.old ≡ true → H.tells hash_store.old ≡ true
        → concat (H.content hash_store.new) ≡ hash_image (volume params.now (D.size data_store.old) (H.size hash_store.old))
        (D.content data_store.old) (front offset (H.size hash_store.old) (H.content hash_store.old))) }
    ensures root { IfOk result (λ digest. D.tells data_store.old ≡ true
        → digest ≡ root (hashing (salted_by params.now) (H.size hash_store.old)) (D.content data_store.old)) }
    ensures given { IfOk result (IsRootOfGiven D.BlockStore data_store.old data_store.new
        (hashing (salted_by params.now) (H.size hash_store.old))) }
    ensures ok { OnOk result (CanBuild (length (D.content data_store.old)) offset (H.size hash_store.old)) }
    ensures bad_count { IsErrOf result (BuildFault.Geometry GeometryFault.BadCount) ↔ ¬ IsBlockCount (length (D.content data_store.old)) }
    ensures bad_offset { IsErrOf result BuildFault.Offset ↔ (IsBlockCount (length (D.content data_store.old))
        × ¬ CanBegin offset (H.size hash_store.old)) }
    ensures fault { IfErr result (Explains (length (D.content data_store.old)) offset (H.size hash_store.old)
        (D.failures data_store.old < D.failures data_store.new) (H.failures hash_store.old < H.failures hash_store.new)) }
    ensures refused { IfErr result (λ fault. fault ≢ BuildFault.Store Which.Data → fault ≢ BuildFault.Store Which.Hash
        → H.content hash_store.new ≡ H.content hash_store.old) }
    ensures front { (q : ℕ) → q < offset / H.size hash_store.old → q < length (H.content hash_store.old)
        → slice_index_or (H.content hash_store.new) q [] ≡ slice_index_or (H.content hash_store.old) q [] }
    ensures data_store { IsOnlyRead D.BlockStore data_store.old data_store.new }
    ensures data_reads { OnOk result (D.reads data_store.new ≡ D.reads data_store.old + length (D.content data_store.old)) }
    ensures data_reads_most { D.reads data_store.new ≤ D.reads data_store.old + length (D.content data_store.old) }
    ensures hash_store { IsLater H.BlockStore hash_store.old hash_store.new }
    ensures hash_reads { H.reads hash_store.new ≡ H.reads hash_store.old }
    ensures data_unfailed { OnOk result (D.failures data_store.new ≡ D.failures data_store.old) }
    ensures hash_synced { OnOk result (H.synced hash_store.new ≡ true) }
    ensures hash_unfailed { OnOk result (H.failures hash_store.new ≡ H.failures hash_store.old) }
    ensures refused_unfailed { IfErr result (λ fault. fault ≢ BuildFault.Store Which.Data → fault ≢ BuildFault.Store Which.Hash
        → (D.failures data_store.new ≡ D.failures data_store.old) × (H.failures hash_store.new ≡ H.failures hash_store.old)) }
{
    let mut made = prepare_build(alloc, data_store, hash_store, params, offset)?;
    match write_device(
        &mut made.tree,
        data_store,
        hash_store,
        made.start,
        &made.superblock,
        &mut made.buffer,
    ) {
        Ok(root) => Ok(root),
        Err(which) => Err(BuildFault::Store(which)),
    }
}
