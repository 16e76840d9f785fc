//! Makes the blocks of level 0 of one slice.
ghost use Rattle.std.specs.Prelude.{◌≡◌, ◌≢◌, ℕ, ◌+◌, ◌*◌, ◌-◌, ◌^◌, ◌<◌, ◌≤◌, ◌++◌, [], true, min, max, length, take, drop};
ghost use Rattle.std.specs.Prelude.{slice_index_or, OnOk, OnErr, IfOk, IfErr};
ghost use Rattle.verity_build.specs.Faults.{CanBuild, Explains};
ghost use Rattle.verity_build.specs.Parameters.{salted_by, shape_over};
ghost use Rattle.verity_digest.specs.Hash.{hashing};
ghost use Rattle.verity_digest.specs.Tree.{per_block};
ghost use Rattle.verity_digest.specs.Rows.{block_at};
ghost use Rattle.verity_geometry.specs.Geometry.{len_of, levels_of, start_of, total_of, digests_per_block};
ghost use Rattle.verity_slice.specs.Slices.{run_of};
ghost use Rattle.verity_store.specs.Blocks.{resized};
ghost use Rattle.verity_store.specs.Stores.{IsLater, IsOnlyRead};
ghost use Rattle.verity_superblock.specs.Image.{start_behind};
ghost use Rattle.verity_slices.specs.Given.{IsGivenLeaf};
ghost use Rattle.verity_slices.specs.Leaves.{GrowsBeside, HoldsGivenLeaves, HoldsLeaves, KeepsOthers, WritesPart};
ghost use Rattle.verity_slices.specs.Level.{leaves_of};

use crate::prepare::{leaves, prepare_slice};
use std::alloc::Allocator;
use verity_build::{BuildFault, BuildParameters};
use verity_digest::Digest;
use verity_slice::{Run, Slice};
use verity_store::{BlockStore, Which};
use verity_tree::{Leaves, OpenTree};

/// Writes a digest over the bytes of a block from `at` on.
fn put_digest(block: &mut [u8], at: usize, digest: &Digest)
    requires { at + length digest.now ≤ length block.old }
    ensures { block.new ≡ take at block.old ++ (digest.now ++ drop (at + length digest.now) block.old) }
{
    let bytes = digest.bytes();
    let end = at + bytes.len();
    block[at..end].copy_from_slice(bytes);
}

/// Makes a block of level 0: reads the data blocks whose digests it holds, several at a time, and hashes them side by side.
fn make_leaf<A: Allocator, D: BlockStore>(
    tree: &mut OpenTree<A>,
    data_store: &mut D,
    index: u64,
    buffer: &mut [u8],
    block: &mut [u8],
) -> Result<(), Which>
    requires index { index < len_of tree.old.geometry 0 }
    requires blocks { length (D.content data_store.old) ≡ tree.old.geometry.blocks }
    requires size { D.size data_store.old ≡ tree.old.geometry.data_size }
    requires room { tree.old.geometry.data_size ≤ length buffer.old }
    requires block { length block.old ≡ tree.old.geometry.hash_size }
    ensures right { OnOk result (D.tells data_store.old ≡ true
        → block.new ≡ block_at (hashing tree.old.hasher.salted tree.old.geometry.hash_size) (D.content data_store.old) 1 index) }
    ensures given { OnOk result (let h = hashing tree.old.hasher.salted tree.old.geometry.hash_size in
        IsGivenLeaf D.BlockStore data_store.old data_store.new h (index * per_block h)
        (min (per_block h) (tree.old.geometry.blocks - index * per_block h)) block.new) }
    ensures read { IsOnlyRead D.BlockStore data_store.old data_store.new }
    ensures which { IfErr result (λ which. which ≡ Which.Data) }
    ensures failed { OnErr result (D.failures data_store.old < D.failures data_store.new) }
    ensures unfailed { OnOk result (D.failures data_store.new ≡ D.failures data_store.old) }
    ensures salted { tree.new.hasher.salted ≡ tree.old.hasher.salted }
    ensures geometry { tree.new.geometry ≡ tree.old.geometry }
{
    let per_block = tree.geometry.per_block() as u64;
    let digest_size = tree.geometry.digest_size();
    let first = index * per_block;
    let end = (first + per_block).min(tree.geometry.blocks());
    let mut leaves = Leaves::new();
    block.fill(0);
    for n in first..end {
        let digest = leaves.next(tree, data_store, n, buffer)?;
        put_digest(block, (n - first) as usize * digest_size, &digest);
    }
    Ok(())
}

/// Writes the blocks of a run of level 0, each as soon as it is made.
fn write_run<A: Allocator, D: BlockStore, H: BlockStore>(
    tree: &mut OpenTree<A>,
    data_store: &mut D,
    hash_store: &mut H,
    start: u64,
    run: Run,
    buffer: &mut [u8],
    block: &mut [u8],
) -> Result<(), Which>
    requires order { run.first ≤ run.end }
    requires within { run.end ≤ leaves_of tree.old.geometry }
    requires blocks { length (D.content data_store.old) ≡ tree.old.geometry.blocks }
    requires data_size { D.size data_store.old ≡ tree.old.geometry.data_size }
    requires data_buffer { tree.old.geometry.data_size ≤ length buffer.old }
    requires hash_size { H.size hash_store.old ≡ tree.old.geometry.hash_size }
    requires block { length block.old ≡ tree.old.geometry.hash_size }
    requires near { start ≤ 2 ^ 40 }
    requires room { start + total_of tree.old.geometry ≤ length (H.content hash_store.old) }
    ensures stored { OnOk result (D.tells data_store.old ≡ true → H.tells hash_store.old ≡ true
        → HoldsLeaves (hashing tree.old.hasher.salted tree.old.geometry.hash_size) tree.old.geometry start (D.content data_store.old) run
        (H.content hash_store.new)) }
    ensures given { OnOk result (H.tells hash_store.old ≡ true → HoldsGivenLeaves D.BlockStore data_store.old data_store.new
        (hashing tree.old.hasher.salted tree.old.geometry.hash_size) tree.old.geometry start run (H.content hash_store.new)) }
    ensures writes { WritesPart H.BlockStore (start + start_of tree.old.geometry 0 + run.first)
        (start + start_of tree.old.geometry 0 + run.end) hash_store.old hash_store.new }
    ensures data_store { IsOnlyRead D.BlockStore data_store.old data_store.new }
    ensures data_failed { result ≡ Err Which.Data → D.failures data_store.old < D.failures data_store.new }
    ensures hash_failed { result ≡ Err Which.Hash → H.failures hash_store.old < H.failures hash_store.new }
    ensures data_unfailed { OnOk result (D.failures data_store.new ≡ D.failures data_store.old) }
    ensures hash_unfailed { OnOk result (H.failures hash_store.new ≡ H.failures hash_store.old) }
{
    for index in run.first..run.end {
        make_leaf(tree, data_store, index, buffer, block)?;
        let place = tree.geometry.place(0, index);
        let Ok(()) = hash_store.write(start + place, block) else {
            return Err(Which::Hash);
        };
    }
    Ok(())
}

/// Makes a store that has fewer blocks as long as this; a longer one stays.
fn grow<H: BlockStore>(hash_store: &mut H, blocks: u64) -> Result<(), Which>
    requires few { blocks ≤ 2 ^ 41 }
    requires reserved { blocks ≤ H.room hash_store.old }
    ensures grown { OnOk result (H.content hash_store.new ≡ resized (H.size hash_store.old) (max (length (H.content hash_store.old)) blocks)
        (H.content hash_store.old)) }
    ensures len { length (H.content hash_store.old) ≤ length (H.content hash_store.new) }
    ensures kept { (q : ℕ) → q < length (H.content hash_store.old)
        → slice_index_or (H.content hash_store.new) q [] ≡ slice_index_or (H.content hash_store.old) q [] }
    ensures later { IsLater H.BlockStore hash_store.old hash_store.new }
    ensures reads { H.reads hash_store.new ≡ H.reads hash_store.old }
    ensures given { H.given hash_store.new ≡ H.given hash_store.old }
    ensures failed { OnErr result (H.failures hash_store.old < H.failures hash_store.new) }
    ensures which { IfErr result (λ which. which ≡ Which.Hash) }
    ensures unfailed { OnOk result (H.failures hash_store.new ≡ H.failures hash_store.old) }
{
    if blocks <= hash_store.len() {
        return Ok(());
    }
    match hash_store.set_len(blocks) {
        Ok(()) => Ok(()),
        Err(_) => Err(Which::Hash),
    }
}

/// Makes room for a slice's blocks where the store is too short, writes them, and syncs.
fn write_slice<A: Allocator, D: BlockStore, H: BlockStore>(
    tree: &mut OpenTree<A>,
    data_store: &mut D,
    hash_store: &mut H,
    start: u64,
    run: Run,
    buffer: &mut [u8],
    block: &mut [u8],
) -> Result<(), Which>
    requires order { run.first ≤ run.end }
    requires within { run.end ≤ leaves_of tree.old.geometry }
    requires blocks { length (D.content data_store.old) ≡ tree.old.geometry.blocks }
    requires data_size { D.size data_store.old ≡ tree.old.geometry.data_size }
    requires data_buffer { tree.old.geometry.data_size ≤ length buffer.old }
    requires hash_size { H.size hash_store.old ≡ tree.old.geometry.hash_size }
    requires block { length block.old ≡ tree.old.geometry.hash_size }
    requires near { start ≤ 2 ^ 40 }
    requires reserved { start + total_of tree.old.geometry ≤ H.room hash_store.old }
    ensures stored { OnOk result (D.tells data_store.old ≡ true → H.tells hash_store.old ≡ true
        → HoldsLeaves (hashing tree.old.hasher.salted tree.old.geometry.hash_size) tree.old.geometry start (D.content data_store.old) run
        (H.content hash_store.new)) }
    ensures given { OnOk result (H.tells hash_store.old ≡ true → HoldsGivenLeaves D.BlockStore data_store.old data_store.new
        (hashing tree.old.hasher.salted tree.old.geometry.hash_size) tree.old.geometry start run (H.content hash_store.new)) }
    ensures grows { OnOk result (GrowsBeside tree.old.geometry start run (H.content hash_store.old) (H.content hash_store.new)) }
    ensures kept { KeepsOthers tree.old.geometry start run (H.content hash_store.old) (H.content hash_store.new) }
    ensures data_store { IsOnlyRead D.BlockStore data_store.old data_store.new }
    ensures hash_store { IsLater H.BlockStore hash_store.old hash_store.new }
    ensures hash_reads { H.reads hash_store.new ≡ H.reads hash_store.old }
    ensures hash_given { H.given hash_store.new ≡ H.given hash_store.old }
    ensures data_failed { result ≡ Err Which.Data → D.failures data_store.old < D.failures data_store.new }
    ensures hash_failed { result ≡ Err Which.Hash → H.failures hash_store.old < H.failures hash_store.new }
    ensures data_unfailed { OnOk result (D.failures data_store.new ≡ D.failures data_store.old) }
    ensures hash_unfailed { OnOk result (H.failures hash_store.new ≡ H.failures hash_store.old) }
    ensures hash_synced { OnOk result (H.synced hash_store.new ≡ true) }
{
    let blocks = start + tree.geometry.total();
    grow(hash_store, blocks)?;
    write_run(tree, data_store, hash_store, start, run, buffer, block)?;
    match hash_store.sync() {
        Ok(()) => Ok(()),
        Err(_) => Err(Which::Hash),
    }
}

/// Makes the blocks of level 0 of one slice of a volume, at their places in a hash store whose superblock stands at a byte offset,
/// and answers which they are: of none where there are more slices than blocks, or a single data block.
///
/// The hash store is never cut. Where it ends before the tree does, zero blocks are put behind it up to the end of the tree, the
/// same for each slice, so that slices that look at its length at once don't cut one another off. No other block changes, whatever
/// is answered; it is synced last. The data store is only read, from the slice's first data block to its last.
///
/// The faults are those of a build, U1 to U4, in its order. After U1, U3 and U4 both stores hold what they held. After U2 the
/// slice's own blocks are open, and the slice can be made again.
///
/// It reads and hashes each data block of the slice once. It takes memory for the salt, for hash blocks of each level, one hash block
/// and the data blocks that are read at a time, as a build does, all of it before the first write.
pub fn build_slice<A: Allocator + Copy, P: Allocator, D: BlockStore, H: BlockStore>(
    alloc: A,
    data_store: &mut D,
    hash_store: &mut H,
    params: &BuildParameters<P>,
    offset: u64,
    slice: Slice,
) -> Result<Run, BuildFault>
    ensures made { IfOk result (λ run. run ≡ run_of slice (leaves_of (shape_over params.now (D.size data_store.old) (H.size hash_store.old)
        (length (D.content data_store.old))))) }
    ensures stored { IfOk result (λ run. D.tells data_store.old ≡ true → H.tells hash_store.old ≡ true
        → HoldsLeaves (hashing (salted_by params.now) (H.size hash_store.old))
        (shape_over params.now (D.size data_store.old) (H.size hash_store.old) (length (D.content data_store.old)))
        (start_behind offset (H.size hash_store.old)) (D.content data_store.old) run (H.content hash_store.new)) }
    ensures given { IfOk result (λ run. H.tells hash_store.old ≡ true → HoldsGivenLeaves D.BlockStore data_store.old data_store.new
        (hashing (salted_by params.now) (H.size hash_store.old))
        (shape_over params.now (D.size data_store.old) (H.size hash_store.old) (length (D.content data_store.old)))
        (start_behind offset (H.size hash_store.old)) run (H.content hash_store.new)) }
    ensures grows { IfOk result (λ run. GrowsBeside (shape_over params.now (D.size data_store.old) (H.size hash_store.old)
        (length (D.content data_store.old))) (start_behind offset (H.size hash_store.old)) run (H.content hash_store.old)
        (H.content hash_store.new)) }
    ensures kept { let s = shape_over params.now (D.size data_store.old) (H.size hash_store.old) (length (D.content data_store.old)) in
        KeepsOthers s (start_behind offset (H.size hash_store.old)) (run_of slice (leaves_of s)) (H.content hash_store.old)
        (H.content hash_store.new) }
    ensures ok { OnOk result (CanBuild (length (D.content data_store.old)) offset (H.size hash_store.old)) }
    ensures fault { IfErr result (Explains (length (D.content data_store.old)) offset (H.size hash_store.old)
        (D.failures data_store.old < D.failures data_store.new) (H.failures hash_store.old < H.failures hash_store.new)) }
    ensures refused { IfErr result (λ fault. fault ≢ BuildFault.Store Which.Data → fault ≢ BuildFault.Store Which.Hash
        → H.content hash_store.new ≡ H.content hash_store.old) }
    ensures data_store { IsOnlyRead D.BlockStore data_store.old data_store.new }
    ensures hash_store { IsLater H.BlockStore hash_store.old hash_store.new }
    ensures hash_reads { H.reads hash_store.new ≡ H.reads hash_store.old }
    ensures data_unfailed { OnOk result (D.failures data_store.new ≡ D.failures data_store.old) }
    ensures hash_unfailed { OnOk result (H.failures hash_store.new ≡ H.failures hash_store.old) }
    ensures hash_synced { OnOk result (H.synced hash_store.new ≡ true) }
    ensures refused_unfailed { IfErr result (λ fault. fault ≢ BuildFault.Store Which.Data → fault ≢ BuildFault.Store Which.Hash
        → (D.failures data_store.new ≡ D.failures data_store.old) × (H.failures hash_store.new ≡ H.failures hash_store.old)) }
{
    let mut made = prepare_slice(alloc, data_store, hash_store, params, offset)?;
    let run = slice.run(leaves(&made.tree.geometry));
    match write_slice(
        &mut made.tree,
        data_store,
        hash_store,
        made.start,
        run,
        &mut made.buffer,
        &mut made.block,
    ) {
        Ok(()) => Ok(run),
        Err(which) => Err(BuildFault::Store(which)),
    }
}
