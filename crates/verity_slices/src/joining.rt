//! Makes what slices leave to be made: the levels above level 0, the superblock and the length.
ghost use Rattle.std.specs.Prelude.{◌≡◌, ◌≢◌, ℕ, suc, ◌+◌, ◌-◌, ◌/◌, ◌^◌, ◌<◌, ◌≤◌, ◌↔◌, ◌++◌, ◌∷◌, List, [], true, length};
ghost use Rattle.std.specs.Prelude.{slice_index_or, slice_set, OnOk, OnErr, IfOk, IfErr, IsErrOf, None};
ghost use Rattle.verity_build.specs.Device.{AreStored};
ghost use Rattle.verity_build.specs.Faults.{CanBuild, Explains};
ghost use Rattle.verity_build.specs.Given.{IsRootOfGiven};
ghost use Rattle.verity_build.specs.Parameters.{salted_by, shape_over};
ghost use Rattle.verity_build.specs.Progress.{Grown, IsRight};
ghost use Rattle.verity_digest.specs.Hash.{hashing};
ghost use Rattle.verity_digest.specs.Tree.{root, tree as tree_of};
ghost use Rattle.verity_geometry.specs.Geometry.{digests_per_block, levels_of, start_of, len_of, total_of};
ghost use Rattle.verity_profile.specs.Profile.{IsBlockCount};
ghost use Rattle.verity_slice.specs.Slices.{Covers};
ghost use Rattle.verity_store.specs.Blocks.{resized, ChangesAt};
ghost use Rattle.verity_store.specs.Stores.{IsLater, IsOnlyRead};
ghost use Rattle.verity_superblock.specs.Image.{start_behind};
ghost use Rattle.verity_superblock.specs.Superblock.{zero_filled};
ghost use Rattle.verity_tree.specs.Climb.{AreEmpty};
ghost use Rattle.verity_tree.specs.Opens.{opens};
ghost use Rattle.verity_slices.specs.Faults.{ExplainsJoin};
ghost use Rattle.verity_slices.specs.Given.{AreGivenFrom, IsRootOfGivenLevel};
ghost use Rattle.verity_slices.specs.Joins.{Joins};
ghost use Rattle.verity_slices.specs.Level.{leaves_of, level_in};
ghost use Rattle.verity_slices.specs.Walked.{JoinsPart, IsLevel};

use crate::JoinFault;
use crate::prepare::{geometry_over, leaves, prepare_join};
use crate::taking::take_all;
use std::alloc::Allocator;
use verity_build::{BuildFault, BuildParameters, build_at};
use verity_digest::Digest;
use verity_slice::{Run, cover};
use verity_store::{BlockStore, StoreFault, Which};
use verity_tree::OpenTree;

/// How many blocks of level 0 are hashed side by side at most, in one call.
const AT_A_TIME: usize = 128;

/// Reads level 0, which stands behind the tree that is made, in its order, several blocks at a time, and writes each block of the levels
/// above as soon as the digests that it holds are made.
fn join_tree<A: Allocator, H: BlockStore>(
    tree: &mut OpenTree<A>,
    hash_store: &mut H,
    start: u64,
    buffer: &mut [u8],
) -> Result<(), StoreFault>
    requires empty { AreEmpty (opens tree.old) }
    requires rootless { tree.old.root ≡ None }
    requires level_size { tree.old.geometry.data_size ≡ tree.old.geometry.hash_size }
    requires hash_size { H.size hash_store.old ≡ tree.old.geometry.hash_size }
    requires buffer { tree.old.geometry.data_size ≤ length buffer.old }
    requires near { start ≤ 2 ^ 40 }
    requires room { start + total_of tree.old.geometry + tree.old.geometry.blocks ≤ length (H.content hash_store.old) }
    ensures grown { OnOk result (Grown (digests_per_block tree.old.geometry) tree.old.geometry.blocks (opens tree.new) tree.new.root) }
    ensures given { OnOk result (let h = hashing tree.old.hasher.salted tree.old.geometry.hash_size in
        (level : List (List ℕ)) × (length level ≡ tree.old.geometry.blocks)
        × AreGivenFrom H.BlockStore hash_store.old hash_store.new (start + total_of tree.old.geometry) level
        × IsRight h level (opens tree.new) tree.new.root) }
    ensures right { OnOk result (H.tells hash_store.old ≡ true → let h = hashing tree.old.hasher.salted tree.old.geometry.hash_size in
        (level : List (List ℕ)) → IsLevel (start + total_of tree.old.geometry) tree.old.geometry.blocks (H.content hash_store.old) level
        → IsRight h level (opens tree.new) tree.new.root
        × AreStored tree.old.geometry start (tree_of h level) (opens tree.new) (H.content hash_store.new)) }
    ensures geometry { tree.new.geometry ≡ tree.old.geometry }
    ensures joins { JoinsPart H.BlockStore start (start + total_of tree.old.geometry) hash_store.old hash_store.new }
    ensures reads { OnOk result (H.reads hash_store.new ≡ H.reads hash_store.old + tree.old.geometry.blocks) }
    ensures reads_most { H.reads hash_store.new ≤ H.reads hash_store.old + tree.old.geometry.blocks }
    ensures failed { OnErr result (H.failures hash_store.old < H.failures hash_store.new) }
    ensures unfailed { OnOk result (H.failures hash_store.new ≡ H.failures hash_store.old) }
{
    let size = tree.geometry.data_size();
    let blocks = tree.geometry.blocks();
    let level = start + tree.geometry.total();
    let mut n = 0;
    while n < blocks {
        let count = (buffer.len() / size)
            .min(AT_A_TIME)
            .min((blocks - n) as usize);
        let run = &mut buffer[..count * size];
        hash_store.read_run(level + n, count, run)?;
        let mut digests = [Digest::from_bytes([0; 32]); AT_A_TIME];
        let made = &mut digests[..count];
        tree.digest_run(run, made);
        take_all(tree, hash_store, start, n, made)?;
        n += count as u64;
    }
    Ok(())
}

/// Writes a superblock, and zeros behind it, to a block, and syncs.
fn write_superblock<H: BlockStore>(
    hash_store: &mut H,
    place: u64,
    superblock: &[u8],
    block: &mut [u8],
) -> Result<(), StoreFault>
    requires within { place < length (H.content hash_store.old) }
    requires fits { length superblock.now ≤ length block.old }
    requires sized { length block.old ≡ H.size hash_store.old }
    ensures written { OnOk result (H.tells hash_store.old ≡ true
        → H.content hash_store.new ≡ slice_set (H.content hash_store.old) place (zero_filled (H.size hash_store.old) superblock.now)) }
    ensures others { ChangesAt place (H.content hash_store.old) (H.content hash_store.new) }
    ensures reads { H.reads hash_store.new ≡ H.reads hash_store.old }
    ensures given { H.given hash_store.new ≡ H.given hash_store.old }
    ensures later { IsLater H.BlockStore hash_store.old hash_store.new }
    ensures failed { OnErr result (H.failures hash_store.old < H.failures hash_store.new) }
    ensures synced { OnOk result (H.synced hash_store.new ≡ true) }
    ensures unfailed { OnOk result (H.failures hash_store.new ≡ H.failures hash_store.old) }
{
    let len = superblock.len();
    block[..len].copy_from_slice(superblock);
    block[len..].fill(0);
    hash_store.write(place, block)?;
    hash_store.sync()
}

/// Makes the hash device whose tree begins at `start` from level 0 as it stands: sets its length, writes the levels above, then the
/// superblock in front of them, and syncs.
fn join_device<A: Allocator, H: BlockStore>(
    tree: &mut OpenTree<A>,
    hash_store: &mut H,
    start: u64,
    superblock: &[u8],
    buffer: &mut [u8],
) -> Result<Digest, StoreFault>
    requires empty { AreEmpty (opens tree.old) }
    requires rootless { tree.old.root ≡ None }
    requires level_size { tree.old.geometry.data_size ≡ tree.old.geometry.hash_size }
    requires hash_size { H.size hash_store.old ≡ tree.old.geometry.hash_size }
    requires behind { 1 ≤ start }
    requires near { start ≤ 2 ^ 40 }
    requires few { tree.old.geometry.blocks + total_of tree.old.geometry ≤ 2 ^ 40 }
    requires reserved { start + total_of tree.old.geometry + tree.old.geometry.blocks ≤ H.room hash_store.old }
    requires superblock { length superblock.now ≤ 512 }
    requires buffer { tree.old.geometry.data_size ≤ length buffer.old }
    ensures joined { OnOk result (H.tells hash_store.old ≡ true → let s = tree.old.geometry in
        let level = level_in s start (H.content hash_store.old) in
        H.content hash_store.new ≡ resized s.hash_size (start - 1) (H.content hash_store.old)
        ++ (zero_filled s.hash_size superblock.now ∷ (tree_of (hashing tree.old.hasher.salted s.hash_size) level ++ level))) }
    ensures root { IfOk result (λ digest. H.tells hash_store.old ≡ true
        → digest ≡ root (hashing tree.old.hasher.salted tree.old.geometry.hash_size)
        (level_in tree.old.geometry start (H.content hash_store.old))) }
    ensures given { IfOk result (λ digest. IsRootOfGivenLevel H.BlockStore hash_store.old hash_store.new
        (start + total_of tree.old.geometry) tree.old.geometry.blocks
        (hashing tree.old.hasher.salted tree.old.geometry.hash_size) digest) }
    ensures front { (q : ℕ) → suc q < start → q < length (H.content hash_store.old)
        → slice_index_or (H.content hash_store.new) q [] ≡ slice_index_or (H.content hash_store.old) q [] }
    ensures level { (q : ℕ) → start + total_of tree.old.geometry ≤ q → q < start + total_of tree.old.geometry + tree.old.geometry.blocks
        → q < length (H.content hash_store.old)
        → slice_index_or (H.content hash_store.new) q [] ≡ slice_index_or (H.content hash_store.old) q [] }
    ensures later { IsLater H.BlockStore hash_store.old hash_store.new }
    ensures reads { OnOk result (H.reads hash_store.new ≡ H.reads hash_store.old + tree.old.geometry.blocks) }
    ensures reads_most { H.reads hash_store.new ≤ H.reads hash_store.old + tree.old.geometry.blocks }
    ensures failed { OnErr result (H.failures hash_store.old < H.failures hash_store.new) }
    ensures synced { OnOk result (H.synced hash_store.new ≡ true) }
    ensures unfailed { OnOk result (H.failures hash_store.new ≡ H.failures hash_store.old) }
{
    let end = start + tree.geometry.total() + tree.geometry.blocks();
    hash_store.set_len(end)?;
    join_tree(tree, hash_store, start, buffer)?;
    let block = &mut buffer[..tree.geometry.hash_size()];
    write_superblock(hash_store, start - 1, superblock, block)?;
    match tree.root {
        Some(root) => Ok(root),
        None => unreachable!(),
    }
}

/// Makes the hash device of a data store from level 0 as slices left it in a hash store, and answers the root hash. It is told the runs
/// of level 0 that were made, in any order, and puts them into the order of their first blocks.
///
/// The hash store then holds the blocks in front that it held before, zero blocks where it was shorter, the superblock with zeros behind
/// it, the levels above level 0 and level 0; nothing follows, and it was synced last. Level 0 isn't changed. The data store is read only
/// where it has a single block, above which there is no level: then this is `build_at`.
///
/// The first that applies: U1 where the data store has no block or more than 2^40; J1 where the runs don't have each block of level 0
/// among them; U4, U3, U2 as in a build. After U1, J1, U3 and U4 both stores hold what they held. After U2 the hash store's content is
/// open, but for the blocks in front and those of level 0, and the join can be made again.
///
/// It reads and hashes each block of level 0 once, eight side by side, and hashes and writes each block of the levels above once. It takes
/// memory as a build of the levels above does, all of it before the first write.
pub fn build_joined<A: Allocator + Copy, P: Allocator, R: Allocator, D: BlockStore, H: BlockStore>(
    alloc: A,
    data_store: &mut D,
    hash_store: &mut H,
    params: &BuildParameters<P>,
    offset: u64,
    runs: &mut Vec<Run, R>,
) -> Result<Digest, JoinFault>
    ensures joined { IfOk result (λ digest. D.tells data_store.old ≡ true → H.tells hash_store.old ≡ true
        → Joins params.now (shape_over params.now (D.size data_store.old) (H.size hash_store.old) (length (D.content data_store.old)))
        offset (D.content data_store.old) runs.old.items (H.content hash_store.old) (H.content hash_store.new) digest) }
    ensures given { IfOk result (λ digest. let s = shape_over params.now (D.size data_store.old) (H.size hash_store.old)
        (length (D.content data_store.old)) in 0 < levels_of s → IsRootOfGivenLevel H.BlockStore hash_store.old hash_store.new
        (start_behind offset (H.size hash_store.old) + start_of s 0) (len_of s 0)
        (hashing (salted_by params.now) (H.size hash_store.old)) digest) }
    ensures given_single { IfOk result (λ digest. levels_of (shape_over params.now (D.size data_store.old) (H.size hash_store.old)
        (length (D.content data_store.old))) ≡ 0 → IsRootOfGiven D.BlockStore data_store.old data_store.new
        (hashing (salted_by params.now) (H.size hash_store.old)) digest) }
    ensures covered { OnOk result (Covers runs.old.items (leaves_of (shape_over params.now (D.size data_store.old) (H.size hash_store.old)
        (length (D.content data_store.old))))) }
    ensures uncovered { IsErrOf result JoinFault.Uncovered ↔ (IsBlockCount (length (D.content data_store.old))
        × ¬ Covers runs.old.items (leaves_of (shape_over params.now (D.size data_store.old) (H.size hash_store.old)
        (length (D.content data_store.old))))) }
    ensures ok { OnOk result (CanBuild (length (D.content data_store.old)) offset (H.size hash_store.old)) }
    ensures fault { IfErr result (ExplainsJoin runs.old.items (leaves_of (shape_over params.now (D.size data_store.old)
        (H.size hash_store.old) (length (D.content data_store.old)))) (length (D.content data_store.old)) offset (H.size hash_store.old)
        (D.failures data_store.old < D.failures data_store.new) (H.failures hash_store.old < H.failures hash_store.new)) }
    ensures refused { IfErr result (λ fault. fault ≢ JoinFault.Build (BuildFault.Store Which.Data)
        → fault ≢ JoinFault.Build (BuildFault.Store Which.Hash) → H.content hash_store.new ≡ H.content hash_store.old) }
    ensures front { (q : ℕ) → q < offset / H.size hash_store.old → q < length (H.content hash_store.old)
        → slice_index_or (H.content hash_store.new) q [] ≡ slice_index_or (H.content hash_store.old) q [] }
    ensures level { let s = shape_over params.now (D.size data_store.old) (H.size hash_store.old) (length (D.content data_store.old)) in
        0 < levels_of s → (i : ℕ) → i < len_of s 0
        → start_behind offset (H.size hash_store.old) + start_of s 0 + i < length (H.content hash_store.old)
        → slice_index_or (H.content hash_store.new) (start_behind offset (H.size hash_store.old) + start_of s 0 + i) []
        ≡ slice_index_or (H.content hash_store.old) (start_behind offset (H.size hash_store.old) + start_of s 0 + i) [] }
    ensures data_store { IsOnlyRead D.BlockStore data_store.old data_store.new }
    ensures hash_store { IsLater H.BlockStore hash_store.old hash_store.new }
    ensures data_unfailed { OnOk result (D.failures data_store.new ≡ D.failures data_store.old) }
    ensures hash_synced { OnOk result (H.synced hash_store.new ≡ true) }
    ensures hash_unfailed { OnOk result (H.failures hash_store.new ≡ H.failures hash_store.old) }
    ensures refused_unfailed { IfErr result (λ fault. fault ≢ JoinFault.Build (BuildFault.Store Which.Data)
        → fault ≢ JoinFault.Build (BuildFault.Store Which.Hash)
        → (D.failures data_store.new ≡ D.failures data_store.old) × (H.failures hash_store.new ≡ H.failures hash_store.old)) }
{
    let geometry = geometry_over(data_store, hash_store, params)?;
    if !cover(runs, leaves(&geometry)) {
        return Err(JoinFault::Uncovered);
    }
    if geometry.levels() == 0 {
        return match build_at(alloc, data_store, hash_store, params, offset) {
            Ok(root) => Ok(root),
            Err(fault) => Err(JoinFault::Build(fault)),
        };
    }
    let mut made = prepare_join(alloc, &geometry, hash_store, params, offset)?;
    match join_device(
        &mut made.tree,
        hash_store,
        made.start,
        &made.superblock,
        &mut made.buffer,
    ) {
        Ok(root) => Ok(root),
        Err(_) => Err(JoinFault::Build(BuildFault::Store(Which::Hash))),
    }
}
