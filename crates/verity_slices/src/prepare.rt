//! What slices and joins begin with.
ghost use Rattle.std.specs.Prelude.{◌≡◌, ℕ, ◌^◌, ◌≤◌, ◌<◌, length, None, OnOk, OnErr, IfOk, IfErr};
ghost use Rattle.verity_build.specs.Faults.{CanBuild, Explains};
ghost use Rattle.verity_build.specs.Parameters.{salted_by, shape_over, volume};
ghost use Rattle.verity_digest.specs.Hash.{size_of};
ghost use Rattle.verity_geometry.specs.Geometry.{IsShape, levels_of};
ghost use Rattle.verity_profile.specs.Profile.{IsBlockCount};
ghost use Rattle.verity_superblock.specs.Image.{CanBegin, start_behind};
ghost use Rattle.verity_superblock.specs.Superblock.{superblock};
ghost use Rattle.verity_tree.specs.Climb.{AreEmpty};
ghost use Rattle.verity_tree.specs.Opens.{opens};
ghost use Rattle.verity_store.specs.Stores.{IsKept};
ghost use Rattle.verity_slices.specs.Begins.{CanSlice, CanJoin};
ghost use Rattle.verity_slices.specs.Level.{leaves_of, upper};

use std::alloc::Allocator;
use verity_build::{BuildFault, BuildParameters};
use verity_digest::Hasher;
use verity_geometry::Geometry;
use verity_store::BlockStore;
use verity_superblock::{Superblock, tree_start};
use verity_tree::{OpenTree, bytes_at_a_time};

/// How many hash blocks level 0 of a volume has: none above one data block.
pub fn leaves(geometry: &Geometry) -> u64
    ensures value { result ≡ leaves_of geometry.now }
    ensures most { result ≤ 2 ^ 40 }
{
    if 0 < geometry.levels() {
        geometry.level_len(0)
    } else {
        let _ = geometry.blocks();
        0
    }
}

/// The geometry of the tree above level 0: of a volume whose data blocks are the blocks of level 0.
pub(crate) fn above(geometry: &Geometry) -> Geometry
    requires { 0 < levels_of geometry.now }
    ensures value { result ≡ upper geometry.now }
    ensures shaped { IsShape geometry.now }
{
    let size = geometry.hash_size();
    let blocks = geometry.level_len(0);
    let _ = geometry.blocks();
    let _shaped = geometry.levels();
    match Geometry::with_digest(size, size, blocks, geometry.digest_size()) {
        Ok(above) => above,
        Err(_) => unreachable!(),
    }
}

/// The geometry of a volume over these stores. U1 where the count isn't one of a volume.
pub(crate) fn geometry_over<P: Allocator, D: BlockStore, H: BlockStore>(
    data_store: &D,
    hash_store: &H,
    params: &BuildParameters<P>,
) -> Result<Geometry, BuildFault>
    ensures value { IfOk result (λ geometry. geometry ≡ shape_over params.now (D.size data_store.now) (H.size hash_store.now)
        (length (D.content data_store.now))) }
    ensures ok { OnOk result (IsBlockCount (length (D.content data_store.now))) }
    ensures none { OnErr result (¬ (IsBlockCount (length (D.content data_store.now)))) }
    ensures fault { IfErr result (λ fault. (offset : ℕ) → Explains (length (D.content data_store.now)) offset
        (H.size hash_store.now) ⊥ ⊥ fault) }
{
    match Geometry::with_digest(
        data_store.block_size(),
        hash_store.block_size(),
        data_store.len(),
        params.algorithm().size(),
    ) {
        Ok(geometry) => Ok(geometry),
        Err(fault) => Err(BuildFault::Geometry(fault)),
    }
}

/// Where a tree of this geometry begins behind a superblock at a byte offset, and its open blocks. The first that applies: U4, U3.
pub(crate) fn open_tree<A: Allocator + Copy, P: Allocator>(
    alloc: A,
    geometry: Geometry,
    params: &BuildParameters<P>,
    offset: u64,
) -> Result<(u64, OpenTree<A>), BuildFault>
    requires { size_of params.now.algorithm ≡ geometry.digest_size }
    ensures start { IfOk result (λ made. made.0 ≡ start_behind offset geometry.hash_size) }
    ensures behind { IfOk result (λ made. 1 ≤ made.0) }
    ensures near { IfOk result (λ made. made.0 ≤ 2 ^ 40) }
    ensures geometry { IfOk result (λ made. made.1.geometry ≡ geometry) }
    ensures salted { IfOk result (λ made. made.1.hasher.salted ≡ salted_by params.now) }
    ensures empty { IfOk result (λ made. AreEmpty (opens made.1)) }
    ensures rootless { IfOk result (λ made. made.1.root ≡ None) }
    ensures ok { OnOk result (CanBegin offset geometry.hash_size) }
    ensures fault { IfErr result (λ fault. (blocks : ℕ) → IsBlockCount blocks → Explains blocks offset geometry.hash_size ⊥ ⊥ fault) }
{
    let Ok(start) = tree_start(offset, geometry.hash_size()) else {
        return Err(BuildFault::Offset);
    };
    let salt = params.salt().copy(alloc)?;
    match OpenTree::new(alloc, Hasher::new(salt, params.algorithm()), geometry) {
        Ok(tree) => Ok((start, tree)),
        Err(_) => Err(BuildFault::NoMemory),
    }
}

/// The superblock of a volume of this geometry. U3 where memory was refused.
pub(crate) fn superblock_over<A: Allocator + Copy, P: Allocator>(
    alloc: A,
    geometry: &Geometry,
    params: &BuildParameters<P>,
) -> Result<[u8; 512], BuildFault>
    ensures value { IfOk result (λ bytes. bytes ≡ superblock (volume params.now geometry.now.data_size geometry.now.hash_size)
        geometry.now.blocks) }
    ensures fault { IfErr result (λ fault. fault ≡ BuildFault.NoMemory) }
{
    let salt = params.salt().copy(alloc)?;
    match Superblock::new(
        geometry.data_size(),
        geometry.hash_size(),
        geometry.blocks(),
        salt,
        params.uuid(),
        params.algorithm(),
    ) {
        Ok(superblock) => Ok(superblock.encode()),
        Err(_) => unreachable!(),
    }
}

/// What a slice is made with: where the tree begins, the tree that hashes, and buffers for data blocks and for a hash block.
#[derive(Drop)]
pub(crate) struct Slicing<A: Allocator> {
    pub(crate) start: u64,
    pub(crate) tree: OpenTree<A>,
    pub(crate) buffer: Vec<u8, A>,
    pub(crate) block: Vec<u8, A>,
}

/// What a join is made with: where the tree begins, the open blocks of the tree above level 0, the superblock, and a buffer for
/// blocks of level 0.
#[derive(Drop)]
pub(crate) struct Joining<A: Allocator> {
    pub(crate) start: u64,
    pub(crate) tree: OpenTree<A>,
    pub(crate) superblock: [u8; 512],
    pub(crate) buffer: Vec<u8, A>,
}

/// What a slice of this volume is made with, and room for the volume in the hash store. The first that applies: U1, U4, U3.
pub(crate) fn prepare_slice<A: Allocator + Copy, P: Allocator, D: BlockStore, H: BlockStore>(
    alloc: A,
    data_store: &D,
    hash_store: &mut H,
    params: &BuildParameters<P>,
    offset: u64,
) -> Result<Slicing<A>, BuildFault>
    ensures ready { IfOk result (λ made. CanSlice params.now (D.size data_store.now) (H.size hash_store.old)
        (length (D.content data_store.now)) offset (H.room hash_store.new) made) }
    ensures ok { OnOk result (CanBuild (length (D.content data_store.now)) offset (H.size hash_store.old)) }
    ensures fault { IfErr result (Explains (length (D.content data_store.now)) offset (H.size hash_store.old) ⊥ ⊥) }
    ensures kept { IsKept H.BlockStore hash_store.old hash_store.new }
    ensures given { H.given hash_store.new ≡ H.given hash_store.old }
    ensures unfailed { H.failures hash_store.new ≡ H.failures hash_store.old }
{
    let geometry = geometry_over(data_store, hash_store, params)?;
    let (start, tree) = open_tree(alloc, geometry, params, offset)?;
    let buffer = Vec::from_elem(alloc, 0u8, bytes_at_a_time(&geometry))?;
    let block = Vec::from_elem(alloc, 0u8, geometry.hash_size())?;
    let Ok(()) = hash_store.reserve(start + geometry.total()) else {
        return Err(BuildFault::NoMemory);
    };
    Ok(Slicing {
        start,
        tree,
        buffer,
        block,
    })
}

/// What a join of a volume of this geometry, which has a level, is made with, and room for the volume in the hash store. The first that
/// applies: U4, U3.
pub(crate) fn prepare_join<A: Allocator + Copy, P: Allocator, H: BlockStore>(
    alloc: A,
    geometry: &Geometry,
    hash_store: &mut H,
    params: &BuildParameters<P>,
    offset: u64,
) -> Result<Joining<A>, BuildFault>
    requires levels { 0 < levels_of geometry.now }
    requires size { geometry.now.hash_size ≡ H.size hash_store.old }
    requires digest { size_of params.now.algorithm ≡ geometry.now.digest_size }
    ensures ready { IfOk result (λ made. CanJoin params.now geometry.now offset (H.room hash_store.new) made) }
    ensures ok { OnOk result (CanBuild geometry.now.blocks offset (H.size hash_store.old)) }
    ensures fault { IfErr result (Explains geometry.now.blocks offset (H.size hash_store.old) ⊥ ⊥) }
    ensures kept { IsKept H.BlockStore hash_store.old hash_store.new }
    ensures given { H.given hash_store.new ≡ H.given hash_store.old }
    ensures unfailed { H.failures hash_store.new ≡ H.failures hash_store.old }
{
    let above = above(geometry);
    let _ = geometry.blocks();
    let (start, tree) = open_tree(alloc, above, params, offset)?;
    let superblock = superblock_over(alloc, geometry, params)?;
    let buffer = Vec::from_elem(alloc, 0u8, bytes_at_a_time(&above))?;
    let Ok(()) = hash_store.reserve(start + above.total() + above.blocks()) else {
        return Err(BuildFault::NoMemory);
    };
    Ok(Joining {
        start,
        tree,
        superblock,
        buffer,
    })
}
