//! What a build and a comparison begin with.
ghost use Rattle.std.specs.Prelude.{◌≡◌, length, OnOk, IfOk, IfErr};
ghost use Rattle.verity_store.specs.Stores.{IsKept};
ghost use Rattle.verity_superblock.specs.Superblock.{superblock};
ghost use Rattle.verity_build.specs.Begins.{Begins, CanRead, CanWrite};
ghost use Rattle.verity_build.specs.Parameters.{volume};
ghost use Rattle.verity_build.specs.Faults.{CanBuild, Explains};

use crate::{BuildFault, BuildParameters};
use std::alloc::Allocator;
use verity_digest::Hasher;
use verity_geometry::Geometry;
use verity_store::BlockStore;
use verity_superblock::{Superblock, tree_start};
use verity_tree::{OpenTree, bytes_at_a_time};

/// What a build writes with: where the tree begins, its open blocks, the superblock, and a buffer for data blocks or a hash block.
#[derive(Drop)]
pub(crate) struct Building<A: Allocator> {
    pub(crate) start: u64,
    pub(crate) tree: OpenTree<A>,
    pub(crate) superblock: [u8; 512],
    pub(crate) buffer: Vec<u8, A>,
}

/// What a comparison reads with: where the tree begins, its open blocks, and buffers for data blocks and for a hash block.
#[derive(Drop)]
pub(crate) struct Comparing<A: Allocator> {
    pub(crate) start: u64,
    pub(crate) tree: OpenTree<A>,
    pub(crate) buffer: Vec<u8, A>,
    pub(crate) hash_block: Vec<u8, A>,
}

/// Where the tree of a volume over these stores begins, and its open blocks. The first that applies:
/// U1, U4, U3.
fn prepare<A: Allocator + Copy, P: Allocator, D: BlockStore, H: BlockStore>(
    alloc: A,
    data_store: &D,
    hash_store: &H,
    params: &BuildParameters<P>,
    offset: u64,
) -> Result<(u64, OpenTree<A>), BuildFault>
    ensures begun { IfOk result (λ made. Begins params.now (D.size data_store.now) (H.size hash_store.now)
        (length (D.content data_store.now)) offset made.0 made.1) }
    ensures ok { OnOk result (CanBuild (length (D.content data_store.now)) offset (H.size hash_store.now)) }
    ensures fault { IfErr result (Explains (length (D.content data_store.now)) offset (H.size hash_store.now) ⊥ ⊥) }
{
    let algorithm = params.algorithm();
    let geometry = match Geometry::with_digest(
        data_store.block_size(),
        hash_store.block_size(),
        data_store.len(),
        algorithm.size(),
    ) {
        Ok(geometry) => geometry,
        Err(fault) => return Err(BuildFault::Geometry(fault)),
    };
    let Ok(start) = tree_start(offset, hash_store.block_size()) else {
        return Err(BuildFault::Offset);
    };
    let salt = params.salt().copy(alloc)?;
    match OpenTree::new(alloc, Hasher::new(salt, algorithm), geometry) {
        Ok(tree) => Ok((start, tree)),
        Err(_) => Err(BuildFault::NoMemory),
    }
}

/// The superblock of a volume of this geometry. U3 where memory was refused.
fn superblock_of<A: Allocator + Copy, P: Allocator>(
    alloc: A,
    geometry: &Geometry,
    params: &BuildParameters<P>,
) -> Result<[u8; 512], BuildFault>
    ensures value { IfOk result (λ bytes. bytes ≡ superblock (volume params.now geometry.now.data_size geometry.now.hash_size)
        geometry.now.blocks) }
    ensures fault { IfErr result (λ fault. fault ≡ BuildFault.NoMemory) }
{
    let salt = params.salt().copy(alloc)?;
    match Superblock::new(
        geometry.data_size(),
        geometry.hash_size(),
        geometry.blocks(),
        salt,
        params.uuid(),
        params.algorithm(),
    ) {
        Ok(superblock) => Ok(superblock.encode()),
        Err(_) => unreachable!(),
    }
}

/// What a build of this volume writes with, and room for it in the hash store. The first that applies: U1, U4, U3.
pub(crate) fn prepare_build<A: Allocator + Copy, P: Allocator, D: BlockStore, H: BlockStore>(
    alloc: A,
    data_store: &D,
    hash_store: &mut H,
    params: &BuildParameters<P>,
    offset: u64,
) -> Result<Building<A>, BuildFault>
    ensures ready { IfOk result (λ made. CanWrite params.now (D.size data_store.now) (H.size hash_store.old)
        (length (D.content data_store.now)) offset (H.room hash_store.new) made) }
    ensures ok { OnOk result (CanBuild (length (D.content data_store.now)) offset (H.size hash_store.old)) }
    ensures fault { IfErr result (Explains (length (D.content data_store.now)) offset (H.size hash_store.old) ⊥ ⊥) }
    ensures kept { IsKept H.BlockStore hash_store.old hash_store.new }
    ensures unfailed { H.failures hash_store.new ≡ H.failures hash_store.old }
{
    let (start, tree) = prepare(alloc, data_store, hash_store, params, offset)?;
    let superblock = superblock_of(alloc, &tree.geometry, params)?;
    let size = bytes_at_a_time(&tree.geometry).max(tree.geometry.hash_size());
    let buffer = Vec::from_elem(alloc, 0u8, size)?;
    let Ok(()) = hash_store.reserve(start + tree.geometry.total()) else {
        return Err(BuildFault::NoMemory);
    };
    Ok(Building {
        start,
        tree,
        superblock,
        buffer,
    })
}

/// What a comparison with this volume's tree reads with. The first that applies: U1, U4, U3.
pub(crate) fn prepare_compare<A: Allocator + Copy, P: Allocator, D: BlockStore, H: BlockStore>(
    alloc: A,
    data_store: &D,
    hash_store: &H,
    params: &BuildParameters<P>,
    offset: u64,
) -> Result<Comparing<A>, BuildFault>
    ensures ready { IfOk result (λ made. CanRead params.now (D.size data_store.now) (H.size hash_store.now)
        (length (D.content data_store.now)) offset made) }
    ensures ok { OnOk result (CanBuild (length (D.content data_store.now)) offset (H.size hash_store.now)) }
    ensures fault { IfErr result (Explains (length (D.content data_store.now)) offset (H.size hash_store.now) ⊥ ⊥) }
{
    let (start, tree) = prepare(alloc, data_store, hash_store, params, offset)?;
    let buffer = Vec::from_elem(alloc, 0u8, bytes_at_a_time(&tree.geometry))?;
    let hash_block = Vec::from_elem(alloc, 0u8, tree.geometry.hash_size())?;
    Ok(Comparing {
        start,
        tree,
        buffer,
        hash_block,
    })
}
