//! A pull over an old line, or without one.
ghost use Rattle.std.specs.Prelude.{◌≡◌, None, Some, length, IfOk, IfErr};
ghost use Rattle.verity_pull.specs.Done.{IsDone, IsSafe};

use crate::fault::PullFault;
use crate::pulling::pull;
use crate::pulling_over::pull_over;
use std::alloc::Allocator;
use verity_chain::Tree;
use verity_digest::Digest;
use verity_store::BlockStore;

/// How many data blocks were fetched, and how many stayed.
#[derive(Clone, Copy, Debug, PartialEq, Eq)]
pub struct Counts {
    pub fetched: u64,
    pub kept: u64,
}

/// Makes the local stores the volume of a table line, whose tree this is: as `pull_over` does, where the root hash of an old line is named,
/// else as `pull`. Its faults are theirs, and so is what it costs.
pub fn pull_either<
    L: BlockStore,
    K: BlockStore,
    S: BlockStore,
    H: BlockStore,
    A: Allocator + Copy + Drop,
>(
    alloc: A,
    tree: &mut Tree<A>,
    old: Option<Digest>,
    superblock: &[u8],
    local_data: &mut L,
    local_hash: &mut K,
    source_data: &mut S,
    source_hash: &mut H,
) -> Result<Counts, PullFault>
    requires { length superblock.now ≡ tree.old.hash_block_size }
    ensures done { IfOk result (IsDone L.BlockStore K.BlockStore S.BlockStore H.BlockStore tree.old superblock.now
        local_data.old local_data.new local_hash.old local_hash.new source_data.old source_data.new source_hash.old source_hash.new
        old) }
    ensures safe { IfErr result (IsSafe L.BlockStore K.BlockStore S.BlockStore H.BlockStore tree.old superblock.now
        local_data.old local_data.new local_hash.old local_hash.new source_data.old source_data.new source_hash.old source_hash.new) }
    ensures same { tree.new ≡ tree.old }
{
    match old {
        Some(root) => pull_over_old(
            alloc,
            tree,
            root,
            superblock,
            local_data,
            local_hash,
            source_data,
            source_hash,
        ),
        None => pull_anew(
            alloc,
            tree,
            superblock,
            local_data,
            local_hash,
            source_data,
            source_hash,
        ),
    }
}

/// The same, where no old line is of use.
fn pull_anew<
    L: BlockStore,
    K: BlockStore,
    S: BlockStore,
    H: BlockStore,
    A: Allocator + Copy + Drop,
>(
    alloc: A,
    tree: &mut Tree<A>,
    superblock: &[u8],
    local_data: &mut L,
    local_hash: &mut K,
    source_data: &mut S,
    source_hash: &mut H,
) -> Result<Counts, PullFault>
    requires { length superblock.now ≡ tree.old.hash_block_size }
    ensures done { IfOk result (IsDone L.BlockStore K.BlockStore S.BlockStore H.BlockStore tree.old superblock.now
        local_data.old local_data.new local_hash.old local_hash.new source_data.old source_data.new source_hash.old source_hash.new
        None) }
    ensures safe { IfErr result (IsSafe L.BlockStore K.BlockStore S.BlockStore H.BlockStore tree.old superblock.now
        local_data.old local_data.new local_hash.old local_hash.new source_data.old source_data.new source_hash.old source_hash.new) }
    ensures same { tree.new ≡ tree.old }
{
    let _line = tree.table();
    match pull(
        alloc,
        tree,
        superblock,
        local_data,
        local_hash,
        source_data,
        source_hash,
    ) {
        Ok(pulled) => Ok(Counts {
            fetched: pulled.fetched,
            kept: pulled.kept,
        }),
        Err(fault) => Err(fault),
    }
}

/// The same over the volume of an old line.
fn pull_over_old<
    L: BlockStore,
    K: BlockStore,
    S: BlockStore,
    H: BlockStore,
    A: Allocator + Copy + Drop,
>(
    alloc: A,
    tree: &mut Tree<A>,
    root: Digest,
    superblock: &[u8],
    local_data: &mut L,
    local_hash: &mut K,
    source_data: &mut S,
    source_hash: &mut H,
) -> Result<Counts, PullFault>
    requires { length superblock.now ≡ tree.old.hash_block_size }
    ensures done { IfOk result (IsDone L.BlockStore K.BlockStore S.BlockStore H.BlockStore tree.old superblock.now
        local_data.old local_data.new local_hash.old local_hash.new source_data.old source_data.new source_hash.old source_hash.new
        (Some root)) }
    ensures safe { IfErr result (IsSafe L.BlockStore K.BlockStore S.BlockStore H.BlockStore tree.old superblock.now
        local_data.old local_data.new local_hash.old local_hash.new source_data.old source_data.new source_hash.old source_hash.new) }
    ensures same { tree.new ≡ tree.old }
{
    let _line = tree.table();
    match pull_over(
        alloc,
        tree,
        root,
        superblock,
        local_data,
        local_hash,
        source_data,
        source_hash,
    ) {
        Ok(pulled) => Ok(Counts {
            fetched: pulled.fetched,
            kept: pulled.kept,
        }),
        Err(fault) => Err(fault),
    }
}
