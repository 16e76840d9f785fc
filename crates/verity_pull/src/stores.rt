//! Whether the four stores are those of a table line.
ghost use Rattle.std.specs.Prelude.{◌↔◌, IsTrue, MatchOption};
ghost use Rattle.verity_pull.specs.Pull.{IsSuited, Suits, SuitsOver};

use crate::fault::Role;
use std::alloc::Allocator;
use verity_chain::Tree;
use verity_store::BlockStore;

/// Whether a store has this block size, and so many blocks at least.
fn is_suited<S: BlockStore>(store: &S, size: usize, blocks: u64) -> bool
    ensures { IsTrue result ↔ IsSuited S.BlockStore size blocks store.now }
{
    store.block_size() == size && blocks <= store.len()
}

/// The first of the stores that isn't one of a table line, if there is one: it has another block size, or, a source, too few blocks.
/// Nothing is read.
pub(crate) fn unsuited<L: BlockStore, K: BlockStore, S: BlockStore, H: BlockStore, A: Allocator>(
    tree: &Tree<A>,
    local_data: &L,
    local_hash: &K,
    source_data: &S,
    source_hash: &H,
) -> Option<Role>
    ensures { MatchOption result
        ((role : Role) → Suits L.BlockStore K.BlockStore S.BlockStore H.BlockStore tree.now
        local_data.now local_hash.now source_data.now source_hash.now role)
        (λ role. Suits L.BlockStore K.BlockStore S.BlockStore H.BlockStore tree.now
        local_data.now local_hash.now source_data.now source_hash.now role → ⊥) }
{
    let data_size = tree.table().data_block_size();
    let hash_size = tree.table().hash_block_size();
    if !is_suited(local_data, data_size, 0) {
        return Some(Role::LocalData);
    }
    if !is_suited(local_hash, hash_size, 0) {
        return Some(Role::LocalHash);
    }
    if !is_suited(source_data, data_size, tree.table().data_blocks()) {
        return Some(Role::SourceData);
    }
    if !is_suited(source_hash, hash_size, tree.end()) {
        return Some(Role::SourceHash);
    }
    None
}

/// The first of the stores that isn't one of a table line, if there is one, where the local ones are to be as long as the volume too.
/// Nothing is read.
pub(crate) fn unsuited_over<
    L: BlockStore,
    K: BlockStore,
    S: BlockStore,
    H: BlockStore,
    A: Allocator,
>(tree: &Tree<A>, local_data: &L, local_hash: &K, source_data: &S, source_hash: &H) -> Option<Role>
    ensures { MatchOption result
        ((role : Role) → SuitsOver L.BlockStore K.BlockStore S.BlockStore H.BlockStore tree.now
        local_data.now local_hash.now source_data.now source_hash.now role)
        (λ role. SuitsOver L.BlockStore K.BlockStore S.BlockStore H.BlockStore tree.now
        local_data.now local_hash.now source_data.now source_hash.now role → ⊥) }
{
    let data_size = tree.table().data_block_size();
    let hash_size = tree.table().hash_block_size();
    let blocks = tree.table().data_blocks();
    if !is_suited(local_data, data_size, blocks) {
        return Some(Role::LocalData);
    }
    if !is_suited(local_hash, hash_size, tree.end()) {
        return Some(Role::LocalHash);
    }
    if !is_suited(source_data, data_size, blocks) {
        return Some(Role::SourceData);
    }
    if !is_suited(source_hash, hash_size, tree.end()) {
        return Some(Role::SourceHash);
    }
    None
}
