//! The next run of data blocks of a range, or the block of which a part is taken.
ghost use Rattle.std.specs.Prelude.{◌≡◌, ◌≢◌, ℕ, ◌+◌, ◌-◌, ◌*◌, ◌/◌, ◌^◌, ◌<◌, ◌≤◌, ◌↔◌, ◌⊎◌, List, length, IsTrue, IsFalse, OnOk, IfErr};
ghost use Rattle.verity_store.specs.Blocks.{cut};
ghost use Rattle.verity_store.specs.Stores.{IsOnlyRead};
ghost use Rattle.verity_chain.specs.Table.{IsTable, height};
ghost use Rattle.verity_chain.specs.Chain.{EndsChain};
ghost use Rattle.verity_chain.specs.Stores.{hash_given, IsHashStoreOf};
ghost use Rattle.verity_report.specs.Stores.{given_in, IsDataStoreOf};
ghost use Rattle.verity_check.specs.Cache.{IsChained, IsKept, AreKept};
ghost use Rattle.verity_check.specs.Range.{Served};
ghost use Rattle.verity_check.specs.Refusal.{Explains, RefusesOneOf};

use crate::CheckFault;
use crate::cache::Cache;
use crate::data_cache::{DataCache, recall_block, remember_block};
use crate::run::read_run;
use crate::since::Since;
use crate::walk::read_checked;
use std::alloc::Allocator;
use verity_chain::Tree;
use verity_store::BlockStore;

/// How many data blocks the next run of a range has at most, where `skip` bytes of its first block are passed over and `left` bytes are to
/// come: all that are left. With a data cache it is one where a part of it is taken, and else those alone that are taken whole.
pub(crate) fn blocks_at_most(has_cache: bool, size: usize, skip: usize, left: usize) -> u64
    requires size { 0 < size }
    requires skip { skip < size }
    requires left { 0 < left }
    requires small { skip + left ≤ 2 ^ 63 }
    ensures some { 0 < result }
    ensures most { result ≤ (skip + left - 1) / size + 1 }
    ensures all { IsFalse has_cache → result ≡ (skip + left - 1) / size + 1 }
    ensures part { IsTrue has_cache → (0 < skip) ⊎ (left < size) → result ≡ 1 }
    ensures whole { IsTrue has_cache → skip ≡ 0 → size ≤ left → result ≡ left / size }
{
    if !has_cache {
        return ((skip + left - 1) / size) as u64 + 1;
    }
    if skip > 0 || left < size {
        return 1;
    }
    (left / size) as u64
}

/// Whether the next run is one block of which a part is taken, and there is a data cache to look for it in.
pub(crate) fn takes_part(
    has_cache: bool,
    count: usize,
    size: usize,
    skip: usize,
    left: usize,
) -> bool
    ensures { IsTrue result ↔ (IsTrue has_cache × (count ≡ 1) × ((0 < skip) ⊎ (left < size))) }
{
    has_cache && count == 1 && (skip > 0 || left < size)
}

/// Copies data block `n` into `block` from the data cache, where that has it, and then nothing is read; else reads it, checks it along its
/// path, and keeps it there once it was right.
fn read_part<D: BlockStore, H: BlockStore, A: Allocator + Copy + Drop>(
    tree: &mut Tree<A>,
    data_store: &mut D,
    hash_store: &mut H,
    hash_block: &mut [u8],
    block: &mut [u8],
    cache: &mut Cache<A>,
    data_cache: &mut Option<DataCache<A>>,
    alloc: A,
    since: &Since,
    n: u64,
) -> Result<(), CheckFault>
    requires allowed { IsTable tree.old }
    requires data_store { IsDataStoreOf D.BlockStore tree.old data_store.old }
    requires hash_store { IsHashStoreOf H.BlockStore tree.old hash_store.old }
    requires data_whole { length block.old ≡ tree.old.data_block_size }
    requires hash_whole { length hash_block.old ≡ tree.old.hash_block_size }
    requires data_since { since.now.of_data ≤ length (D.given data_store.old) }
    requires hash_since { since.now.of_hash ≤ length (H.given hash_store.old) }
    requires chained { IsChained tree.old (hash_given H.BlockStore tree.old since.now.of_hash hash_store.old) cache.old }
    requires kept { AreKept tree.old (given_in D.BlockStore H.BlockStore tree.old since.now data_store.old hash_store.old) data_cache.old }
    requires below { n < tree.old.data_blocks }
    ensures ok { OnOk result (EndsChain tree.old (given_in D.BlockStore H.BlockStore tree.old since.now data_store.new hash_store.new) 0 n
        block.new) }
    ensures err { IfErr result (Explains tree.old (given_in D.BlockStore H.BlockStore tree.old since.now data_store.new hash_store.new)
        (D.failures data_store.old < D.failures data_store.new) (H.failures hash_store.old < H.failures hash_store.new) n) }
    ensures memory { IfErr result (λ fault. fault ≢ CheckFault.NoMemory) }
    ensures spared { (b : List ℕ) → IsKept data_cache.old n b → (D.reads data_store.new ≡ D.reads data_store.old)
        × (H.reads hash_store.new ≡ H.reads hash_store.old) }
    ensures chained { IsChained tree.old (hash_given H.BlockStore tree.old since.now.of_hash hash_store.new) cache.new }
    ensures kept { AreKept tree.old (given_in D.BlockStore H.BlockStore tree.old since.now data_store.new hash_store.new) data_cache.new }
    ensures data_keeps { IsOnlyRead D.BlockStore data_store.old data_store.new }
    ensures hash_keeps { IsOnlyRead H.BlockStore hash_store.old hash_store.new }
    ensures data_reads { D.reads data_store.new ≤ D.reads data_store.old + 1 }
    ensures hash_reads { H.reads hash_store.new ≤ H.reads hash_store.old + height tree.old }
    ensures same { tree.new ≡ tree.old }
{
    if recall_block(data_cache, n, block) {
        return Ok(());
    }
    if let Err(fault) = read_checked(
        tree, data_store, hash_store, hash_block, block, cache, alloc, since, n,
    ) {
        return Err(fault);
    }
    remember_block(data_cache, alloc, n, block);
    Ok(())
}

/// Fills `run`, which has the bytes of `count` data blocks, with those from `n` on, each of which was checked: with a block of which a part
/// is taken by way of the data cache, and else with a run of blocks that the data cache has no part in.
pub(crate) fn read_next<D: BlockStore, H: BlockStore, A: Allocator + Copy + Drop>(
    tree: &mut Tree<A>,
    data_store: &mut D,
    hash_store: &mut H,
    hash_block: &mut [u8],
    run: &mut [u8],
    cache: &mut Cache<A>,
    data_cache: &mut Option<DataCache<A>>,
    alloc: A,
    since: &Since,
    n: u64,
    count: usize,
    is_part: bool,
) -> Result<(), CheckFault>
    requires allowed { IsTable tree.old }
    requires data_store { IsDataStoreOf D.BlockStore tree.old data_store.old }
    requires hash_store { IsHashStoreOf H.BlockStore tree.old hash_store.old }
    requires few { count ≤ 128 }
    requires single { IsTrue is_part → count ≡ 1 }
    requires run_whole { length run.old ≡ count * tree.old.data_block_size }
    requires hash_whole { length hash_block.old ≡ tree.old.hash_block_size }
    requires data_since { since.now.of_data ≤ length (D.given data_store.old) }
    requires hash_since { since.now.of_hash ≤ length (H.given hash_store.old) }
    requires chained { IsChained tree.old (hash_given H.BlockStore tree.old since.now.of_hash hash_store.old) cache.old }
    requires kept { AreKept tree.old (given_in D.BlockStore H.BlockStore tree.old since.now data_store.old hash_store.old) data_cache.old }
    requires below { n + count ≤ tree.old.data_blocks }
    ensures ok { OnOk result (Served tree.old (given_in D.BlockStore H.BlockStore tree.old since.now data_store.new hash_store.new) n
        (cut tree.old.data_block_size count run.new)) }
    ensures err { IfErr result (RefusesOneOf tree.old (given_in D.BlockStore H.BlockStore tree.old since.now data_store.new hash_store.new)
        (D.failures data_store.old < D.failures data_store.new) (H.failures hash_store.old < H.failures hash_store.new) n count) }
    ensures memory { IfErr result (λ fault. fault ≢ CheckFault.NoMemory) }
    ensures spared { IsTrue is_part → (b : List ℕ) → IsKept data_cache.old n b → (D.reads data_store.new ≡ D.reads data_store.old)
        × (H.reads hash_store.new ≡ H.reads hash_store.old) }
    ensures untouched { IsFalse is_part → data_cache.new ≡ data_cache.old }
    ensures chained { IsChained tree.old (hash_given H.BlockStore tree.old since.now.of_hash hash_store.new) cache.new }
    ensures kept { AreKept tree.old (given_in D.BlockStore H.BlockStore tree.old since.now data_store.new hash_store.new) data_cache.new }
    ensures data_keeps { IsOnlyRead D.BlockStore data_store.old data_store.new }
    ensures hash_keeps { IsOnlyRead H.BlockStore hash_store.old hash_store.new }
    ensures data_reads { D.reads data_store.new ≤ D.reads data_store.old + count }
    ensures hash_reads { H.reads hash_store.new ≤ H.reads hash_store.old + count * height tree.old }
    ensures same { tree.new ≡ tree.old }
{
    if is_part {
        return read_part(
            tree, data_store, hash_store, hash_block, run, cache, data_cache, alloc, since, n,
        );
    }
    read_run(
        tree, data_store, hash_store, hash_block, run, cache, alloc, since, n, count,
    )
}
