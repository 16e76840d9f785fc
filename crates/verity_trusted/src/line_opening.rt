//! What is found when a volume is opened under a table line.
ghost use Rattle.std.specs.Prelude.{◌≡◌, ◌+◌, ◌-◌, ◌<◌, ◌≤◌, true, length, ◌⊎◌, IfErr, IfOk, OnOk, OnErr};
ghost use Rattle.verity_geometry.specs.Geometry.{total_of};
ghost use Rattle.verity_store.specs.Stores.{IsOnlyRead};
ghost use Rattle.verity_superblock.specs.Superblock.{salted};
ghost use Rattle.verity_chain.specs.Table.{tree_len};
ghost use Rattle.verity_edit.specs.Faults.{ReadsOrFails};
ghost use Rattle.verity_edit.specs.Opening.{IsVolume, FitsVolume};
ghost use Rattle.verity_trusted.specs.Line.{IsLineOf, ExplainsEnd, ExplainsUnder, front_block};

use std::alloc::Allocator;
use verity_chain::{Tree, geometry_of};
use verity_digest::Hasher;
use verity_edit::{check_stores, hasher_of, read_superblock};
use verity_plan::EditFault;
use verity_store::BlockStore;
use verity_superblock::{Superblock, Table};

/// A volume that was found under a table line.
#[derive(Drop)]
pub struct FoundLine<A: Allocator> {
    /// Its superblock.
    pub superblock: Superblock<A>,
    /// The tree of the line.
    pub tree: Tree<A>,
    /// What makes its digests.
    pub hasher: Hasher<A>,
}

/// Whether a table line is that of a superblock: the sizes, the count, the algorithm and the salt. E13.
fn check_line<A: Allocator>(table: &Table<A>, superblock: &Superblock<A>) -> Result<(), EditFault>
    ensures line { OnOk result (IsLineOf table.now superblock.now) }
    ensures other { OnErr result (¬ (IsLineOf table.now superblock.now)) }
    ensures fault { IfErr result (λ fault. fault ≡ EditFault.Line) }
{
    if table.data_block_size() != superblock.data_block_size()
        || table.hash_block_size() != superblock.hash_block_size()
        || table.data_blocks() != superblock.data_blocks()
    {
        return Err(EditFault::Line);
    }
    if table.algorithm() != superblock.algorithm()
        || table.salt().bytes() != superblock.salt().bytes()
    {
        return Err(EditFault::Line);
    }
    Ok(())
}

/// The tree of a table line. E5.
pub fn tree_of<A: Allocator + Copy>(alloc: A, table: Table<A>) -> Result<Tree<A>, EditFault>
    ensures value { IfOk result (λ tree. tree ≡ table) }
    ensures fault { IfErr result (λ fault. fault ≡ EditFault.NoMemory) }
{
    let geometry = geometry_of(&table);
    match Tree::new(alloc, table, geometry) {
        Ok(tree) => Ok(tree),
        Err(_) => Err(EditFault::NoMemory),
    }
}

/// Whether the tree of a line has its place in a hash store. E14 with the first block that isn't there.
fn check_end<H: BlockStore, A: Allocator>(hash_store: &H, tree: &Tree<A>) -> Result<(), EditFault>
    requires begins { tree.now.hash_start_block ≤ length (H.content hash_store.now) }
    ensures within { OnOk result (tree.now.hash_start_block + tree_len tree.now ≤ length (H.content hash_store.now)) }
    ensures refused { IfErr result (ExplainsEnd tree.now (length (H.content hash_store.now))) }
{
    let len = hash_store.len();
    if tree.end() <= len {
        return Ok(());
    }
    let (level, index) = tree.locate(len);
    Err(EditFault::Untrusted { level, index })
}

/// The tree of a line that has its place in a hash store, and what makes its digests. E14, and E5 where it is met.
fn tree_and_hasher<H: BlockStore, A: Allocator + Copy>(
    alloc: A,
    hash_store: &H,
    table: Table<A>,
    superblock: &Superblock<A>,
) -> Result<(Tree<A>, Hasher<A>), EditFault>
    requires begins { table.hash_start_block ≤ length (H.content hash_store.now) }
    ensures tree { IfOk result (λ made. made.0 ≡ table) }
    ensures within { OnOk result (table.hash_start_block + tree_len table ≤ length (H.content hash_store.now)) }
    ensures hasher { IfOk result (λ made. made.1.salted ≡ salted superblock.now.params) }
    ensures refused { IfErr result (λ fault. (fault ≡ EditFault.NoMemory) ⊎ ExplainsEnd table (length (H.content hash_store.now)) fault) }
{
    let tree = tree_of(alloc, table)?;
    check_end(hash_store, &tree)?;
    let hasher = hasher_of(alloc, superblock)?;
    Ok((tree, hasher))
}

/// Finds the volume of a table line, whose superblock stands in front of the line's tree. It reads that block alone. E13, E9,
/// E13, E11, E10, E14, the first that applies; E5 and E6 where they are met.
pub fn find_line<D: BlockStore, H: BlockStore, A: Allocator + Copy>(
    alloc: A,
    data_store: &D,
    hash_store: &mut H,
    table: Table<A>,
) -> Result<FoundLine<A>, EditFault>
    ensures tree { IfOk result (λ found. found.tree ≡ table) }
    ensures volume { IfOk result (λ found. H.tells hash_store.old ≡ true
        → IsVolume (front_block table (H.content hash_store.old)) found.superblock) }
    ensures line { IfOk result (λ found. IsLineOf table found.superblock) }
    ensures behind { OnOk result (1 ≤ table.hash_start_block) }
    ensures fits { IfOk result (λ found. FitsVolume found.superblock (D.size data_store.now) (H.size hash_store.old)
        (length (D.content data_store.now))) }
    ensures within { OnOk result (table.hash_start_block + tree_len table ≤ length (H.content hash_store.old)) }
    ensures hasher { IfOk result (λ found. found.hasher.salted ≡ salted found.superblock.params) }
    ensures fault { IfErr result (ExplainsUnder table (D.size data_store.now) (H.size hash_store.old) (length (D.content data_store.now))
        (H.content hash_store.old) (H.tells hash_store.old ≡ true) (H.failures hash_store.old < H.failures hash_store.new)) }
    ensures fails { ReadsOrFails result (H.failures hash_store.old) (H.failures hash_store.new) }
    ensures reads { H.reads hash_store.new ≤ H.reads hash_store.old + 1 }
    ensures hash_store { IsOnlyRead H.BlockStore hash_store.old hash_store.new }
{
    let first = table.hash_start_block();
    if first == 0 {
        return Err(EditFault::Line);
    }
    let superblock = read_superblock(alloc, hash_store, first)?;
    superblock.facts();
    check_line(&table, &superblock)?;
    check_stores(data_store, hash_store, &superblock)?;
    let (tree, hasher) = tree_and_hasher(alloc, hash_store, table, &superblock)?;
    Ok(FoundLine {
        superblock,
        tree,
        hasher,
    })
}
