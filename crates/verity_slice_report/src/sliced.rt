//! The report of a slice.
ghost use Rattle.std.specs.Prelude.{◌≡◌, ◌↔◌, ◌≤◌, length, IfOk, IfSome, IsSome, IsTrue};
ghost use Rattle.verity_slice.specs.Slices.{run_of};
ghost use Rattle.verity_chain.specs.Table.{IsTable, shape_of};
ghost use Rattle.verity_chain.specs.Stores.{IsHashStoreOf};
ghost use Rattle.verity_report.specs.Stores.{IsDataStoreOf};
ghost use Rattle.verity_slice_report.specs.Sliced.{AreStoresOf, IsSliceRead, IsSliceReport};

use crate::kept::{kept_of, unchecked_of};
use crate::portions::runs_above_of;
use std::alloc::{AllocError, Global};
use verity_chain::{Tree, geometry_of};
use verity_geometry::Geometry;
use verity_portion::Portion;
use verity_report::{Faults, Report, check_all, longest_run};
use verity_slice::{Run, Slice};
use verity_store::BlockStore;
use verity_superblock::Table;

// What is wrong in the whole volume, where the blocks of the slice alone are read, and any other is taken to be zeros. `blocks` has room
// for the data blocks that are hashed side by side, one at least.
fn read_slice<D: BlockStore + Drop, H: BlockStore + Drop>(
    alloc: Global,
    tree: &mut Tree,
    data_store: D,
    hash_store: H,
    run: Run,
    hash_block: &mut [u8],
    blocks: &mut [u8],
) -> Result<Report, AllocError>
    requires allowed { IsTable tree.old }
    requires data_store { IsDataStoreOf D.BlockStore tree.old data_store }
    requires hash_store { IsHashStoreOf H.BlockStore tree.old hash_store }
    requires within { run.end ≤ tree.old.data_blocks }
    requires data_room { tree.old.data_block_size ≤ length blocks.old }
    requires hash_whole { length hash_block.old ≡ tree.old.hash_block_size }
    ensures read { IfOk result (λ whole. IsSliceRead D.BlockStore H.BlockStore tree.old run data_store hash_store whole.faults) }
    ensures same { tree.new ≡ tree.old }
{
    let shown = vec![in alloc; run]?;
    let above = runs_above_of(alloc, tree, run)?;
    let mut data = Portion::new(data_store, shown);
    let mut hash = Portion::new(hash_store, above);
    let whole = check_all(tree, &mut data, &mut hash, hash_block, blocks, alloc)?;
    let _data_store = data.store();
    let _hash_store = hash.store();
    Ok(whole)
}

// The report of a slice over two stores that are those of the table line.
fn report_run<D: BlockStore + Drop, H: BlockStore + Drop>(
    alloc: Global,
    table: Table,
    geometry: Geometry,
    data_store: D,
    hash_store: H,
    run: Run,
) -> Result<Report, AllocError>
    requires shape { geometry ≡ shape_of table }
    requires data_store { IsDataStoreOf D.BlockStore table data_store }
    requires hash_store { IsHashStoreOf H.BlockStore table hash_store }
    requires within { run.end ≤ table.data_blocks }
    ensures { IfOk result (λ report. IsSliceReport D.BlockStore H.BlockStore table run data_store hash_store
        report.faults report.unchecked) }
{
    let mut hash_block = vec![in alloc; 0; geometry.hash_size()]?;
    let mut blocks = vec![in alloc; 0; longest_run(geometry.data_size())]?;
    let mut tree = Tree::new(alloc, table, geometry)?;
    let _table = tree.table();
    let whole = read_slice(
        alloc,
        &mut tree,
        data_store,
        hash_store,
        run,
        &mut hash_block,
        &mut blocks,
    )?;
    let kept = kept_of(alloc, &tree, run, whole.faults.as_slice())?;
    let unchecked = unchecked_of(&tree, run, &kept);
    Ok(Report {
        faults: Faults::new(kept),
        unchecked,
    })
}

// Whether the stores have the table line's block sizes, and the blocks of the volume and of its tree.
fn are_stores_of<D: BlockStore, H: BlockStore>(
    table: &Table,
    geometry: &Geometry,
    data_store: &D,
    hash_store: &H,
) -> bool
    requires { geometry.now ≡ shape_of table.now }
    ensures { IsTrue result ↔ AreStoresOf D.BlockStore H.BlockStore table.now data_store.now hash_store.now }
{
    let total = geometry.total();
    data_store.block_size() == table.data_block_size()
        && hash_store.block_size() == table.hash_block_size()
        && table.data_blocks() <= data_store.len()
        && (total == 0 || table.hash_start_block() + total <= hash_store.len())
}

/// Looks at each data block of a slice of the volume that a table line describes, and at each hash block above one, and names what is
/// wrong: the top level first, level 0, then the data blocks, each by rising index. It reads each of these places at most once, and none
/// below one that is bad or couldn't be read; such a place is counted as unchecked. It reads no other block of either store. It hashes each
/// block that it read, and zeros in place of those beside the slice whose parent is in it. It takes memory for a hash block a level, for
/// the data blocks that are hashed side by side, and for the places that it names, those beside the slice among them. The stores are
/// dropped.
///
/// None where a store's block size isn't the table line's, the data store has fewer blocks than the volume, or the volume has hash blocks
/// and the hash store ends before the last. A slice of no data block has no place, and then nothing is read.
pub fn report_slice<D: BlockStore + Drop, H: BlockStore + Drop>(
    alloc: Global,
    table: Table,
    data_store: D,
    hash_store: H,
    slice: Slice,
) -> Result<Option<Report>, AllocError>
    ensures reported { IfOk result (λ found. IfSome found (λ report. IsSliceReport D.BlockStore H.BlockStore table
        (run_of slice table.data_blocks) data_store hash_store report.faults report.unchecked)) }
    ensures suits { IfOk result (λ found. IsSome found ↔ AreStoresOf D.BlockStore H.BlockStore table data_store hash_store) }
{
    let geometry = geometry_of(&table);
    if !are_stores_of(&table, &geometry, &data_store, &hash_store) {
        return Ok(None);
    }
    let run = slice.run(geometry.blocks());
    let report = report_run(alloc, table, geometry, data_store, hash_store, run)?;
    Ok(Some(report))
}
