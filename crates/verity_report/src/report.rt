//! The report: every place of a volume, in one walk over its data blocks.
ghost use Rattle.std.specs.Prelude.{◌≡◌, ℕ, ◌+◌, ◌≤◌, OnOk, IfOk, List, [], length};
ghost use Rattle.verity_store.specs.Stores.{IsOnlyRead};
ghost use Rattle.verity_chain.specs.Table.{IsTable, height, tree_len};
ghost use Rattle.verity_chain.specs.Stores.{IsHashStoreOf};
ghost use Rattle.verity_report.specs.Report.{IsReportOf, IsReportGiven};
ghost use Rattle.verity_report.specs.Stores.{BothTell, held_in, IsDataStoreOf, GivesOwn, gave_between, given_between, listed_in};
ghost use Rattle.verity_report.specs.Descent.{AreRows, AreSeenTo, IsSoFar, known, seen_in, faults_below};

use crate::descent::go_down;
use crate::finding::Verdict;
use crate::row::Row;
use crate::siblings::look_at_run;
use std::alloc::{AllocError, Allocator, Global};
use std::marker::Model;
use verity_chain::{Place, Tree};
use verity_store::BlockStore;

/// The places that a report names, each with its verdict: the top level first, level 0, then the data blocks, each by
/// rising index. A contract sees the list.
#[derive(Drop)]
pub struct Faults<A: Allocator = Global> {
    items: Vec<(Place, Verdict), A>,
}

impl<A: Allocator> Model for Faults<A> {
    ghost use Rattle.std.specs.Prelude.{List};
    ghost use Rattle.verity_chain.specs.declared.place.Place.{Place};
    ghost use Rattle.verity_report.specs.declared.finding.Verdict.{Verdict};

    ghost Value = { List (Place × Verdict) };

    ghost view = { λ f. f.items.items };
}

impl<A: Allocator> Faults<A> {
    /// The list of these. It takes no memory.
    pub fn new(items: Vec<(Place, Verdict), A>) -> Self
        ensures { result ≡ items.items }
    {
        Faults { items }
    }

    /// The list as a slice.
    pub fn as_slice(&self) -> &[(Place, Verdict)]
        ensures { result.now ≡ self.now }
    {
        self.items.as_slice()
    }
}

/// What is wrong in a volume.
#[derive(Drop)]
pub struct Report<A: Allocator = Global> {
    /// The places that are bad or couldn't be read.
    pub faults: Faults<A>,
    /// How many places lie below such a place, hash blocks and data blocks alike. They weren't read.
    pub unchecked: u64,
}

/// The rows of a volume, of which nothing was looked at. They take memory for a hash block a level.
fn rows_of<A: Allocator + Copy>(tree: &Tree<A>, alloc: A) -> Result<Vec<Row<A>, A>, AllocError>
    ensures rows { IfOk result (λ rows. AreRows tree.now rows.items) }
    ensures seen { IfOk result (λ rows. (r : ℕ) → r ≤ height tree.now → seen_in rows.items r ≡ 0) }
    ensures faults { IfOk result (λ rows. (r : ℕ) → r ≤ height tree.now → (known rows.items r).faults ≡ []) }
{
    let levels = tree.levels();
    let size = tree.table().hash_block_size();
    let mut rows = Vec::with_capacity(alloc, levels + 1)?;
    let first = Row::new(alloc, 0)?;
    rows.push(first)?;
    for _ in 0..levels {
        let row = Row::new(alloc, size)?;
        rows.push(row)?;
    }
    Ok(rows)
}

/// The places that the rows list, the top level's first.
fn joined<A: Allocator + Copy>(
    alloc: A,
    rows: &[Row<A>],
) -> Result<Vec<(Place, Verdict), A>, AllocError>
    ensures { IfOk result (λ faults. faults.items ≡ faults_below rows.now (length rows.now)) }
{
    let mut faults = Vec::new(alloc);
    let mut row = rows.len();
    while row > 0 {
        row -= 1;
        let here = &rows[row];
        faults.extend_from_slice(here.faults())?;
    }
    Ok(faults)
}

/// Looks at every place of the volume: at the data blocks by rising number, a run of them at a time, and before each run at the
/// hash blocks above it that weren't looked at, from the top down. Answers how many places weren't checked.
fn go_through<D: BlockStore, H: BlockStore, A: Allocator>(
    tree: &mut Tree<A>,
    data_store: &mut D,
    hash_store: &mut H,
    hash_block: &mut [u8],
    run: &mut [u8],
    rows: &mut [Row<A>],
) -> Result<u64, AllocError>
    requires allowed { IsTable tree.old }
    requires data_store { IsDataStoreOf D.BlockStore tree.old data_store.old }
    requires hash_store { IsHashStoreOf H.BlockStore tree.old hash_store.old }
    requires data_room { tree.old.data_block_size ≤ length run.old }
    requires hash_whole { length hash_block.old ≡ tree.old.hash_block_size }
    requires rows { AreRows tree.old rows.old }
    requires unseen { (r : ℕ) → r ≤ height tree.old → seen_in rows.old r ≡ 0 }
    requires unlisted { (r : ℕ) → r ≤ height tree.old → (known rows.old r).faults ≡ [] }
    ensures rows { OnOk result (AreRows tree.old rows.new) }
    ensures seen { OnOk result (AreSeenTo tree.old tree.old.data_blocks rows.new) }
    ensures found { IfOk result (λ unchecked. IsSoFar tree.old (listed_in tree.old
        (gave_between D.BlockStore data_store.old data_store.new) (gave_between H.BlockStore hash_store.old hash_store.new))
        rows.new unchecked
        (D.failures data_store.old + H.failures hash_store.old) (D.failures data_store.new + H.failures hash_store.new)) }
    ensures data_own { GivesOwn D.BlockStore data_store.old data_store.new }
    ensures hash_own { GivesOwn H.BlockStore hash_store.old hash_store.new }
    ensures counted { IfOk result (λ unchecked. unchecked + (D.reads data_store.new + H.reads hash_store.new)
        ≡ D.reads data_store.old + H.reads hash_store.old + (tree_len tree.old + tree.old.data_blocks)) }
    ensures data_keeps { IsOnlyRead D.BlockStore data_store.old data_store.new }
    ensures hash_keeps { IsOnlyRead H.BlockStore hash_store.old hash_store.new }
    ensures same { tree.new ≡ tree.old }
{
    let count = tree.table().data_blocks();
    let mut unchecked = 0;
    let mut n = 0;
    while n < count {
        go_down(tree, hash_store, hash_block, n, rows, &mut unchecked)?;
        let next = look_at_run(tree, data_store, run, n, rows, &mut unchecked)?;
        n = next;
    }
    Ok(unchecked)
}

/// Looks at every place of the volume. `run` has room for the data blocks that are hashed side by side, one at least.
pub fn check_all<D: BlockStore, H: BlockStore, A: Allocator + Copy + Drop>(
    tree: &mut Tree<A>,
    data_store: &mut D,
    hash_store: &mut H,
    hash_block: &mut [u8],
    run: &mut [u8],
    alloc: A,
) -> Result<Report<A>, AllocError>
    requires allowed { IsTable tree.old }
    requires data_store { IsDataStoreOf D.BlockStore tree.old data_store.old }
    requires hash_store { IsHashStoreOf H.BlockStore tree.old hash_store.old }
    requires data_room { tree.old.data_block_size ≤ length run.old }
    requires hash_whole { length hash_block.old ≡ tree.old.hash_block_size }
    ensures given { IfOk result (λ report. IsReportGiven tree.old
        (given_between D.BlockStore H.BlockStore tree.old data_store.old hash_store.old data_store.new hash_store.new)
        report.faults report.unchecked
        (D.failures data_store.old + H.failures hash_store.old) (D.failures data_store.new + H.failures hash_store.new)) }
    ensures told { BothTell D.BlockStore H.BlockStore data_store.old hash_store.old
        → IfOk result (λ report. IsReportOf tree.old (held_in D.BlockStore H.BlockStore tree.old data_store.old hash_store.old)
        report.faults report.unchecked
        (D.failures data_store.old + H.failures hash_store.old) (D.failures data_store.new + H.failures hash_store.new)) }
    ensures counted { IfOk result (λ report. report.unchecked + (D.reads data_store.new + H.reads hash_store.new)
        ≡ D.reads data_store.old + H.reads hash_store.old + (tree_len tree.old + tree.old.data_blocks)) }
    ensures data_keeps { IsOnlyRead D.BlockStore data_store.old data_store.new }
    ensures hash_keeps { IsOnlyRead H.BlockStore hash_store.old hash_store.new }
    ensures same { tree.new ≡ tree.old }
{
    let mut blank = rows_of(tree, alloc)?;
    let rows = blank.as_mut_slice();
    let unchecked = go_through(tree, data_store, hash_store, hash_block, run, rows)?;
    let faults = joined(alloc, rows)?;
    Ok(Report {
        faults: Faults::new(faults),
        unchecked,
    })
}
