//! What a report of the whole volume says of a slice.
ghost use Rattle.std.specs.Prelude.{◌≡◌, ◌+◌, ◌-◌, ◌^◌, ◌<◌, ◌≤◌, ◌↔◌, suc, true, All, IfOk, IsTrue};
ghost use Rattle.std.specs.List.{filter};
ghost use Rattle.verity_chain.specs.Table.{height, path_index};
ghost use Rattle.verity_slice_report.specs.Sliced.{IsBetween, is_of_place, is_of, children, below, below_place, unchecked_below};

use std::alloc::{AllocError, Global};
use verity_chain::{Place, Tree};
use verity_report::Verdict;
use verity_slice::Run;

// Whether a place of a row is one of the slice.
fn is_in_row(tree: &Tree, run: Run, row: usize, index: u64) -> bool
    requires row { row ≤ height tree.now }
    requires within { run.end ≤ tree.now.data_blocks }
    ensures { IsTrue result ↔ IsBetween tree.now run row index }
{
    run.first < run.end
        && tree.path_index(row, run.first) <= index
        && index <= tree.path_index(row, run.end - 1)
}

// Whether a place is one of the slice.
fn is_kept(tree: &Tree, run: Run, place: Place) -> bool
    requires { run.end ≤ tree.now.data_blocks }
    ensures { IsTrue result ↔ IsTrue (is_of_place tree.now run place) }
{
    match place {
        Place::Data(n) => is_in_row(tree, run, 0, n),
        Place::Hash { level, index } => {
            level < tree.levels() && is_in_row(tree, run, level + 1, index)
        }
    }
}

/// Of the places that a report of the whole volume names those of the slice, in their order. It takes memory for these.
pub fn kept_of(
    alloc: Global,
    tree: &Tree,
    run: Run,
    faults: &[(Place, Verdict)],
) -> Result<Vec<(Place, Verdict)>, AllocError>
    requires { run.end ≤ tree.now.data_blocks }
    ensures { IfOk result (λ kept. kept.items ≡ filter (is_of tree.now run) faults.now) }
{
    let mut kept = Vec::new(alloc);
    for fault in faults {
        if is_kept(tree, run, fault.0) {
            kept.push(*fault)?;
        }
    }
    Ok(kept)
}

// The places of the slice in a row that are children of these of the row above.
fn children_of(tree: &Tree, run: Run, row: usize, parents: Run) -> Run
    requires row { row < height tree.now }
    requires some { run.first < run.end }
    requires within { run.end ≤ tree.now.data_blocks }
    requires first { parents.first ≤ path_index tree.now (run.end - 1) (suc row) }
    ensures value { result ≡ children tree.now run row parents }
    ensures first { result.first ≤ path_index tree.now (run.end - 1) row }
    ensures few { result.end ≤ 2 ^ 40 }
{
    let _table = tree.table();
    let per_block = tree.siblings(0);
    let first = tree.path_index(row, run.first);
    let last = tree.path_index(row, run.end - 1);
    Run {
        first: first.max(parents.first * per_block),
        end: (last + 1).min(parents.end.saturating_mul(per_block)),
    }
}

// How many places of the slice lie below one of a level.
fn count_below(tree: &Tree, run: Run, level: usize, index: u64) -> u64
    requires level { level < height tree.now }
    requires some { run.first < run.end }
    requires within { run.end ≤ tree.now.data_blocks }
    requires index { index ≤ path_index tree.now (run.end - 1) (suc level) }
    ensures { result ≡ below tree.now run (suc level) (record { first = index; end = index + 1 }) }
{
    let _table = tree.table();
    let _levels = tree.levels();
    let mut places = Run {
        first: index,
        end: index + 1,
    };
    let mut count = 0;
    let mut row = level + 1;
    while row > 0 {
        row -= 1;
        places = children_of(tree, run, row, places);
        count += places.end.saturating_sub(places.first);
    }
    count
}

// How many places of the slice lie below one of the slice.
fn below_of(tree: &Tree, run: Run, place: Place) -> u64
    requires within { run.end ≤ tree.now.data_blocks }
    requires kept { is_of_place tree.now run place ≡ true }
    ensures { result ≡ below_place tree.now run place }
{
    match place {
        Place::Data(_) => 0,
        Place::Hash { level, index } => count_below(tree, run, level, index),
    }
}

/// How many places of the slice lie below those that its report names.
pub fn unchecked_of(tree: &Tree, run: Run, faults: &[(Place, Verdict)]) -> u64
    requires within { run.end ≤ tree.now.data_blocks }
    requires kept { All (λ fault. is_of tree.now run fault ≡ true) faults.now }
    ensures { result ≡ unchecked_below tree.now run faults.now }
{
    let mut unchecked: u64 = 0;
    for fault in faults {
        unchecked = unchecked.saturating_add(below_of(tree, run, fault.0));
    }
    unchecked
}
