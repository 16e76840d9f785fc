//! Runs of things in a row.
ghost use Rattle.std.specs.Prelude.{◌↔◌, IsTrue};
ghost use Rattle.std.specs.Prelude.{IsPermutation};
ghost use Rattle.verity_slice.specs.Slices.{Covers};

use std::alloc::Allocator;

/// Things in a row, from number `first` to before number `end`; none where `end` is no greater.
#[derive(Clone, Copy, Debug, PartialEq, Eq)]
pub struct Run {
    /// The number of the first.
    pub first: u64,
    /// The number behind the last.
    pub end: u64,
}

/// Whether each of the first `count` things is in one of the runs, or in several. The runs are put in the order of their first things.
pub fn cover<A: Allocator>(runs: &mut Vec<Run, A>, count: u64) -> bool
    ensures covered { IsTrue result ↔ Covers runs.old.items count }
    ensures moved { IsPermutation runs.old.items runs.new.items }
{
    runs.sort_unstable_by_key(|run| run.first);
    let mut reach = 0;
    for i in 0..runs.len() {
        let run = runs[i];
        if run.first <= reach && reach < run.end {
            reach = run.end;
        }
    }
    count <= reach
}
