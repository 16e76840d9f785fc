//! Which blocks of the hash store are those of a slice.
ghost use Rattle.std.specs.Prelude.{◌≡◌, ◌<◌, ◌≤◌, IfOk};
ghost use Rattle.verity_chain.specs.Table.{height};
ghost use Rattle.verity_slice_report.specs.Runs.{level_run, runs_above};

use std::alloc::{AllocError, Global};
use verity_chain::Tree;
use verity_slice::Run;

// The numbers in the hash store of the blocks of a level that are above data blocks of the run.
fn level_run_of(tree: &Tree, run: Run, level: usize) -> Run
    requires level { level < height tree.now }
    requires some { run.first < run.end }
    requires within { run.end ≤ tree.now.data_blocks }
    ensures { result ≡ level_run tree.now run level }
{
    let _end = tree.end();
    let first = tree.above(level, run.first);
    let last = tree.above(level, run.end - 1);
    Run {
        first: tree.hash_place(level, first),
        end: tree.hash_place(level, last) + 1,
    }
}

/// Where the hash blocks above a run of data blocks stand: a run of each level, and none above no data block. It takes memory for these.
#[tactic(auto, using(crate::proofs::RunLemmas::none_above, crate::proofs::RunLemmas::all_above))]
pub fn runs_above_of(alloc: Global, tree: &Tree, run: Run) -> Result<Vec<Run>, AllocError>
    requires { run.end ≤ tree.now.data_blocks }
    ensures { IfOk result (λ runs. runs.items ≡ runs_above tree.now run) }
{
    let mut runs = Vec::new(alloc);
    if run.first >= run.end {
        return Ok(runs);
    }
    for level in 0..tree.levels() {
        runs.push(level_run_of(tree, run, level))?;
    }
    Ok(runs)
}
