//! The command `verify --slice`: reports what is wrong in a slice of a volume.

ghost use Rattle.std.specs.Prelude.{◌^◌, ◌-◌, ◌≡◌, true, IfOk, IfErr};
ghost use Rattle.cli_faults.specs.Errors.{IsS1For};
ghost use Rattle.os_commit_flag.specs.Refusals.{BlamesNone};
ghost use Rattle.cli_serve.specs.Opening.{LiesAt};
ghost use Rattle.verity_slice.specs.Slices.{run_of};
ghost use Rattle.verity_slice_report.specs.Sliced.{IsSliceReport};
ghost use Rattle.cli_serve.specs.Blamed.{SliceBlames};
ghost use Rattle.cli_serve.specs.Sliced.{IsSliceFound, IsSlicePrinted};

use crate::opened::open_stores;
use crate::verifying::print_report;
use cli_arguments::{VerifyWords, slice};
use cli_faults::{Command, Failure};
use cli_volume::{end_progress, is_watched, progress_of};
use os_files::System;
use os_progress::Watched;
use std::alloc::Global;
use std::io::{Eprint, IsTerminal, Write};
use std::time::Clock;
use verity_check::{CheckFault, Report};
use verity_slice::Slice;
use verity_slice_report::report_slice;
use verity_store::BlockStore;
use verity_superblock::Table;

/// Reads the data blocks of one slice of the volume that a table line names, and the hash blocks above them, and prints which of these are
/// bad or can't be read. Where `errors` is a terminal, it shows how much of the data device was read.
pub fn verify_slice<R: Clock + Eprint + AllocGlobal, S: System, W: Write, E: IsTerminal>(
    rt: &R,
    system: &S,
    words: &VerifyWords<'_>,
    asked: &str,
    output: &mut W,
    errors: &E,
) -> Result<u8, Failure>
    ensures reported { IfOk result (λ status. IsSlicePrinted S.Store.BlockStore S.Store.BlockStore words.now.table.now asked.now
        (λ table image device. LiesAt S.System system.now table.dev table.data_blocks image
        × LiesAt S.System system.now table.hash_dev (2 ^ 64 - 1) device)
        status (W.contents output.old) (W.contents output.new)) }
    ensures blames { IfErr result SliceBlames }
    ensures system { IfErr result (IsS1For (S.refuses system.now ≡ true)) }
{
    let slice = slice(asked)?;
    let report = report_of_slice(rt, system, words, slice, errors)?;
    print_report(&report, output)
}

fn report_of_slice<R: Clock + Eprint + AllocGlobal, S: System, E: IsTerminal>(
    rt: &R,
    system: &S,
    words: &VerifyWords<'_>,
    slice: Slice,
    errors: &E,
) -> Result<Report, Failure>
    ensures found { IfOk result (λ report. IsSliceFound S.Store.BlockStore S.Store.BlockStore words.now.table.now slice
        (λ table image device. LiesAt S.System system.now table.dev table.data_blocks image
        × LiesAt S.System system.now table.hash_dev (2 ^ 64 - 1) device)
        report.faults report.unchecked) }
    ensures blames { IfErr result BlamesNone }
    ensures system { IfErr result (IsS1For (S.refuses system.now ≡ true)) }
{
    let table = Table::parse(rt.alloc(), words.table)?;
    let (data_store, hash_store) = open_stores(system, &table, Command::Verify)?;
    let progress = progress_of(
        rt,
        is_watched(words.is_quiet, errors.is_terminal()),
        &data_store,
    );
    let watched = Watched::new(data_store, progress.as_ref());
    let report = checked_slice(rt.alloc(), table, watched, hash_store, slice);
    end_progress(progress.as_ref());
    report
}

/// Checks each block of a slice.
fn checked_slice<D: BlockStore + Drop, H: BlockStore + Drop>(
    alloc: Global,
    table: Table,
    data_store: D,
    hash_store: H,
    slice: Slice,
) -> Result<Report, Failure>
    ensures reported { IfOk result (λ report. IsSliceReport D.BlockStore H.BlockStore table (run_of slice table.data_blocks)
        data_store hash_store report.faults report.unchecked) }
    ensures blames { IfErr result BlamesNone }
    ensures system { IfErr result (IsS1For ⊥) }
{
    let found = report_slice(alloc, table, data_store, hash_store, slice)?;
    match found {
        Some(report) => Ok(report),
        None => Err(Failure::from(CheckFault::Lengths)),
    }
}
