//! The command `verify`: reports what is wrong in a volume.

ghost use Rattle.std.specs.Prelude.{◌≡◌, ◌-◌, ◌^◌, true, ◌↔◌, [], OnOk, IfOk, IfErr};
ghost use Rattle.std.specs.Io.KnownBytes.{Appends};
ghost use Rattle.cli_volume.specs.Lines.{IsOfOutput};
ghost use Rattle.cli_faults.specs.Errors.{IsS1For};
ghost use Rattle.os_commit_flag.specs.Refusals.{BlamesNone};
ghost use Rattle.cli_serve.specs.Opening.{LiesAt};
ghost use Rattle.cli_serve.specs.Printed.{place_line, report_lines, IsFound, IsReported, IsReportOver};

use crate::opened::open_stores;
use cli_arguments::VerifyWords;
use cli_faults::{Command, DONE, Failure, REFUSED};
use cli_volume::{end_progress, is_watched, progress_of};
use os_files::System;
use os_progress::Watched;
use std::alloc::Global;
use std::io::{Eprint, IsTerminal, Write};
use std::time::Clock;
use verity_check::{Place, Report, Verdict, Verifier};
use verity_store::BlockStore;
use verity_superblock::Table;

/// How many checked hash blocks the verifier may keep. A report keeps none.
const CACHE: usize = 1024;

/// Reads each block of the volume that a table line names, and prints which are bad or can't be read. Where `errors` is a
/// terminal, it shows how much of the data device was read.
pub fn verify<R: Clock + Eprint + AllocGlobal, S: System, W: Write, E: IsTerminal>(
    rt: &R,
    system: &S,
    words: &VerifyWords<'_>,
    output: &mut W,
    errors: &E,
) -> Result<u8, Failure>
    ensures reported { IfOk result (λ status. IsReported S.Store.BlockStore S.Store.BlockStore words.now.table.now
        (λ table image device. LiesAt S.System system.now table.dev table.data_blocks image
        × LiesAt S.System system.now table.hash_dev (2 ^ 64 - 1) device)
        status (W.contents output.old) (W.contents output.new)) }
    ensures blames { IfErr result BlamesNone }
    ensures system { IfErr result (IsS1For (S.refuses system.now ≡ true)) }
{
    let report = report_of(rt, system, words, errors)?;
    print_report(&report, output)
}

fn report_of<R: Clock + Eprint + AllocGlobal, S: System, E: IsTerminal>(
    rt: &R,
    system: &S,
    words: &VerifyWords<'_>,
    errors: &E,
) -> Result<Report, Failure>
    ensures found { IfOk result (λ report. IsFound S.Store.BlockStore S.Store.BlockStore words.now.table.now
        (λ table image device. LiesAt S.System system.now table.dev table.data_blocks image
        × LiesAt S.System system.now table.hash_dev (2 ^ 64 - 1) device)
        report.faults report.unchecked) }
    ensures blames { IfErr result BlamesNone }
    ensures system { IfErr result (IsS1For (S.refuses system.now ≡ true)) }
{
    let table = Table::parse(rt.alloc(), words.table)?;
    let (data_store, hash_store) = open_stores(system, &table, Command::Verify)?;
    let progress = progress_of(
        rt,
        is_watched(words.is_quiet, errors.is_terminal()),
        &data_store,
    );
    let watched = Watched::new(data_store, progress.as_ref());
    let report = checked(rt.alloc(), table, watched, hash_store);
    end_progress(progress.as_ref());
    report
}

/// Checks each block of a volume.
fn checked<D: BlockStore + Drop, H: BlockStore + Drop>(
    alloc: Global,
    table: Table,
    data_store: D,
    hash_store: H,
) -> Result<Report, Failure>
    ensures reported { IfOk result (λ report. IsReportOver D.BlockStore H.BlockStore table data_store hash_store
        report.faults report.unchecked) }
    ensures blames { IfErr result BlamesNone }
    ensures system { IfErr result (IsS1For ⊥) }
{
    let mut verifier = Verifier::new(alloc, table, data_store, hash_store, CACHE)?;
    Ok(verifier.report()?)
}

/// Prints a report. The status is 0 where it names no block, 1 where it does.
pub(crate) fn print_report<W: Write>(report: &Report, output: &mut W) -> Result<u8, Failure>
    ensures printed { OnOk result (Appends (W.contents output.old) (W.contents output.new)
        (report_lines report.now.faults report.now.unchecked)) }
    ensures status { IfOk result (λ status. (status ≡ 0) ↔ (report.now.faults ≡ [])) }
    ensures refused { IfErr result IsOfOutput }
{
    for (place, verdict) in report.faults.as_slice() {
        print_place(*place, *verdict, output)?;
    }
    let unchecked = report.unchecked;
    writeln!(output, "unchecked {unchecked}")?;
    if report.faults.as_slice().is_empty() {
        writeln!(output, "verified")?;
        Ok(DONE)
    } else {
        writeln!(output, "corrupt")?;
        Ok(REFUSED)
    }
}

fn print_place<W: Write>(place: Place, verdict: Verdict, output: &mut W) -> Result<(), Failure>
    ensures printed { OnOk result (Appends (W.contents output.old) (W.contents output.new) (place_line (place, verdict))) }
    ensures refused { IfErr result IsOfOutput }
{
    match verdict {
        Verdict::Bad => writeln!(output, "bad {place}")?,
        Verdict::Unread => writeln!(output, "unread {place}")?,
    }
    Ok(())
}
