//! A work over an editor, of the volume whole or under a table line.
ghost use Rattle.std.specs.Prelude.{◌≡◌, ◌⊎◌, true, IfOk, IfErr};
ghost use Rattle.cli_faults.specs.Errors.{IsS1For};
ghost use Rattle.os_commit_flag.specs.Refusals.{BlamesNone};
ghost use Rattle.cli_volume.specs.Kept.{HoldsLineOf, IsLeft, KeepsFileOf, LeftLine, LineFails, system_of};

use crate::rest::Rest;
use crate::work::Work;
use cli_faults::Failure;
use cli_volume::{Direct, Edits, StagedCommits, StagedEdits};
use os_host::Paths;
use os_line_file::LineFolder;
use std::alloc::Global;
use std::io::{Eprint, Write};
use std::time::Clock;
use verity_edit::{EditFault, Editor};
use verity_store::BlockStore;
use verity_superblock::Table;
use verity_trusted::LineEditor;
use verity_update::Edited;

/// Does the work over an editor, where one was opened, whose stores are the files themselves.
pub(crate) fn run_direct<
    R: Paths + Clock + Eprint + AllocGlobal,
    T: Work,
    V: Edits + Edited,
    W: Write,
    E: Write,
>(
    rt: &R,
    work: &mut T,
    opened: Result<V, EditFault>,
    rest: Rest<'_>,
    output: &mut W,
    errors: &mut E,
) -> Result<u8, Failure>
    requires { T.seen work.old }
    ensures done { IfOk result (λ status. T.prints work.old (R.text rt.now) rest.entry.devices
        (W.contents output.old) (W.contents output.new) status) }
    ensures blames { IfErr result BlamesNone }
    ensures system { IfErr result (IsS1For ((R.refuses rt.now ≡ true) ⊎ T.fails work.old)) }
{
    match opened {
        Ok(editor) => work.run(
            rt,
            editor,
            &mut Direct,
            rest.again,
            rest.devices,
            output,
            errors,
        ),
        Err(fault) => Err(fault.into()),
    }
}

/// Does the work over an editor, where one was opened, whose stores are staged.
pub(crate) fn run_by<
    R: Paths + Clock + Eprint + AllocGlobal,
    F: LineFolder,
    T: Work,
    V: StagedEdits + Edited,
    W: Write,
    E: Write,
>(
    rt: &R,
    work: &mut T,
    opened: Result<V, EditFault>,
    commits: &mut StagedCommits<'_, R, F>,
    rest: Rest<'_>,
    output: &mut W,
    errors: &mut E,
) -> Result<u8, Failure>
    requires ready { T.seen work.old }
    requires same { system_of commits.old.way ≡ rt.now }
    ensures done { IfOk result (λ status. T.prints work.old (R.text rt.now) rest.entry.devices
        (W.contents output.old) (W.contents output.new) status) }
    ensures kept { IfOk result (λ status. (left : LeftLine) × T.leaves work.old (R.text rt.now) rest.entry.devices
        (W.contents output.old) (W.contents output.new) status left
        × IsLeft (λ c. HoldsLineOf F.LineFolder c.line) commits.old commits.new left) }
    ensures lasting { KeepsFileOf F.LineFolder commits.old.line commits.new.line }
    ensures blames { IfErr result BlamesNone }
    ensures system { IfErr result (IsS1For (((R.refuses rt.now ≡ true) ⊎ T.fails work.old)
        ⊎ LineFails F.LineFolder commits.old.line)) }
{
    match opened {
        Ok(editor) => work.run(
            rt,
            editor,
            commits,
            rest.again,
            rest.devices,
            output,
            errors,
        ),
        Err(fault) => Err(fault.into()),
    }
}

/// Opens the volume under a table line, which reads no data block.
pub(crate) fn open_under<D: BlockStore + Drop, H: BlockStore + Drop>(
    alloc: Global,
    data_store: D,
    hash_store: H,
    table: Table,
) -> Result<LineEditor<D, H>, EditFault> {
    match LineEditor::open_under(alloc, data_store, hash_store, table) {
        Ok(editor) => Ok(editor),
        Err(refused) => Err(refused.fault),
    }
}

/// Opens the volume whose superblock stands at an offset, which reads it whole.
pub(crate) fn open_whole<D: BlockStore + Drop, H: BlockStore + Drop>(
    alloc: Global,
    data_store: D,
    hash_store: H,
    offset: u64,
) -> Result<Editor<D, H>, EditFault> {
    match Editor::open_at(alloc, data_store, hash_store, offset) {
        Ok(editor) => Ok(editor),
        Err(refused) => Err(refused.fault),
    }
}
