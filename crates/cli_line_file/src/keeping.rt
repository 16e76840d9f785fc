//! A line that is kept in FILE.
ghost use Rattle.std.specs.Prelude.{◌≡◌, ◌⊎◌, ◌<◌, Some, None, IsSome, IfOk, IfErr, OnOk};
ghost use Rattle.os_line_file.specs.Folder.{with_next, replaced, KeepsLine, IsDurable, LeavesOnly};
ghost use Rattle.verity_line_file.specs.Lines.{pulling, text_of, HoldsWhole};
ghost use Rattle.verity_line_file.specs.Standing.{Replaces};
ghost use Rattle.cli_line_file.specs.Faults.{refused_folder};
ghost use Rattle.cli_line_file.specs.Keeping.{only_line, IsKept, KeepsOld, KeepsOldOr};
ghost use Rattle.cli_line_file.specs.Settling.{StaysUnlessFailed, StaysUnlessFailedLater};

use crate::faults::{failure_of_folder, failure_of_line};
use crate::text::whole_table_in;
use cli_faults::{Failure, Fault};
use os_line_file::LineFolder;
use std::alloc::Global;
use verity_edit::EditFault;
use verity_line_file::LineFile;
use verity_superblock::{Table, TableFault};

/// That FILE can be replaced: FILE.next is made, empty, and removed. FILE isn't touched. S1 where the folder refuses; want of memory.
pub fn try_next<F: LineFolder>(file: &mut LineFile<F>) -> Result<(), Failure>
    ensures tried { OnOk result (F.seen file.new.folder ≡ with_next None (F.seen file.old.folder)) }
    ensures durable { OnOk result (IsDurable (F.seen file.new.folder) (F.may_leave file.new.folder)) }
    ensures any_moment { LeavesOnly F.moment F.left_since file.old.folder file.new.folder
        (KeepsOld (F.seen file.old.folder) (F.may_leave file.old.folder)) }
    ensures stays { IfErr result (StaysUnlessFailed F.LineFolder file.old.folder file.new.folder) }
{
    match file.folder.write_next(&[]) {
        Ok(()) => {}
        Err(fault) => return Err(failure_of_folder(fault)),
    }
    match file.folder.remove_next() {
        Ok(()) => Ok(()),
        Err(fault) => Err(failure_of_folder(fault)),
    }
}

/// Makes FILE.next anew with a table line, before the first change of the commit whose line it is. FILE isn't touched. L1 where a line feed
/// stands in the line; S1 where the folder refuses: then no change of the volume may follow; want of memory.
pub fn begin_line<F: LineFolder>(
    alloc: Global,
    file: &mut LineFile<F>,
    table: &Table,
) -> Result<(), Failure>
    ensures begun { OnOk result (F.seen file.new.folder ≡ with_next (Some (text_of table.now)) (F.seen file.old.folder)) }
    ensures whole { OnOk result (HoldsWhole (text_of table.now) table.now) }
    ensures durable { OnOk result (IsDurable (F.seen file.new.folder) (F.may_leave file.new.folder)) }
    ensures any_moment { LeavesOnly F.moment F.left_since file.old.folder file.new.folder (KeepsLine (F.may_leave file.old.folder)) }
    ensures stays { IfErr result (StaysUnlessFailed F.LineFolder file.old.folder file.new.folder) }
{
    match file.begin(alloc, table) {
        Ok(()) => Ok(()),
        Err(fault) => Err(failure_of_line(fault, EditFault::Line)),
    }
}

/// Has FILE.next say that a pull is under way, before its first change. FILE isn't touched. S1 where the folder refuses: then no change of
/// the volume may follow; want of memory.
pub fn begin_pull<F: LineFolder>(file: &mut LineFile<F>) -> Result<(), Failure>
    ensures begun { OnOk result (F.seen file.new.folder ≡ with_next (Some pulling) (F.seen file.old.folder)) }
    ensures durable { OnOk result (IsDurable (F.seen file.new.folder) (F.may_leave file.new.folder)) }
    ensures any_moment { LeavesOnly F.moment F.left_since file.old.folder file.new.folder (KeepsLine (F.may_leave file.old.folder)) }
    ensures stays { IfErr result (StaysUnlessFailed F.LineFolder file.old.folder file.new.folder) }
{
    match file.begin_pull() {
        Ok(()) => Ok(()),
        Err(fault) => Err(failure_of_line(fault, EditFault::Line)),
    }
}

/// Puts FILE.next in FILE's place, once the commit is whole. S1 where the folder refuses: then both files are to be settled.
pub fn finish_line<F: LineFolder>(file: &mut LineFile<F>) -> Result<(), Failure>
    requires { IsSome (F.seen file.old.folder).next }
    ensures finished { OnOk result (F.seen file.new.folder ≡ replaced (F.seen file.old.folder)) }
    ensures durable { OnOk result (IsDurable (F.seen file.new.folder) (F.may_leave file.new.folder)) }
    ensures any_moment { LeavesOnly F.moment F.left_since file.old.folder file.new.folder
        (Replaces (F.seen file.old.folder) (F.may_leave file.old.folder)) }
    ensures failed { IfErr result (λ e. (e ≡ refused_folder) × (F.failures file.old.folder < F.failures file.new.folder)) }
{
    match file.finish() {
        Ok(()) => Ok(()),
        Err(fault) => Err(failure_of_line(fault, EditFault::Line)),
    }
}

/// Puts a table line in FILE's place. L1 where a line feed stands in it; S1 where the folder refuses: then FILE has its old text or the new
/// one; want of memory.
pub fn keep_line<F: LineFolder>(
    alloc: Global,
    file: &mut LineFile<F>,
    table: &Table,
) -> Result<(), Failure>
    ensures kept { OnOk result (F.seen file.new.folder ≡ only_line (text_of table.now)) }
    ensures whole { OnOk result (HoldsWhole (text_of table.now) table.now) }
    ensures durable { OnOk result (IsDurable (F.seen file.new.folder) (F.may_leave file.new.folder)) }
    ensures any_moment { LeavesOnly F.moment F.left_since file.old.folder file.new.folder
        (KeepsOldOr (text_of table.now) (F.seen file.old.folder) (F.may_leave file.old.folder)) }
    ensures stays { IfErr result (StaysUnlessFailedLater F.LineFolder file.old.folder file.new.folder) }
{
    begin_line(alloc, file, table)?;
    finish_line(file)
}

/// Puts a printed table line, with the line feed behind it, in FILE's place, byte for byte. L1 where it is no table line, or more than one
/// line; S1 where the folder refuses: then FILE has its old text or the new one; want of memory.
pub fn keep_printed<F: LineFolder>(
    alloc: Global,
    file: &mut LineFile<F>,
    printed: &[u8],
) -> Result<(), Failure>
    ensures kept { OnOk result (IsKept printed.now (F.seen file.new.folder)) }
    ensures durable { OnOk result (IsDurable (F.seen file.new.folder) (F.may_leave file.new.folder)) }
    ensures any_moment { LeavesOnly F.moment F.left_since file.old.folder file.new.folder
        (KeepsOldOr printed.now (F.seen file.old.folder) (F.may_leave file.old.folder)) }
    ensures stays { IfErr result (StaysUnlessFailed F.LineFolder file.old.folder file.new.folder) }
{
    if whole_table_in(alloc, printed)?.is_none() {
        return Err(Fault::Table(TableFault::Fields).into());
    }
    match file.folder.write_next(printed) {
        Ok(()) => {}
        Err(fault) => return Err(failure_of_folder(fault)),
    }
    finish_line(file)
}
