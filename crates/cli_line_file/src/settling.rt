//! Which of both lines is the volume's.
ghost use Rattle.std.specs.Prelude.{◌≡◌, ◌≢◌, ◌⊎◌, ◌<◌, ◌↔◌, true, false, None, Some, MatchOption};
ghost use Rattle.std.specs.Prelude.{IsTrue, IsSome, IfSome, IsOk, IfOk, IfErr, OnOk, OnErr};
ghost use Rattle.os_line_file.specs.Folder.{with_next, IsDurable, LeavesOnly, MayRemove};
ghost use Rattle.cli_faults.specs.Faults.{failure_of};
ghost use Rattle.cli_faults.specs.Errors.{IsS1For};
ghost use Rattle.cli_faults.specs.Blames.{BlamesNone};
ghost use Rattle.cli_line_file.specs.Files.{FolderFails, IsOfFolder, WasSeen};
ghost use Rattle.cli_line_file.specs.Faults.{refused_folder, top_fault};
ghost use Rattle.cli_line_file.specs.Looking.{shape_of, HasPlaceOf, IsUnseen, ShowsEither};
ghost use Rattle.cli_line_file.specs.Settling.{IsLeftAt, IsNextLine, IsNoLine, IsOldLine, IsSettledAt, IsSettledBy, IsUnsettled};
ghost use Rattle.verity_line_file.specs.Lines.{pulling};
ghost use Rattle.verity_superblock.specs.Line.{TableLine};
ghost use Rattle.cli_line_file.specs.Settling.{AreAsked, LacksNextLine, SettlesBy, StaysUnlessFailed};
ghost use Rattle.verity_pending.specs.declared.fault.EditFault.{EditFault};

use crate::faults::{failure_of_folder, failure_of_line};
use crate::looking::{Look, is_of, look_by};
use crate::opening::{close_line_file, open_line_file};
use crate::text::whole_table_in;
use cli_faults::{Command, Failure, Fault};
use os_files::{System, open_to_read};
use os_line_file::{LineFolder, LineFolders};
use std::alloc::Global;
use verity_edit::EditFault;
use verity_line_file::{LineFile, Shown};
use verity_store::Which;
use verity_superblock::{Table, TableFault, laws};

/// Leaves in FILE the line of the volume at two paths, where there is a FILE.next, once the volume's journal is recovered: FILE.next takes
/// FILE's place where it holds that line, whole; else it is removed, where FILE holds it or there is no FILE. Where there is no FILE.next
/// nothing is done, and the volume isn't looked at.
///
/// Both files of the volume are opened and locked, as `recover` locks them, until it is done. The superblock is read in front of the tree
/// that FILE.next's line names, or FILE's where that holds none; where the volume isn't that of FILE.next's line and FILE's names another
/// place, once more by FILE's. Where the volume is neither line's, both files stay: L1 to L9 where FILE holds none, E9, E10, E13 or E14 as
/// the volume has it; S6 where FILE.next says that a pull is under way. S1 to S5 and E6 as the volume's files have them; S1
/// where the folder refuses. It reads 512 bytes and one block, at most twice.
pub fn settle_line<S: System, L: LineFolders>(
    system: &S,
    folders: &mut L,
    data_path: &str,
    hash_path: &str,
    path: &str,
) -> Result<(), Failure>
    ensures settled { OnOk result (IsSettledAt S.System S.Store.BlockStore L.LineFolders L.Folder.LineFolder system.now folders.old
        folders.new data_path.now hash_path.now path.now) }
    ensures left { IfErr result (IsLeftAt S.System S.Store.BlockStore L.LineFolders L.Folder.LineFolder system.now folders.old
        folders.new data_path.now hash_path.now path.now) }
    ensures refused { IfErr result BlamesNone }
    ensures system { IfErr result (IsS1For ((S.refuses system.now ≡ true) ⊎ FolderFails L.LineFolders L.Folder.LineFolder folders.old)) }
    ensures refuses { L.refuses folders.new ≡ L.refuses folders.old }
{
    let is_under_way = looks_under_way(folders, path)?;
    if !is_under_way {
        return Ok(());
    }
    let image = open_to_read(system, data_path, Command::Recover, Which::Data)?;
    let device = open_to_read(system, hash_path, Command::Recover, Which::Hash)?;
    let mut file = open_line_file(folders, path)?;
    let settled = settle_opened(system, data_path, hash_path, &image, &device, &mut file);
    close_line_file(folders, file);
    settled
}

/// Whether there is a FILE.next.
fn looks_under_way<L: LineFolders>(folders: &mut L, path: &str) -> Result<bool, Failure>
    ensures looked { IfOk result (λ is. WasSeen L.LineFolders L.Folder.LineFolder folders.old folders.new path.now (λ texts. is ≡ false
        → texts.next ≡ None)) }
    ensures unchanged { OnErr result (folders.new ≡ folders.old) }
    ensures refused { IfErr result (IsOfFolder (L.refuses folders.old ≡ true)) }
    ensures refuses { L.refuses folders.new ≡ L.refuses folders.old }
{
    let file = open_line_file(folders, path)?;
    let is_under_way = file.is_under_way();
    close_line_file(folders, file);
    Ok(is_under_way)
}

/// The same, of files of a volume that were opened at their paths and locked: they are opened once more to be read. E6 where another file
/// stands there by now. S6 where FILE.next says that a pull is under way: then the volume is of no line, and both files stay.
pub fn settle_opened<S: System, F: LineFolder>(
    system: &S,
    data_path: &str,
    hash_path: &str,
    image: &S::File,
    device: &S::File,
    file: &mut LineFile<F>,
) -> Result<(), Failure>
    ensures nothing { (F.seen file.old.folder).next ≡ None → IsOk result }
    ensures untouched { (F.seen file.old.folder).next ≡ None → file.new.folder ≡ file.old.folder }
    ensures no_pull { OnOk result ((F.seen file.old.folder).next ≢ Some pulling) }
    ensures settled { OnOk result (IsSome (F.seen file.old.folder).next → IsSettledBy S.System S.Store.BlockStore system.now data_path.now
        hash_path.now image.now device.now (F.seen file.old.folder) (F.seen file.new.folder)) }
    ensures durable { OnOk result (IsSome (F.seen file.old.folder).next
        → IsDurable (F.seen file.new.folder) (F.may_leave file.new.folder)) }
    ensures any_moment { LeavesOnly F.moment F.left_since file.old.folder file.new.folder (SettlesBy S.System S.Store.BlockStore
        system.now data_path.now hash_path.now image.now device.now (F.seen file.old.folder) (F.may_leave file.old.folder)) }
    ensures stays { IfErr result (StaysUnlessFailed F.LineFolder file.old.folder file.new.folder) }
    ensures refused { IfErr result (IsUnsettled S.System S.Store.BlockStore system.now data_path.now hash_path.now image.now device.now
        (F.seen file.old.folder)) }
    ensures system { IfErr result (IsS1For ((S.refuses system.now ≡ true)
        ⊎ (F.failures file.old.folder < F.failures file.new.folder))) }
{
    if !file.is_under_way() {
        return Ok(());
    }
    if file.is_pulling() {
        return Err(Fault::UnderWay.into());
    }
    laws::determines_line();
    let next = next_table(system.alloc(), file)?;
    let line = line_table(system.alloc(), file, next.is_some())?;
    let Some((first, second)) = asked_of(&next, &line) else {
        return drop_next(file);
    };
    let (shown, top) = shown_by_either(system, data_path, hash_path, image, device, first, second)?;
    match file.settle(system.alloc(), &shown) {
        Ok(_) => Ok(()),
        Err(fault) => Err(failure_of_line(fault, top)),
    }
}

/// The table line that FILE.next holds whole; none where it doesn't.
fn next_table<F: LineFolder>(alloc: Global, file: &LineFile<F>) -> Result<Option<Table>, Failure>
    ensures held { IfOk result (λ next. MatchOption next (LacksNextLine (F.seen file.now.folder)) (IsNextLine (F.seen file.now.folder))) }
    ensures memory { IfErr result (λ e. e ≡ Failure.NoMemory) }
{
    match file.folder.next() {
        Some(text) => Ok(whole_table_in(alloc, text)?),
        None => Ok(None),
    }
}

/// The table line that FILE holds; none where there is no FILE, and, where another is at hand, where FILE holds none. L1 to L9 else.
fn line_table<F: LineFolder>(
    alloc: Global,
    file: &LineFile<F>,
    has_other: bool,
) -> Result<Option<Table>, Failure>
    ensures held { IfOk result (λ line. IfSome line (IsOldLine (F.seen file.now.folder))) }
    ensures missing { result ≡ Ok None → has_other ≡ false → (F.seen file.now.folder).line ≡ None }
    ensures none { result ≡ Ok None → (t : TableLine) → ¬ IsOldLine (F.seen file.now.folder) t }
    ensures refused { IfErr result (IsNoLine (F.seen file.now.folder)) }
{
    match file.line(alloc) {
        Ok(line) => Ok(line),
        Err(TableFault::NoMemory) => Err(Failure::NoMemory),
        Err(fault) if !has_other => Err(Fault::Table(fault).into()),
        Err(_) => Ok(None),
    }
}

/// The lines by which the volume is looked at, the one that is asked first before the other: FILE.next's, and FILE's where that names
/// another place; FILE's where FILE.next has none.
fn asked_of<'a>(
    next: &'a Option<Table>,
    line: &'a Option<Table>,
) -> Option<(&'a Table, Option<&'a Table>)>
    ensures { MatchOption result ((next.now ≡ None) × (line.now ≡ None)) (λ asked. AreAsked next.now line.now asked.0.now asked.1) }
{
    match (next, line) {
        (Some(next), Some(line)) if !has_place_of(line, next) => Some((next, Some(line))),
        (Some(next), _) => Some((next, None)),
        (None, Some(line)) => Some((line, None)),
        (None, None) => None,
    }
}

/// Whether two table lines name one place for the tree.
fn has_place_of(table: &Table, other: &Table) -> bool
    ensures { IsTrue result ↔ HasPlaceOf table.now other.now }
{
    table.hash_start_block() == other.hash_start_block()
        && table.hash_block_size() == other.hash_block_size()
}

/// Removes FILE.next.
fn drop_next<F: LineFolder>(file: &mut LineFile<F>) -> Result<(), Failure>
    ensures removed { OnOk result (F.seen file.new.folder ≡ with_next None (F.seen file.old.folder)) }
    ensures durable { OnOk result (IsDurable (F.seen file.new.folder) (F.may_leave file.new.folder)) }
    ensures any_moment { LeavesOnly F.moment F.left_since file.old.folder file.new.folder (λ c. F.may_leave file.old.folder c
        ⊎ MayRemove (F.seen file.old.folder) c) }
    ensures failed { IfErr result (λ e. (e ≡ refused_folder) × (F.failures file.old.folder < F.failures file.new.folder)) }
{
    match file.folder.remove_next() {
        Ok(()) => Ok(()),
        Err(fault) => Err(failure_of_folder(fault)),
    }
}

/// What the volume shows by the first line; where it isn't that line's, and there is a second one, what it shows by that. With it the fault
/// of the top block.
fn shown_by_either<S: System>(
    system: &S,
    data_path: &str,
    hash_path: &str,
    image: &S::File,
    device: &S::File,
    first: &Table,
    second: Option<&Table>,
) -> Result<(Shown, EditFault), Failure>
    ensures shown { IfOk result (λ seen. ShowsEither S.System S.Store.BlockStore system.now data_path.now hash_path.now image.now device.now
        first.now second.entry seen.0) }
    ensures top { IfOk result (λ seen. seen.1 ≡ top_fault (shape_of seen.0)) }
    ensures refused { IfErr result (IsUnseen S.System S.Store.BlockStore system.now data_path.now hash_path.now image.now device.now
        first.now second.entry) }
    ensures system { IfErr result (IsS1For (S.refuses system.now ≡ true)) }
{
    let look = look_by(system, data_path, hash_path, image, device, first)?;
    let Some(second) = second else {
        return seen_in(look);
    };
    if is_of(&look, first) {
        return seen_in(look);
    }
    seen_in(look_by(system, data_path, hash_path, image, device, second)?)
}

/// What a volume shows, and the fault of its top block.
fn seen_in(look: Look) -> Result<(Shown, EditFault), Failure>
    ensures seen { IfOk result (λ seen. look ≡ Look.Shown seen.0 seen.1) }
    ensures absent { IfErr result (λ e. (fault : EditFault) × (look ≡ Look.Absent fault) × (e ≡ failure_of (Fault.Edit fault))) }
{
    match look {
        Look::Shown(shown, top) => Ok((shown, top)),
        Look::Absent(fault) => Err(fault.into()),
    }
}
