//! The command `pull`, with its lines in files.
ghost use Rattle.std.specs.Prelude.{◌≡◌, IfErr, IfOk, OnErr, OnOk};
ghost use Rattle.cli_pull.specs.Keeping.{IsApartFrom, IsCutInto, IsCutShort, IsHeld, IsLeftBy, IsLeftTo, IsPulledBy, IsPulledInto};
ghost use Rattle.cli_pull.specs.Keeping.{IsPulledTo, IsPulledUnder};

use crate::pulling::{fill, look_first, prepare, print_pulled, pull};
use cli_arguments::PullWords;
use cli_faults::{Failure, Fault, Word};
use cli_line_file::{
    begin_pull, check_apart_from, close_line_file, keep_line, line_text, open_line_file,
};
use os_files::{System, path_beside};
use os_line_file::{LineFolder, LineFolders};
use std::alloc::Global;
use std::io::{Eprint, IsTerminal, Write};
use std::time::Clock;
use verity_line_file::LineFile;
use verity_moved::Moved;
use verity_store::BlockStore;
use verity_superblock::TableFault;

/// As [`pull`], with lines in files: the line `--to` is that of `--to-file`, where one is named; and where FILE is named by `--table-file`,
/// its line, where FILE is there, is that of the volume as it stands, whatever FILE.next says, and it is left with the line of the volume
/// that was made, just as it is printed.
///
/// FILE.next says that a pull is under way before anything is made or written, and has no line: until the pull is done the volume is of
/// none. Once DATA and HASH are closed it gets the line, and takes FILE's place. Before it is begun the source is opened, and DATA and
/// HASH where they are there, so that a pull that can't begin leaves no FILE.next. The file of `--to-file` is opened, read and closed
/// first; then FILE and FILE.next are opened once, and closed at the end, after a failure too. S6 where there is another FILE.next beside
/// the one of `--to-file`; L1 to L9 of either line; S1 where a folder refuses. FILE isn't understood where it or FILE.next is DATA, HASH,
/// the journal beside HASH, or the file of `--to-file`, nor beside `--table`.
pub fn pull_kept<
    R: Clock + Eprint + AllocGlobal,
    S: System,
    L: LineFolders,
    W: Write,
    E: Write + IsTerminal,
>(
    rt: &R,
    system: &mut S,
    folders: &mut L,
    words: &PullWords<'_>,
    output: &mut W,
    errors: &mut E,
) -> Result<(), Failure>
    ensures pulled { OnOk result (IsPulledBy S.System S.Store.BlockStore S.Journalled.Disks ⟦<Moved<S::Store> as BlockStore>⟧
        L.LineFolders L.Folder.LineFolder system.old system.new folders.old folders.new words.now (W.contents output.old)
        (W.contents output.new)) }
    ensures left { IfErr result (IsLeftBy S.System S.Store.BlockStore S.Journalled.Disks ⟦<Moved<S::Store> as BlockStore>⟧
        L.LineFolders L.Folder.LineFolder system.old system.new folders.old folders.new words.now) }
    ensures refuses { L.refuses folders.new ≡ L.refuses folders.old }
{
    match words.to_file {
        Some(path) => {
            if !words.to.is_empty() {
                return Err(Failure::Word(Word::ToFile));
            }
            check_to_file(system, words, path)?;
            let line = line_text(rt.alloc(), folders, path)?;
            let own = PullWords {
                to: line.as_str(),
                ..*words
            };
            pull_to(rt, system, folders, &own, output, errors)
        }
        None => {
            if words.to.is_empty() {
                return Err(Failure::Word(Word::ToFile));
            }
            pull_to(rt, system, folders, words, output, errors)
        }
    }
}

/// That the file of `--to-file`, and the one beside it, are neither DATA nor HASH.
fn check_to_file<S: System>(system: &S, words: &PullWords<'_>, path: &str) -> Result<(), Failure> {
    for own in [words.data_path, words.hash_path] {
        match check_apart_from(system, path, own) {
            Err(Failure::Word(_)) => return Err(Failure::Word(Word::ToFile)),
            checked => checked?,
        }
    }
    Ok(())
}

/// The same, of the line `--to`.
fn pull_to<
    R: Clock + Eprint + AllocGlobal,
    S: System,
    L: LineFolders,
    W: Write,
    E: Write + IsTerminal,
>(
    rt: &R,
    system: &mut S,
    folders: &mut L,
    words: &PullWords<'_>,
    output: &mut W,
    errors: &mut E,
) -> Result<(), Failure>
    ensures pulled { OnOk result (IsPulledTo S.System S.Store.BlockStore S.Journalled.Disks ⟦<Moved<S::Store> as BlockStore>⟧
        L.LineFolders L.Folder.LineFolder system.old system.new folders.old folders.new words.now (W.contents output.old)
        (W.contents output.new)) }
    ensures left { OnErr result (IsLeftTo S.System S.Store.BlockStore S.Journalled.Disks ⟦<Moved<S::Store> as BlockStore>⟧
        L.LineFolders L.Folder.LineFolder system.old system.new folders.old folders.new words.now) }
    ensures refuses { L.refuses folders.new ≡ L.refuses folders.old }
{
    match words.table_file {
        Some(path) => {
            if words.table.is_some() {
                return Err(Failure::Word(Word::TableFile));
            }
            check_file(system, words, path)?;
            let mut file = open_line_file(folders, path)?;
            let pulled = pull_into(rt, system, words, path, &mut file, output, errors);
            close_line_file(folders, file);
            pulled
        }
        None => pull(rt, system, words, output, errors),
    }
}

/// That FILE and FILE.next are neither DATA nor HASH, nor the journal beside HASH, nor the file of `--to-file`.
fn check_file<S: System>(system: &S, words: &PullWords<'_>, path: &str) -> Result<(), Failure>
    ensures apart { OnOk result (IsApartFrom S.System system.now words.now path.now) }
{
    check_apart_from(system, path, words.data_path)?;
    check_apart_from(system, path, words.hash_path)?;
    let journal = path_beside(system, words.hash_path)?;
    check_apart_from(system, path, journal.as_str())?;
    match words.to_file {
        Some(to_path) => check_apart_from(system, path, to_path),
        None => Ok(()),
    }
}

/// The same, with FILE's line, where FILE is there, as that of the volume as it stands.
fn pull_into<
    R: Clock + Eprint + AllocGlobal,
    S: System,
    F: LineFolder,
    W: Write,
    E: Write + IsTerminal,
>(
    rt: &R,
    system: &mut S,
    words: &PullWords<'_>,
    path: &str,
    file: &mut LineFile<F>,
    output: &mut W,
    errors: &mut E,
) -> Result<(), Failure>
    ensures pulled { OnOk result (IsPulledInto S.System S.Store.BlockStore S.Journalled.Disks ⟦<Moved<S::Store> as BlockStore>⟧
        F.LineFolder system.old system.new words.now path.now file.old.folder file.new.folder (W.contents output.old)
        (W.contents output.new)) }
    ensures left { OnErr result (IsCutInto S.System S.Store.BlockStore S.Journalled.Disks ⟦<Moved<S::Store> as BlockStore>⟧
        F.LineFolder system.old system.new words.now file.old.folder file.new.folder) }
{
    match held_line(rt.alloc(), file)? {
        Some(line) => {
            let own = PullWords {
                table: Some(line.as_str()),
                ..*words
            };
            pull_under(rt, system, &own, path, file, output, errors)
        }
        None => {
            let own = PullWords {
                table: None,
                ..*words
            };
            pull_under(rt, system, &own, path, file, output, errors)
        }
    }
}

/// The line that FILE holds, as it is printed; none where there is no FILE. L1 to L9.
fn held_line<F: LineFolder>(alloc: Global, file: &LineFile<F>) -> Result<Option<String>, Failure>
    ensures held { IfOk result (λ found. IsHeld (F.seen file.now.folder).line found) }
{
    match file.line(alloc)? {
        Some(table) => Ok(Some(table.text()?)),
        None => Ok(None),
    }
}

/// Pulls, with the line of the volume that is made in FILE.next from before the first change until the last one is made.
fn pull_under<
    R: Clock + Eprint + AllocGlobal,
    S: System,
    F: LineFolder,
    W: Write,
    E: Write + IsTerminal,
>(
    rt: &R,
    system: &mut S,
    words: &PullWords<'_>,
    own_path: &str,
    file: &mut LineFile<F>,
    output: &mut W,
    errors: &mut E,
) -> Result<(), Failure>
    ensures pulled { OnOk result (IsPulledUnder S.System S.Store.BlockStore S.Journalled.Disks ⟦<Moved<S::Store> as BlockStore>⟧
        F.LineFolder system.old system.new words.now own_path.now file.old.folder file.new.folder (W.contents output.old)
        (W.contents output.new)) }
    ensures cut { OnErr result (IsCutShort S.System S.Store.BlockStore S.Journalled.Disks ⟦<Moved<S::Store> as BlockStore>⟧
        F.LineFolder system.old system.new words.now file.old.folder file.new.folder) }
{
    let read = prepare(rt.alloc(), words)?;
    let (asked, tree) = read;
    let mut tree = tree;
    let text = tree.table().text()?;
    check_one_line(&text)?;
    look_first(system, words, &asked, &tree)?;
    begin_pull(file)?;
    let counts = fill(rt, system, words, &asked, &mut tree, errors)?;
    check_file(system, words, own_path)?;
    keep_line(rt.alloc(), file, tree.table())?;
    print_pulled(counts, &text, output)
}

/// That no line feed stands in a line, as in a path: L1.
fn check_one_line(line: &str) -> Result<(), Failure> {
    if line.as_bytes().iter().all(|byte| *byte != b'\n') {
        Ok(())
    } else {
        Err(Fault::Table(TableFault::Fields).into())
    }
}
