//! FILE and FILE.next of a path, and the line in FILE.
ghost use Rattle.std.specs.Prelude.{◌≡◌, true, IfOk, IfErr, OnErr, string_bytes};
ghost use Rattle.cli_line_file.specs.Files.{IsLineAt, IsLineIn, IsNoLineAt, IsNoLineIn, IsOfFolder};

use crate::faults::failure_of_folder;
use crate::text::line_in;
use cli_faults::{Failure, Fault};
use os_line_file::{LineFolder, LineFolders};
use std::alloc::Global;
use verity_line_file::LineFile;
use verity_store::StoreFault;
use verity_superblock::TableFault;

/// Reads FILE and FILE.next. S1 where one of them is no regular file, has more than 65,536 bytes or can't be read; want of memory.
pub fn open_line_file<L: LineFolders>(
    folders: &mut L,
    path: &str,
) -> Result<LineFile<L::Folder>, Failure>
    ensures opened { IfOk result (λ file. L.opens folders.old path.now file.folder folders.new) }
    ensures unchanged { OnErr result (folders.new ≡ folders.old) }
    ensures refused { IfErr result (IsOfFolder (L.refuses folders.old ≡ true)) }
    ensures refuses { L.refuses folders.new ≡ L.refuses folders.old }
{
    match folders.open_line(path) {
        Ok(folder) => Ok(LineFile::new(folder)),
        Err(fault) => Err(failure_of_folder(fault)),
    }
}

/// Leaves FILE and FILE.next as they are.
pub fn close_line_file<L: LineFolders>(folders: &mut L, file: LineFile<L::Folder>)
    ensures closed { L.closes folders.old file.folder folders.new }
    ensures refuses { L.refuses folders.new ≡ L.refuses folders.old }
{
    folders.close_line(file.folder);
}

/// The one line that FILE holds, without the line feed at its end. S6 where there is a FILE.next, which says that a commit is under way or
/// was cut short; S1 as above, and where there is no FILE; L1 where it has more than one line, or isn't UTF-8. It takes memory for both
/// files and the line, and leaves both as they are.
pub fn line_text<L: LineFolders>(
    alloc: Global,
    folders: &mut L,
    path: &str,
) -> Result<String, Failure>
    ensures line { IfOk result (λ text. IsLineAt L.LineFolders L.Folder.LineFolder folders.old folders.new path.now (string_bytes text)) }
    ensures refused { IfErr result (IsNoLineAt L.LineFolders L.Folder.LineFolder folders.old folders.new path.now) }
    ensures refuses { L.refuses folders.new ≡ L.refuses folders.old }
{
    let file = open_line_file(folders, path)?;
    let line = line_of_file(alloc, &file);
    close_line_file(folders, file);
    line
}

/// The one line that FILE holds, and no commit is under way.
fn line_of_file<F: LineFolder>(alloc: Global, file: &LineFile<F>) -> Result<String, Failure>
    ensures line { IfOk result (λ text. IsLineIn (F.seen file.now.folder) (string_bytes text)) }
    ensures refused { IfErr result (IsNoLineIn (F.seen file.now.folder)) }
{
    if file.is_under_way() {
        return Err(Fault::UnderWay.into());
    }
    let Some(text) = file.folder.line() else {
        return Err(Fault::Store(StoreFault::Device).into());
    };
    match line_in(text) {
        Some(line) => Ok(String::from_str(alloc, line)?),
        None => Err(Fault::Table(TableFault::Fields).into()),
    }
}
