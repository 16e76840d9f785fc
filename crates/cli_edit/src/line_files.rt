//! The file in which a volume's table line is kept, opened for a work.
ghost use Rattle.std.specs.Prelude.{◌≡◌, ◌⊎◌, true, IfOk, IfErr, IfSome, MatchOption, string_bytes};
ghost use Rattle.cli_faults.specs.declared.failure.Word.TheVariants as word;
ghost use Rattle.cli_faults.specs.Errors.{IsS1For};
ghost use Rattle.os_commit_flag.specs.Refusals.{BlamesNone, BlamesAtMost};
ghost use Rattle.cli_edit.specs.Journals.{IsJournalPath};
ghost use Rattle.cli_edit.specs.LineFiles.{FileFails, IsKeptLine, IsLeftAt, IsLineFileAt, IsTakenForLine};

use crate::work::Words;
use cli_faults::Failure;
use cli_line_file::{check_apart_from, close_line_file, open_line_file, settle_opened};
use cli_volume::KeptLine;
use os_files::System;
use os_host::{Host, Opened, Paths, VolumeStore};
use os_line_file::LineFolders;
use verity_line_file::LineFile;
use verity_store::BlockStore;
use verity_superblock::Table;

/// That FILE, where it is named, and FILE.next are neither DATA nor HASH nor the journal, if there is to be one.
pub(crate) fn check_line_file<R: Paths + AllocGlobal>(
    rt: &R,
    words: &Words<'_>,
    journal: &Option<String>,
) -> Result<(), Failure>
    requires { IfSome journal.now (λ path. IsJournalPath R.Paths rt.now words.now.journal words.now.hash_path.now (string_bytes path)) }
    ensures word { IfErr result (λ e. e ≡ Failure.Word word.TableFile
        → IsTakenForLine R.Paths rt.now words.now.table_file words.now.journal words.now.data_path.now words.now.hash_path.now) }
    ensures refused { IfErr result (BlamesAtMost word.TableFile) }
    ensures system { IfErr result (IsS1For (R.refuses rt.now ≡ true)) }
{
    let Some(path) = words.table_file else {
        return Ok(());
    };
    check_apart(rt, path, words.data_path)?;
    check_apart(rt, path, words.hash_path)?;
    match journal {
        Some(journal) => check_apart(rt, path, journal),
        None => Ok(()),
    }
}

/// That FILE and FILE.next are other files than what stands at a path.
fn check_apart<R: Paths + AllocGlobal>(rt: &R, path: &str, other: &str) -> Result<(), Failure>
    ensures word { IfErr result (λ e. e ≡ Failure.Word word.TableFile → IsLineFileAt R.Paths rt.now path.now other.now) }
    ensures refused { IfErr result (BlamesAtMost word.TableFile) }
    ensures system { IfErr result (IsS1For (R.refuses rt.now ≡ true)) }
{
    check_apart_from(&Host::new(rt), path, other)
}

/// The line that is kept in FILE, where it is named, and FILE's table line, where it is there. FILE.next is settled first, by the volume in
/// these files, whose journal is whole. Where that fails FILE's folder is closed.
pub(crate) fn kept_line<'r, 'a, R: Paths + AllocGlobal, L: LineFolders>(
    rt: &'r R,
    folders: &mut L,
    words: &Words<'a>,
    data: &Opened,
    hash: &Opened,
) -> Result<(Option<KeptLine<'a, L::Folder>>, Option<Table>), Failure>
    requires data { R.opens rt.now words.now.data_path.now «data».now }
    requires hash { R.opens rt.now words.now.hash_path.now hash.now }
    ensures kept { IfOk result (λ found. IsKeptLine R.Paths ⟦<Host<'r, R> as System>⟧ ⟦<VolumeStore as BlockStore>⟧ L.LineFolders
        L.Folder.LineFolder rt.now words.now.data_path.now words.now.hash_path.now folders.old folders.new words.now.table_file found.0) }
    ensures left { IfErr result (IsLeftAt R.Paths ⟦<Host<'r, R> as System>⟧ ⟦<VolumeStore as BlockStore>⟧ L.LineFolders
        L.Folder.LineFolder rt.now words.now.data_path.now words.now.hash_path.now folders.old folders.new words.now.table_file) }
    ensures refused { IfErr result BlamesNone }
    ensures system { IfErr result (IsS1For ((R.refuses rt.now ≡ true)
        ⊎ FileFails L.LineFolders L.Folder.LineFolder folders.old words.now.table_file)) }
{
    let Some(path) = words.table_file else {
        return Ok((None, None));
    };
    let mut file = open_line_file(folders, path)?;
    let host = Host::new(rt);
    match settle_opened(
        &host,
        words.data_path,
        words.hash_path,
        data,
        hash,
        &mut file,
    ) {
        Ok(()) => {}
        Err(failure) => {
            close_line_file(folders, file);
            return Err(failure);
        }
    }
    match file.line(rt.alloc()) {
        Ok(own) => {
            let kept = KeptLine::new(rt.alloc(), words.data_path, words.hash_path, file);
            Ok((Some(kept), own))
        }
        Err(fault) => {
            close_line_file(folders, file);
            Err(fault.into())
        }
    }
}

/// Closes FILE's folder, where it was opened.
pub(crate) fn close_file<L: LineFolders>(folders: &mut L, file: Option<LineFile<L::Folder>>)
    ensures { MatchOption file (folders.new ≡ folders.old) (λ f. L.closes folders.old f.folder folders.new) }
{
    if let Some(file) = file {
        close_line_file(folders, file);
    }
}
