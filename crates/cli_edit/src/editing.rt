//! The command `edit`: does a script's lines over a volume.
ghost use Rattle.std.specs.Prelude.{◌≡◌, ◌⊎◌, true, IfOk, IfErr};
ghost use Rattle.cli_faults.specs.Errors.{IsS1For};
ghost use Rattle.cli_edit.specs.LineFiles.{FileFails, IsKeptAt, IsLeftAt};
ghost use Rattle.cli_edit.specs.Work.{IsDoneAt};
ghost use Rattle.cli_edit.specs.Blamed.{EditBlames};
ghost use Rattle.cli_edit.specs.Printing.{IsEdited, LeavesEdited};

use crate::line_words::check_one_line;
use crate::over::do_over;
use crate::script::{Script, run_script};
use crate::work::{Words, Work};
use cli_arguments::EditWords;
use cli_faults::{Command, Failure, check_paths};
use cli_volume::{Commits, Devices, Edits, is_watched, offset_of};
use os_files::System;
use os_host::{Host, Opened, Paths, VolumeStore};
use os_line_file::LineFolders;
use std::io::{Eprint, IsTerminal, Write};
use std::time::Clock;
use verity_store::BlockStore;
use verity_update::Edited;

/// Does the lines of SCRIPT over the volume in DATA and HASH, and prints their answers; why one wasn't done goes to `errors`.
///
/// The words are read first, then both files opened and told apart, what stands in the journal is made whole, the superblock
/// read, the volume opened, and the script read. Commits go through a journal, but where none is asked for, and where HASH is a
/// device and none is named, which `errors` is told. Where `errors` is a terminal, the opening shows how much of DATA was read.
///
/// Where FILE is named, in one of these folders, its line is trusted, if it is there, as that of `--table`; and after each commit that is
/// answered FILE has its table line. It is begun in FILE.next before the first change of the volume. FILE's folder is opened once, when the
/// journal is whole, and closed at the end, on errors too.
pub fn edit<
    'r,
    R: Paths + Clock + Eprint + AllocGlobal,
    L: LineFolders,
    W: Write,
    E: Write + IsTerminal,
>(
    rt: &'r R,
    folders: &mut L,
    words: &EditWords<'_>,
    output: &mut W,
    errors: &mut E,
) -> Result<u8, Failure>
    ensures done { IfOk result (λ status. IsDoneAt (IsEdited (R.text rt.now words.now.script_path.now)) words.now.data_path.now
        words.now.hash_path.now (W.contents output.old) (W.contents output.new) status) }
    ensures kept { IfOk result (λ status. IsKeptAt R.Paths ⟦<Host<'r, R> as System>⟧ ⟦<VolumeStore as BlockStore>⟧ L.LineFolders
        L.Folder.LineFolder rt.now words.now.data_path.now words.now.hash_path.now folders.old folders.new words.now.table_file
        (LeavesEdited (R.text rt.now words.now.script_path.now)) (W.contents output.old) (W.contents output.new) status) }
    ensures left { IfErr result (IsLeftAt R.Paths ⟦<Host<'r, R> as System>⟧ ⟦<VolumeStore as BlockStore>⟧ L.LineFolders
        L.Folder.LineFolder rt.now words.now.data_path.now words.now.hash_path.now folders.old folders.new words.now.table_file) }
    ensures blames { IfErr result (EditBlames R.Paths rt.now words.now) }
    ensures system { IfErr result (IsS1For ((R.refuses rt.now ≡ true)
        ⊎ FileFails L.LineFolders L.Folder.LineFolder folders.old words.now.table_file)) }
{
    check_paths(words.data_path, words.hash_path)?;
    check_one_line(words.table, words.table_file)?;
    let offset = offset_of(words.table, words.hash_offset)?;
    edit_at(rt, folders, words, offset, output, errors)
}

/// Does them over the volume at an offset of HASH.
fn edit_at<
    'r,
    R: Paths + Clock + Eprint + AllocGlobal,
    L: LineFolders,
    W: Write,
    E: Write + IsTerminal,
>(
    rt: &'r R,
    folders: &mut L,
    words: &EditWords<'_>,
    offset: u64,
    output: &mut W,
    errors: &mut E,
) -> Result<u8, Failure>
    ensures done { IfOk result (λ status. IsDoneAt (IsEdited (R.text rt.now words.now.script_path.now)) words.now.data_path.now
        words.now.hash_path.now (W.contents output.old) (W.contents output.new) status) }
    ensures kept { IfOk result (λ status. IsKeptAt R.Paths ⟦<Host<'r, R> as System>⟧ ⟦<VolumeStore as BlockStore>⟧ L.LineFolders
        L.Folder.LineFolder rt.now words.now.data_path.now words.now.hash_path.now folders.old folders.new words.now.table_file
        (LeavesEdited (R.text rt.now words.now.script_path.now)) (W.contents output.old) (W.contents output.new) status) }
    ensures left { IfErr result (IsLeftAt R.Paths ⟦<Host<'r, R> as System>⟧ ⟦<VolumeStore as BlockStore>⟧ L.LineFolders
        L.Folder.LineFolder rt.now words.now.data_path.now words.now.hash_path.now folders.old folders.new words.now.table_file) }
    ensures blames { IfErr result (EditBlames R.Paths rt.now words.now) }
    ensures system { IfErr result (IsS1For ((R.refuses rt.now ≡ true)
        ⊎ FileFails L.LineFolders L.Folder.LineFolder folders.old words.now.table_file)) }
{
    let over = Words {
        command: Command::Edit,
        data_path: words.data_path,
        hash_path: words.hash_path,
        offset,
        table: words.table,
        table_file: words.table_file,
        journal: words.journal,
        is_watched: is_watched(words.is_quiet, errors.is_terminal()),
    };
    let mut lines = Lines {
        path: words.script_path,
    };
    do_over(rt, folders, &over, &mut lines, output, errors)
}

/// The lines of the script at a path.
#[derive(Drop)]
struct Lines<'a> {
    path: &'a str,
}

impl<'a> Work for Lines<'a> {
    ghost use Rattle.std.specs.Prelude.{⊤};
    ghost use Rattle.cli_edit.specs.Printing.{IsEdited, LeavesEdited};

    ghost prints = { λ lines text. IsEdited (text lines.path.now) };

    ghost leaves = { λ lines text. LeavesEdited (text lines.path.now) };

    ghost blamed = { λ _. ⊥ };

    ghost reason = { λ _ _ _. ⊥ };

    ghost fails = { λ _. ⊥ };

    ghost begun = { λ _. ⊤ };

    ghost seen = { λ _. ⊤ };

    fn begin<R: Paths + AllocGlobal>(
        &mut self,
        _rt: &R,
        _data: Option<&Opened>,
        _hash: &Opened,
    ) -> Result<(), Failure> {
        Ok(())
    }

    fn see<R: Paths + AllocGlobal>(
        &mut self,
        _rt: &R,
        _data_block_size: usize,
        _is_trusted: bool,
    ) -> Result<(), Failure> {
        Ok(())
    }

    fn run<
        R: Paths + Clock + Eprint + AllocGlobal,
        V: Edits + Edited,
        C: Commits<V>,
        W: Write,
        E: Write,
    >(
        &mut self,
        rt: &R,
        editor: V,
        commits: &mut C,
        _hash: Opened,
        devices: Devices<'_>,
        output: &mut W,
        errors: &mut E,
    ) -> Result<u8, Failure> {
        let bytes = rt.script_at(rt.alloc(), self.path)?;
        let script = Script {
            path: self.path,
            bytes: &bytes,
        };
        run_script(rt.alloc(), editor, commits, devices, script, output, errors)
    }
}
