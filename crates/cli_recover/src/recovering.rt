//! The command `recover`.
ghost use Rattle.std.specs.Prelude.{◌≡◌, ◌⊎◌, true, OnOk, IfErr, MatchOption, ⊤};
ghost use Rattle.std.specs.Io.KnownBytes.{Appends};
ghost use Rattle.cli_faults.specs.Errors.{IsS1For};
ghost use Rattle.cli_faults.specs.Blames.{BlamesNone};
ghost use Rattle.cli_recover.specs.Recovered.{recovered_line, FileFails, IsClearOf, IsFileLeft, IsFileSettled, IsFileUnsettled};
ghost use Rattle.cli_recover.specs.Recovered.{IsNotClearOf, IsRecovered, RecoverBlames};

use cli_arguments::RecoverWords;
use cli_faults::{Failure, check_paths};
use cli_line_file::{check_apart_from, settle_line};
use os_files::{System, path_beside};
use os_journal::recover_volume;
use os_line_file::LineFolders;
use std::io::Write;

/// Makes the changes that stand behind an open commit flag of the volume's journal, and removes the journal. Where a file of the volume's
/// table line is named, it is looked for first among DATA, HASH and the journal, and once the journal is gone the volume's line is left in
/// it, if a commit was cut short. It prints whether there were any changes.
///
/// Where it fails before the journal is gone, that file is as it was; where it fails later, it is as it was, settled, or, where its folder
/// refused, what a crash might leave of it meanwhile.
pub fn recover<S: System, L: LineFolders, W: Write>(
    system: &mut S,
    folders: &mut L,
    words: &RecoverWords<'_>,
    output: &mut W,
) -> Result<(), Failure>
    ensures recovered { OnOk result (IsRecovered S.System S.Journalled.Disks system.old system.new words.now
        (W.contents output.old) (W.contents output.new)) }
    ensures settled { OnOk result (IsFileSettled S.System S.Store.BlockStore L.LineFolders L.Folder.LineFolder system.new folders.old
        folders.new words.now) }
    ensures left { IfErr result (IsFileLeft S.System S.Store.BlockStore L.LineFolders L.Folder.LineFolder S.Journalled.Disks system.old
        system.new folders.old folders.new words.now) }
    ensures apart { OnOk result (MatchOption words.now.table_file ⊤ (λ path. IsClearOf S.System system.old words.now path.now)) }
    ensures blames { IfErr result (RecoverBlames S.System system.old words.now) }
    ensures system { IfErr result (IsS1For ((S.refuses system.old ≡ true)
        ⊎ FileFails S.System system.new L.LineFolders L.Folder.LineFolder folders.old words.now.table_file)) }
{
    check_paths(words.data_path, words.hash_path)?;
    check_clear(system, words)?;
    let is_recovered = recover_volume(system, words.data_path, words.hash_path, words.journal)?;
    settle(system, folders, words)?;
    print_recovered(is_recovered, output)
}

/// That the file of a table line, where one is named, is neither DATA nor HASH nor the journal.
fn check_clear<S: System>(system: &S, words: &RecoverWords<'_>) -> Result<(), Failure>
    ensures clear { OnOk result (MatchOption words.now.table_file ⊤ (λ path. IsClearOf S.System system.now words.now path.now)) }
    ensures blames { IfErr result (λ e. MatchOption words.now.table_file ⊥ (λ path. IsNotClearOf S.System system.now words.now
        path.now e)) }
    ensures system { IfErr result (IsS1For (S.refuses system.now ≡ true)) }
{
    let Some(path) = words.table_file else {
        return Ok(());
    };
    check_apart_from(system, path, words.data_path)?;
    check_apart_from(system, path, words.hash_path)?;
    match words.journal {
        Some(journal) => check_apart_from(system, path, journal),
        None => check_apart_from(system, path, &path_beside(system, words.hash_path)?),
    }
}

/// Leaves the volume's line in the file of a table line, where one is named.
fn settle<S: System, L: LineFolders>(
    system: &S,
    folders: &mut L,
    words: &RecoverWords<'_>,
) -> Result<(), Failure>
    ensures settled { OnOk result (IsFileSettled S.System S.Store.BlockStore L.LineFolders L.Folder.LineFolder system.now folders.old
        folders.new words.now) }
    ensures left { IfErr result (IsFileUnsettled S.System S.Store.BlockStore L.LineFolders L.Folder.LineFolder system.now folders.old
        folders.new words.now) }
    ensures refused { IfErr result BlamesNone }
    ensures system { IfErr result (IsS1For (FileFails S.System system.now L.LineFolders L.Folder.LineFolder folders.old
        words.now.table_file)) }
{
    match words.table_file {
        Some(path) => settle_line(system, folders, words.data_path, words.hash_path, path),
        None => Ok(()),
    }
}

/// Prints whether there were changes to make.
fn print_recovered<W: Write>(is_recovered: bool, output: &mut W) -> Result<(), Failure>
    ensures printed { OnOk result (Appends (W.contents output.old) (W.contents output.new) (recovered_line is_recovered)) }
    ensures refused { IfErr result BlamesNone }
    ensures system { IfErr result (IsS1For ⊥) }
{
    if is_recovered {
        writeln!(output, "recovered")?;
    } else {
        writeln!(output, "nothing to recover")?;
    }
    Ok(())
}
