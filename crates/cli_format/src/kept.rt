//! The command `format` where its table line is kept in a file, too: FILE.
ghost use Rattle.std.specs.Prelude.{◌≡◌, ◌⊎◌, ℕ, List, [], true, Some, None, MatchOption, IfOk, IfErr, OnOk, OnErr, ⊤};
ghost use Rattle.std.specs.Io.KnownBytes.{Appends};
ghost use Rattle.os_line_file.specs.Folder.{with_next, IsDurable};
ghost use Rattle.cli_line_file.specs.Files.{IsOfFolder};
ghost use Rattle.cli_line_file.specs.Keeping.{IsKept};
ghost use Rattle.cli_faults.specs.Errors.{IsS1For};
ghost use Rattle.cli_faults.specs.declared.command.Command.TheVariants as commands;
ghost use Rattle.cli_format.specs.Blamed.{FormatBlames};
ghost use Rattle.cli_format.specs.Formatting.{AreTaken, FallsShort};
ghost use Rattle.cli_format.specs.Kept.{IsClear, IsKeptAt, IsLeftAt, IsLeftWith, IsNotClear, IsOfArgument, IsReplacedBy, IsUnopened};
ghost use Rattle.cli_format.specs.Kept.{Keeps};
ghost use Rattle.cli_format.specs.Made.{IsLeft, LiesAsked, LiesFor};
ghost use Rattle.cli_format.specs.Printed.{IsFormatted};
ghost use Rattle.cli_format.specs.Sliced.{IsJoined, IsLeftBy};

use crate::formatting::{format, read_shape};
use crate::joining::format_join;
use cli_arguments::FormatWords;
use cli_faults::{Failure, check_paths, salt_bytes};
use cli_line_file::{check_apart_from, close_line_file, keep_printed, open_line_file, try_next};
use os_files::System;
use os_line_file::{LineFolder, LineFolders};
use std::alloc::Global;
use std::io::{Eprint, IsTerminal, Read, Write};
use std::time::Clock;
use verity_line_file::LineFile;

/// [`format`], which puts the table line in FILE's place too, where FILE is named, before it prints it.
///
/// FILE is looked at once the words are read: it and FILE.next are neither DATA nor HASH, and can be made there, or nothing is changed.
/// They are looked at once more when HASH is made; then FILE is replaced by a file that has the line and a line feed. Both are opened once,
/// and closed at the end, after a failure too.
///
/// After a failure FILE is as it was, or, where HASH was made, has the line of it.
pub fn format_kept<
    R: Clock + Eprint + AllocGlobal,
    S: System,
    L: LineFolders,
    W: Write,
    E: IsTerminal,
>(
    rt: &R,
    system: &mut S,
    folders: &mut L,
    words: &FormatWords<'_>,
    output: &mut W,
    errors: &E,
) -> Result<(), Failure>
    ensures printed { OnOk result (IsFormatted S.Store.BlockStore
        (LiesAsked S.System S.Store.BlockStore system.old words.now.data_path.now)
        (IsLeft S.System system.old system.new words.now.hash_path.now)
        words.now (W.contents output.old) (W.contents output.new)) }
    ensures taken { OnOk result (AreTaken S.System system.old words.now) }
    ensures kept { OnOk result (MatchOption words.now.table_file (folders.new ≡ folders.old) (λ path. IsKeptAt L.LineFolders
        L.Folder.LineFolder folders.old folders.new path.now
        (IsFormatted S.Store.BlockStore (LiesAsked S.System S.Store.BlockStore system.old words.now.data_path.now)
        (IsLeft S.System system.old system.new words.now.hash_path.now) words.now)
        (W.contents output.old) (W.contents output.new))) }
    ensures apart { OnOk result (MatchOption words.now.table_file ⊤ (λ path. IsClear S.System system.old words.now path.now
        × IsClear S.System system.new words.now path.now)) }
    ensures blames { words.now.table_file ≡ None → IfErr result (FormatBlames S.System system.old words.now) }
    ensures system { words.now.table_file ≡ None
        → IfErr result (IsS1For ((S.refuses system.old ≡ true) ⊎ FallsShort S.System system.old words.now)) }
    ensures left { IfErr result (λ e. MatchOption words.now.table_file (folders.new ≡ folders.old) (λ path.
        IsUnopened L.LineFolders L.Folder.LineFolder folders.old folders.new path.now S.System system.old system.new words.now e
        ⊎ IsLeftAt L.LineFolders L.Folder.LineFolder folders.old folders.new path.now
        (IsFormatted S.Store.BlockStore (LiesAsked S.System S.Store.BlockStore system.old words.now.data_path.now)
        (IsLeft S.System system.old system.new words.now.hash_path.now) words.now))) }
    ensures refuses { L.refuses folders.new ≡ L.refuses folders.old }
{
    let Some(path) = words.table_file else {
        return format(rt, system, words, output, errors);
    };
    check_words(rt.alloc(), words)?;
    let mut file = open_clear(system, folders, words, path)?;
    let formatted = format_into(rt, system, words, path, &mut file, output, errors);
    close_line_file(folders, file);
    formatted
}

/// [`format_join`], likewise.
pub fn format_join_kept<S: System, L: LineFolders, I: Read, W: Write>(
    alloc: Global,
    system: &mut S,
    folders: &mut L,
    words: &FormatWords<'_>,
    input: &mut I,
    output: &mut W,
) -> Result<(), Failure>
    ensures printed { OnOk result (IsJoined S.Store.BlockStore
        (LiesFor commands.Format S.System S.Store.BlockStore system.old words.now.data_path.now)
        (IsLeftBy S.System commands.Format system.old system.new words.now.hash_path.now)
        words.now (I.remaining input.old) (W.contents output.old) (W.contents output.new)) }
    ensures kept { OnOk result (MatchOption words.now.table_file (folders.new ≡ folders.old) (λ path. IsKeptAt L.LineFolders
        L.Folder.LineFolder folders.old folders.new path.now
        (IsJoined S.Store.BlockStore (LiesFor commands.Format S.System S.Store.BlockStore system.old words.now.data_path.now)
        (IsLeftBy S.System commands.Format system.old system.new words.now.hash_path.now) words.now (I.remaining input.old))
        (W.contents output.old) (W.contents output.new))) }
    ensures apart { OnOk result (MatchOption words.now.table_file ⊤ (λ path. IsClear S.System system.old words.now path.now
        × IsClear S.System system.new words.now path.now)) }
    ensures left { IfErr result (λ e. MatchOption words.now.table_file (folders.new ≡ folders.old) (λ path.
        IsUnopened L.LineFolders L.Folder.LineFolder folders.old folders.new path.now S.System system.old system.new words.now e
        ⊎ IsLeftAt L.LineFolders L.Folder.LineFolder folders.old folders.new path.now
        (IsJoined S.Store.BlockStore (LiesFor commands.Format S.System S.Store.BlockStore system.old words.now.data_path.now)
        (IsLeftBy S.System commands.Format system.old system.new words.now.hash_path.now) words.now (I.remaining input.old)))) }
    ensures refuses { L.refuses folders.new ≡ L.refuses folders.old }
{
    let Some(path) = words.table_file else {
        return format_join(alloc, system, words, input, output);
    };
    check_words(alloc, words)?;
    let mut file = open_clear(system, folders, words, path)?;
    let joined = join_into(alloc, system, words, path, &mut file, input, output);
    close_line_file(folders, file);
    joined
}

/// That the words are understood.
fn check_words(alloc: Global, words: &FormatWords<'_>) -> Result<(), Failure>
    ensures { IfErr result IsOfArgument }
{
    check_paths(words.data_path, words.hash_path)?;
    read_shape(words)?;
    salt_bytes(alloc, words.salt)?;
    Ok(())
}

/// FILE and FILE.next, which are neither DATA nor HASH.
fn open_clear<S: System, L: LineFolders>(
    system: &S,
    folders: &mut L,
    words: &FormatWords<'_>,
    path: &str,
) -> Result<LineFile<L::Folder>, Failure>
    ensures opened { IfOk result (λ file. L.opens folders.old path.now file.folder folders.new) }
    ensures unchanged { OnErr result (folders.new ≡ folders.old) }
    ensures clear { OnOk result (IsClear S.System system.now words.now path.now) }
    ensures refused { IfErr result (λ e. IsNotClear S.System system.now words.now path.now e
        ⊎ IsOfFolder (L.refuses folders.old ≡ true) e) }
    ensures refuses { L.refuses folders.new ≡ L.refuses folders.old }
{
    check_clear(system, words, path)?;
    open_line_file(folders, path)
}

/// That FILE and FILE.next are neither DATA nor HASH.
fn check_clear<S: System>(system: &S, words: &FormatWords<'_>, path: &str) -> Result<(), Failure>
    ensures clear { OnOk result (IsClear S.System system.now words.now path.now) }
    ensures refused { IfErr result (IsNotClear S.System system.now words.now path.now) }
{
    check_apart_from(system, path, words.data_path)?;
    check_apart_from(system, path, words.hash_path)
}

/// Looks whether FILE can be replaced, makes the device, puts its line in FILE's place, and prints it.
fn format_into<R: Clock + Eprint + AllocGlobal, S: System, F: LineFolder, W: Write, E: IsTerminal>(
    rt: &R,
    system: &mut S,
    words: &FormatWords<'_>,
    path: &str,
    file: &mut LineFile<F>,
    output: &mut W,
    errors: &E,
) -> Result<(), Failure>
    ensures printed { OnOk result (IsFormatted S.Store.BlockStore
        (LiesAsked S.System S.Store.BlockStore system.old words.now.data_path.now)
        (IsLeft S.System system.old system.new words.now.hash_path.now)
        words.now (W.contents output.old) (W.contents output.new)) }
    ensures taken { OnOk result (AreTaken S.System system.old words.now) }
    ensures kept { OnOk result (Keeps F.LineFolder
        (IsFormatted S.Store.BlockStore (LiesAsked S.System S.Store.BlockStore system.old words.now.data_path.now)
        (IsLeft S.System system.old system.new words.now.hash_path.now) words.now)
        (W.contents output.old) (W.contents output.new) file.old.folder file.new.folder) }
    ensures apart { OnOk result (IsClear S.System system.new words.now path.now) }
    ensures left { IfErr result (λ _. IsLeftWith F.LineFolder
        (IsFormatted S.Store.BlockStore (LiesAsked S.System S.Store.BlockStore system.old words.now.data_path.now)
        (IsLeft S.System system.old system.new words.now.hash_path.now) words.now) file.old.folder file.new.folder) }
{
    try_next(file)?;
    let mut line = Vec::new(rt.alloc());
    format(rt, system, words, &mut line, errors)?;
    keep_and_print(rt.alloc(), system, words, path, file, &line, output)
}

/// Looks whether FILE can be replaced, makes the device of slices, puts its line in FILE's place, and prints it.
fn join_into<S: System, F: LineFolder, I: Read, W: Write>(
    alloc: Global,
    system: &mut S,
    words: &FormatWords<'_>,
    path: &str,
    file: &mut LineFile<F>,
    input: &mut I,
    output: &mut W,
) -> Result<(), Failure>
    ensures printed { OnOk result (IsJoined S.Store.BlockStore
        (LiesFor commands.Format S.System S.Store.BlockStore system.old words.now.data_path.now)
        (IsLeftBy S.System commands.Format system.old system.new words.now.hash_path.now)
        words.now (I.remaining input.old) (W.contents output.old) (W.contents output.new)) }
    ensures kept { OnOk result (Keeps F.LineFolder
        (IsJoined S.Store.BlockStore (LiesFor commands.Format S.System S.Store.BlockStore system.old words.now.data_path.now)
        (IsLeftBy S.System commands.Format system.old system.new words.now.hash_path.now) words.now (I.remaining input.old))
        (W.contents output.old) (W.contents output.new) file.old.folder file.new.folder) }
    ensures apart { OnOk result (IsClear S.System system.new words.now path.now) }
    ensures left { IfErr result (λ _. IsLeftWith F.LineFolder
        (IsJoined S.Store.BlockStore (LiesFor commands.Format S.System S.Store.BlockStore system.old words.now.data_path.now)
        (IsLeftBy S.System commands.Format system.old system.new words.now.hash_path.now) words.now (I.remaining input.old))
        file.old.folder file.new.folder) }
{
    try_next(file)?;
    let mut line = Vec::new(alloc);
    format_join(alloc, system, words, input, &mut line)?;
    keep_and_print(alloc, system, words, path, file, &line, output)
}

/// Puts a line that was printed into memory in FILE's place, once HASH is there, and prints it.
fn keep_and_print<S: System, F: LineFolder, W: Write>(
    alloc: Global,
    system: &S,
    words: &FormatWords<'_>,
    path: &str,
    file: &mut LineFile<F>,
    line: &[u8],
    output: &mut W,
) -> Result<(), Failure>
    ensures apart { OnOk result (IsClear S.System system.now words.now path.now) }
    ensures kept { OnOk result (IsKept line.now (F.seen file.new.folder)) }
    ensures durable { OnOk result (IsDurable (F.seen file.new.folder) (F.may_leave file.new.folder)) }
    ensures any_moment { IsReplacedBy F.LineFolder line.now file.old.folder file.new.folder }
    ensures printed { OnOk result (Appends (W.contents output.old) (W.contents output.new) line.now) }
{
    check_clear(system, words, path)?;
    keep_printed(alloc, file, line)?;
    output.write_all(line)?;
    Ok(())
}
