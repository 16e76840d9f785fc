//! The commands `verify`, `serve` and `talk` where the table line may stand in a file: FILE, which they read and never write.

ghost use Rattle.std.specs.Borrow.{Bor};
ghost use Rattle.std.specs.Prelude.{◌^◌, ◌-◌, ◌≡◌, ℕ, List, true, Ok, IfOk, IfErr, OnOk};
ghost use Rattle.nbd_hub.specs.Failures.{FailsToRead, FailsToWrite};
ghost use Rattle.cli_faults.specs.Errors.{IsS1For};
ghost use Rattle.os_commit_flag.specs.Refusals.{BlamesNone};
ghost use Rattle.cli_serve.specs.Opening.{LiesAt};
ghost use Rattle.cli_serve.specs.Blamed.{ServeBlames, SliceBlames, TalkBlames};
ghost use Rattle.cli_serve.specs.Kept.{IsTrusted, IsTrustedIn, IsUnkeptOr};
ghost use Rattle.cli_serve.specs.Printed.{IsReported, IsServedAsAsked};
ghost use Rattle.cli_serve.specs.Serving.{status_of_session, IsOpenedBy, IsTalked};
ghost use Rattle.cli_serve.specs.Sliced.{IsSlicePrinted};

use crate::serving::serve;
use crate::slicing::verify_slice;
use crate::talking::talk;
use crate::verifying::verify;
use cli_arguments::{ServeWords, TalkWords, VerifyWords};
use cli_faults::Failure;
use cli_line_file::line_text;
use os_files::System;
use os_line_file::LineFolders;
use std::fs::File;
use std::io::{Eprint, IsTerminal, Write};
use std::net::{Net, TcpListener, TcpStream};
use std::rt::Files;
use std::time::Clock;
use verity_hub::{Input, Output};

/// [`verify`] under the line of the words, or the one that FILE holds, where it is named. That is read before any device is opened: S6
/// where there is a FILE.next, S1 where FILE isn't there or can't be read, L1 where it has more than one line or isn't UTF-8. Both files
/// are left as they are, whatever `verify` answers.
pub fn verify_kept<
    R: Clock + Eprint + AllocGlobal,
    S: System,
    L: LineFolders,
    W: Write,
    E: IsTerminal,
>(
    rt: &R,
    system: &S,
    folders: &mut L,
    words: &VerifyWords<'_>,
    output: &mut W,
    errors: &E,
) -> Result<u8, Failure>
    ensures reported { IfOk result (λ status. (text : List ℕ)
        × IsTrusted L.LineFolders L.Folder.LineFolder folders.old folders.new words.now.table.now words.now.table_file text
        × IsReported S.Store.BlockStore S.Store.BlockStore text
        (λ table image device. LiesAt S.System system.now table.dev table.data_blocks image
        × LiesAt S.System system.now table.hash_dev (2 ^ 64 - 1) device)
        status (W.contents output.old) (W.contents output.new)) }
    ensures refused { IfErr result (IsUnkeptOr L.LineFolders L.Folder.LineFolder folders.old folders.new words.now.table_file
        (λ e. BlamesNone e × IsS1For (S.refuses system.now ≡ true) e)) }
{
    let Some(path) = words.table_file else {
        return verify(rt, system, words, output, errors);
    };
    let line = line_text(rt.alloc(), folders, path)?;
    let words = VerifyWords {
        table: line.as_str(),
        ..*words
    };
    verify(rt, system, &words, output, errors)
}

/// [`verify_slice`], likewise.
pub fn verify_slice_kept<
    R: Clock + Eprint + AllocGlobal,
    S: System,
    L: LineFolders,
    W: Write,
    E: IsTerminal,
>(
    rt: &R,
    system: &S,
    folders: &mut L,
    words: &VerifyWords<'_>,
    asked: &str,
    output: &mut W,
    errors: &E,
) -> Result<u8, Failure>
    ensures reported { IfOk result (λ status. (text : List ℕ)
        × IsTrusted L.LineFolders L.Folder.LineFolder folders.old folders.new words.now.table.now words.now.table_file text
        × IsSlicePrinted S.Store.BlockStore S.Store.BlockStore text asked.now
        (λ table image device. LiesAt S.System system.now table.dev table.data_blocks image
        × LiesAt S.System system.now table.hash_dev (2 ^ 64 - 1) device)
        status (W.contents output.old) (W.contents output.new)) }
    ensures refused { IfErr result (IsUnkeptOr L.LineFolders L.Folder.LineFolder folders.old folders.new words.now.table_file
        (λ e. SliceBlames e × IsS1For (S.refuses system.now ≡ true) e)) }
{
    let Some(path) = words.table_file else {
        return verify_slice(rt, system, words, asked, output, errors);
    };
    let line = line_text(rt.alloc(), folders, path)?;
    let words = VerifyWords {
        table: line.as_str(),
        ..*words
    };
    verify_slice(rt, system, &words, asked, output, errors)
}

/// [`serve`] under the line of the words, or the one that FILE holds as it begins, where it is named. That is read before all else, and
/// both files are left as they are: S6, S1 and L1 as in [`verify_kept`].
pub fn serve_kept<
    R: Files<File = File>
        + Net<Stream = TcpStream, Listener = TcpListener>
        + Clock
        + Eprint
        + AllocGlobal,
    S: System,
    L: LineFolders,
    W: Write,
>(
    rt: &R,
    system: &S,
    folders: &mut L,
    words: &ServeWords<'_>,
    output: &mut W,
) -> Result<u8, Failure>
    ensures opened { OnOk result ((text : List ℕ)
        × IsTrusted L.LineFolders L.Folder.LineFolder folders.old folders.new words.now.table.now words.now.table_file text
        × IsOpenedBy S.System system.now text) }
    ensures done { result ≡ Ok 0
        → IsServedAsAsked words.now.sessions.now (W.contents output.old) (W.contents output.new) }
    ensures refused { IfErr result (IsUnkeptOr L.LineFolders L.Folder.LineFolder folders.old folders.new words.now.table_file
        (λ e. ServeBlames words.now e × IsS1For (S.refuses system.now ≡ true) e)) }
{
    let Some(path) = words.table_file else {
        return serve(rt, system, words, output);
    };
    let line = line_text(rt.alloc(), folders, path)?;
    let words = ServeWords {
        table: line.as_str(),
        ..*words
    };
    serve(rt, system, &words, output)
}

/// [`talk`] under the line of the words, or the one that FILE holds as it begins, where it is named. That is read before all else, and both
/// files are left as they are: S6, S1 and L1 as in [`verify_kept`].
pub fn talk_kept<S: System, L: LineFolders, I: Input, W: Output>(
    system: &S,
    folders: &mut L,
    words: &TalkWords<'_>,
    input: &mut I,
    output: &mut W,
) -> Result<u8, Failure>
    ensures ended { IfOk result (λ status. (line : Bor (List ℕ))
        × IsTrustedIn L.LineFolders L.Folder.LineFolder folders.old folders.new words.now.table words.now.table_file line
        × ((ended : _) × (status ≡ status_of_session ended)
        × IsTalked S.Store.BlockStore S.Store.BlockStore (record words.now { table = line }) (record {
          reader = I.remaining input.old;
          reader' = I.remaining input.new;
          writer = W.contents output.old;
          writer' = W.contents output.new;
        }) ended
        × FailsToRead (I.failures input.old) (I.failures input.new) ended
        × FailsToWrite (W.failures output.old) (W.failures output.new) ended)) }
    ensures refused { IfErr result (IsUnkeptOr L.LineFolders L.Folder.LineFolder folders.old folders.new words.now.table_file
        (λ e. TalkBlames words.now e × IsS1For (S.refuses system.now ≡ true) e)) }
{
    let Some(path) = words.table_file else {
        return talk(system, words, input, output);
    };
    let line = line_text(system.alloc(), folders, path)?;
    let words = TalkWords {
        table: line.as_str(),
        ..*words
    };
    talk(system, &words, input, output)
}
