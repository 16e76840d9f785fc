//! The whole program.

use crate::anywhere::{
    pull_anywhere, serve_anywhere, talk_anywhere, update_anywhere, verify_anywhere,
    verify_slice_anywhere,
};
use crate::told::Told;
use clap::Error;
use clap::error::ErrorKind;
use cli_arguments::{
    FormatWords, Request, explain, explain_block_size, explain_corrupt, explain_usage,
    explain_words, read_words, table_file, to_file,
};
use cli_dump::dump;
use cli_edit::{edit, scratch};
use cli_faults::{DONE, Failure, NOT_UNDERSTOOD, REFUSED, Word};
use cli_format::{format_join_kept, format_kept, format_slice};
use cli_recover::recover;
use cli_serve::fail;
use os_host::Host;
use os_line_file::OsFolders;
use os_urls::{Notes, check_here, is_url};
use std::fs::File;
use std::io::{Eprint, IsTerminal, Read, Write};
use std::net::{Net, TcpListener, TcpStream};
use std::rt::Files;
use std::time::Clock;

/// Does what the words ask for, of which the first is the program's own name, and answers the status that the process
/// ends with: 0 done; 1 refused, corrupt, or a fault of a file, a socket or the output; 2 words that were not
/// understood; 3 want of memory. What the program has to say goes to `output`; to `errors` goes why it refused, in words for
/// a person; where the status is 0 nothing, but for what `edit` and `update` say of a journal, and `pull` of a line that is of no use.
/// Where `errors` is a terminal, `format`, `verify`, `edit`, `update` and `pull` show on the system's standard error how far they are,
/// unless they are asked not to.
pub fn run<
    R: Files<File = File>
        + Net<Stream = TcpStream, Listener = TcpListener>
        + Clock
        + Eprint
        + AllocGlobal,
    I: Read,
    W: Write,
    E: Write + IsTerminal,
>(rt: &R, words: &[String], input: &mut I, output: &mut W, errors: &mut E) -> u8 {
    match read_words(rt.alloc(), words) {
        Ok(Some(request)) => do_request(rt, request, input, output, errors),
        Ok(None) => DONE,
        Err(error) => not_understood(&error, output, errors),
    }
}

fn do_request<
    R: Files<File = File>
        + Net<Stream = TcpStream, Listener = TcpListener>
        + Clock
        + Eprint
        + AllocGlobal,
    I: Read,
    W: Write,
    E: Write + IsTerminal,
>(rt: &R, request: Request<'_>, input: &mut I, output: &mut W, errors: &mut E) -> u8 {
    let notes = Notes::new(rt.alloc());
    match answer(rt, request, &notes, input, output, errors) {
        Ok(status) => {
            if status == REFUSED && matches!(request, Request::Verify(_)) {
                explain_corrupt(errors);
            }
            status
        }
        Err(failure) => {
            let status = fail(failure, output);
            explain(rt, request, &notes, failure, errors);
            status
        }
    }
}

fn answer<
    R: Files<File = File>
        + Net<Stream = TcpStream, Listener = TcpListener>
        + Clock
        + Eprint
        + AllocGlobal,
    I: Read,
    W: Write,
    E: Write + IsTerminal,
>(
    rt: &R,
    request: Request<'_>,
    notes: &Notes,
    input: &mut I,
    output: &mut W,
    errors: &mut E,
) -> Result<u8, Failure> {
    check_written(request)?;
    check_line_file(table_file(request), Word::TableFile)?;
    check_line_file(to_file(request), Word::ToFile)?;
    match request {
        Request::Scratch => scratch(rt, input, output, errors),
        Request::Format(words) => {
            format_as_asked(rt, &words, input, output, errors)?;
            explain_block_size(words.data_block_size, errors);
            Ok(DONE)
        },
        Request::Dump(words) => dump(&Host::new(rt), &words, output).map(|()| DONE),
        Request::Edit(words) => edit(rt, &mut OsFolders::new(rt), &words, output, errors),
        Request::Verify(words) => match words.slice {
            Some(asked) => verify_slice_anywhere(rt, &words, asked, notes, output, errors),
            None => verify_anywhere(rt, &words, notes, output, errors),
        },
        Request::Serve(words) => serve_anywhere(
            rt,
            rt,
            &words,
            notes,
            &mut Told::new(output, errors, words.listen),
        ),
        Request::Talk(words) => talk_anywhere(rt, &words, notes, input, output),
        Request::Recover(words) => {
            recover(&mut Host::new(rt), &mut OsFolders::new(rt), &words, output).map(|()| DONE)
        }
        Request::Update(words) => update_anywhere(rt, &words, notes, output, errors),
        Request::Pull(words) => pull_anywhere(rt, &words, notes, output, errors).map(|()| DONE),
    }
}

/// Makes a hash device: whole, a slice of it, or all but the slices.
fn format_as_asked<
    R: Files<File = File> + Clock + Eprint + AllocGlobal,
    I: Read,
    W: Write,
    E: IsTerminal,
>(
    rt: &R,
    words: &FormatWords<'_>,
    input: &mut I,
    output: &mut W,
    errors: &E,
) -> Result<(), Failure> {
    let mut system = Host::new(rt);
    let mut folders = OsFolders::new(rt);
    match words.slice {
        Some(_) if words.table_file.is_some() => Err(Failure::Word(Word::TableFile)),
        Some(asked) => format_slice(rt, &mut system, words, asked, output, errors),
        None if words.is_joined => {
            format_join_kept(rt.alloc(), &mut system, &mut folders, words, input, output)
        }
        None => format_kept(rt, &mut system, &mut folders, words, output, errors),
    }
}

/// That a command that writes names DATA and HASH by paths, and by no URLs.
fn check_written(request: Request<'_>) -> Result<(), Failure> {
    match request {
        Request::Format(words) => check_here(words.data_path, words.hash_path),
        Request::Edit(words) => check_here(words.data_path, words.hash_path),
        Request::Update(words) => check_here(words.data_path, words.hash_path),
        Request::Pull(words) => check_here(words.data_path, words.hash_path),
        Request::Recover(words) => check_here(words.data_path, words.hash_path),
        _ => Ok(()),
    }
}

/// That the file of a table line, where one is named, is named by a path, and by no URL.
fn check_line_file(path: Option<&str>, word: Word) -> Result<(), Failure> {
    match path {
        Some(path) if path.is_empty() || is_url(path) => Err(Failure::Word(word)),
        _ => Ok(()),
    }
}

/// Prints the texts of `clap`: help, usage and faults.
fn not_understood<W: Write, E: Write>(error: &Error, output: &mut W, errors: &mut E) -> u8 {
    if error.kind() == ErrorKind::OutOfMemory {
        explain_words(Failure::NoMemory, errors);
        return fail(Failure::NoMemory, output);
    }
    let written = write!(output, "{error}");
    match (written, error.use_stderr()) {
        (Err(_), _) => {
            explain_words(Failure::Output, errors);
            REFUSED
        }
        (Ok(()), true) => {
            explain_usage(error.kind(), errors);
            NOT_UNDERSTOOD
        }
        (Ok(()), false) => DONE,
    }
}
