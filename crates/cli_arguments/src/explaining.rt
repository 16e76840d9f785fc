//! Why a command stopped, in words for a person.
//!
//! A line names what it is about, says what is wrong, by which fault, and what to do next. The words of a fault stand in the
//! table of `cli_messages`; what more there is to say of a file is found by a second look at it. What can't be written is
//! passed over: the status and the line on standard output stand.

use crate::line_files::{LineSeen, is_of_pull, opened, table_file, to_file};
use crate::looking::{Detail, Subject, look};
use crate::parts::{Parts, parts_with};
use crate::words::Request;
use clap::error::ErrorKind;
use cli_faults::{Failure, Fault, Word, block_size};
use cli_script::Line;
use os_urls::Notes;
use std::fs::File;
use std::io;
use std::io::Write;
use std::rt::Files;
use verity_superblock::TableFault;

/// Says why a command stopped, beside what was seen of devices at servers.
pub fn explain<R: Files<File = File> + AllocGlobal, E: Write>(
    rt: &R,
    request: Request<'_>,
    notes: &Notes,
    failure: Failure,
    errors: &mut E,
) {
    match failure {
        Failure::Refused(fault) => explain_refused(rt, request, notes, fault, errors),
        Failure::Word(word) if matches!(request, Request::Pull(_)) => explain_made(word, errors),
        failure => explain_words(failure, errors),
    }
}

/// Says why a command stopped that looked at no file.
pub fn explain_words<E: Write>(failure: Failure, errors: &mut E) {
    let _ = match failure {
        Failure::Word(word) => {
            let wanted = word.wanted();
            writeln!(errors, "dalgovuun: {word}: {wanted}")
        }
        Failure::Refused(fault) => tell(errors, Subject::Named("the volume"), &Detail::None, fault),
        Failure::NoMemory => writeln!(errors, "dalgovuun: memory was refused"),
        Failure::Output => writeln!(errors, "dalgovuun: standard output can't be written"),
    };
}

/// Says what the words of `pull` can be.
fn explain_made<E: Write>(word: Word, errors: &mut E) {
    let wanted = word.wanted();
    let _ = match word {
        Word::Data | Word::Hash => {
            writeln!(
                errors,
                "dalgovuun: {word}: {wanted}; and none of the source's files"
            )
        }
        word => writeln!(errors, "dalgovuun: {word}: {wanted}"),
    };
}

/// Says that `--table` is of no use to a pull.
pub fn explain_unused_line<E: Write>(errors: &mut E) {
    let _ = writeln!(
        errors,
        "dalgovuun: --table isn't used: its sizes, count, salt or algorithm aren't those of --to, or a file is shorter; each block is read"
    );
}

/// Says that `clap` didn't understand the words.
pub fn explain_usage<E: Write>(kind: ErrorKind, errors: &mut E) {
    let _ = writeln!(errors, "dalgovuun: {kind}; see dalgovuun --help");
}

/// Says what `verify` found.
pub fn explain_corrupt<E: Write>(errors: &mut E) {
    let _ = writeln!(
        errors,
        "dalgovuun: not every block could be checked to be the one that the table line vouches for"
    );
}

/// The most bytes of a data block that Linux maps on x86-64: a page of memory.
const PAGE: usize = 4096;

/// Says that Linux doesn't map data blocks of this size, where they are longer than a page of memory.
pub fn explain_block_size<E: Write>(size: &str, errors: &mut E) {
    if let Ok(size) = block_size(Word::DataBlockSize, size) {
        if size > PAGE {
            let _ = writeln!(
                errors,
                "dalgovuun: data blocks of {size} bytes: Linux maps data blocks of at most a page of memory ({PAGE} bytes on x86-64)"
            );
        }
    }
}

/// Says that commits go without a journal.
pub fn explain_no_journal<E: Write>(hash_path: &str, errors: &mut E) {
    let _ = writeln!(
        errors,
        "dalgovuun: {hash_path}: a device, and no --journal: a crash in the middle of a commit can leave a volume that can't be opened"
    );
}

/// Says that a commit was recovered.
pub fn explain_recovered<E: Write>(path: &str, errors: &mut E) {
    let _ = writeln!(
        errors,
        "dalgovuun: {path}: a commit that a crash cut short was recovered first"
    );
}

/// Says why a command was refused. Where its line stands in a file, what that holds by now counts.
fn explain_refused<R: Files<File = File> + AllocGlobal, E: Write>(
    rt: &R,
    request: Request<'_>,
    notes: &Notes,
    fault: Fault,
    errors: &mut E,
) {
    let own = opened(rt, table_file(request));
    let source = opened(rt, to_file(request));
    let own = LineSeen::new(table_file(request), &own);
    let source = LineSeen::new(to_file(request), &source);
    explain_fault(rt, parts_with(request, own, source), notes, fault, errors);
}

fn explain_fault<R: Files<File = File> + AllocGlobal, E: Write>(
    rt: &R,
    parts: Parts<'_>,
    notes: &Notes,
    fault: Fault,
    errors: &mut E,
) {
    let (subject, detail) = look(rt, parts, notes, fault);
    let _ = match subject {
        Subject::Next(file) if fault == Fault::UnderWay && is_of_pull(parts) => {
            tell_pulling(errors, file, fault)
        }
        Subject::Next(file) if fault == Fault::UnderWay => tell_under_way(errors, file, fault),
        Subject::Both(file) => tell_unsettled(errors, file, fault),
        subject => tell(errors, subject, &detail, fault),
    };
}

/// What a line of a script asked for that wasn't done, and why; of a line that is none, nothing.
#[derive(Clone, Copy, Debug)]
pub enum Refusal<'a> {
    BadLine,
    Refused(Line<'a>, Fault),
}

/// Which line of which script, and the count and the size of the volume's data blocks.
#[derive(Clone, Copy)]
pub struct Where<'a> {
    pub script: &'a str,
    pub line: usize,
    pub blocks: u64,
    pub size: usize,
}

/// Says why a line of a script wasn't done.
pub fn explain_line<E: Write>(place: Where<'_>, refusal: Refusal<'_>, errors: &mut E) {
    let Where { script, line, .. } = place;
    let _ = match refusal {
        Refusal::BadLine => {
            writeln!(
                errors,
                "dalgovuun: {script}:{line}: no line of a script; these are write N HEX, fill N HH, grow C, shrink C, discard, commit"
            )
        }
        Refusal::Refused(asked, fault) => {
            let _ = write!(errors, "dalgovuun: {script}:{line}");
            let next = fault.number().meaning().next;
            tell_of(errors, &asked_for(place, asked), fault, next)
        }
    };
}

/// What a line asked for, beside what the volume has.
fn asked_for(place: Where<'_>, asked: Line<'_>) -> Detail<'static> {
    match asked {
        Line::Write(block, digits) if block < place.blocks => {
            Detail::Bytes(digits.len() as u64 / 2, place.size as u64)
        }
        Line::Write(block, _) | Line::Fill(block, _) => Detail::Block(block, place.blocks),
        Line::Grow(count) | Line::Shrink(count) => Detail::Count(count, place.blocks),
        Line::Discard | Line::Commit => Detail::None,
    }
}

/// A line: what it is about, what is wrong, by which fault, and what to do next.
fn tell<E: Write>(
    errors: &mut E,
    subject: Subject<'_>,
    detail: &Detail<'_>,
    fault: Fault,
) -> io::Result<()> {
    let next = match (subject, fault) {
        (Subject::Line(_), Fault::Table(TableFault::Fields)) => PUT_THERE,
        _ => fault.number().meaning().next,
    };
    write!(errors, "dalgovuun: {subject}")?;
    tell_of(errors, detail, fault, next)
}

/// What to do about a file that holds no table line.
const PUT_THERE: &str = "put the line there that format, edit, update or pull printed";

/// Says that FILE.next stands in the way.
fn tell_under_way<E: Write>(errors: &mut E, file: &str, fault: Fault) -> io::Result<()> {
    write!(
        errors,
        "dalgovuun: {file}.next: a commit of this volume is under way, or was cut short ({fault}); "
    )?;
    writeln!(errors, "run recover DATA HASH --table-file {file}")
}

/// Says that a pull stands in the way, by FILE.next.
fn tell_pulling<E: Write>(errors: &mut E, file: &str, fault: Fault) -> io::Result<()> {
    writeln!(
        errors,
        "dalgovuun: {file}.next: a pull of this volume is under way, or was cut short ({fault}); run that pull again"
    )
}

/// Says that neither FILE's line nor FILE.next's is the volume's.
fn tell_unsettled<E: Write>(errors: &mut E, file: &str, fault: Fault) -> io::Result<()> {
    let what = fault.number().meaning().what;
    write!(
        errors,
        "dalgovuun: {file} and {file}.next: neither has the line of this volume: {what} ({fault}); both stay: "
    )?;
    writeln!(
        errors,
        "name the volume's own DATA and HASH, or put the line that was printed for it last in {file} and remove {file}.next"
    )
}

/// The rest of a line, from what is wrong on.
fn tell_of<E: Write>(
    errors: &mut E,
    detail: &Detail<'_>,
    fault: Fault,
    next: &str,
) -> io::Result<()> {
    let what = fault.number().meaning().what;
    write!(errors, ": {what}")?;
    if let Some(cause) = fault.cause() {
        let why = cause.meaning().what;
        write!(errors, ": {why}")?;
    }
    write!(errors, "{detail} ({fault})")?;
    if !next.is_empty() {
        write!(errors, "; {next}")?;
    }
    writeln!(errors)
}
