//! What a refusal of `pull` is about: one of the source's files, which are opened first, or one of those that it makes.

use crate::looking::{Detail, look_at_lengths, look_at_line, look_at_store, subject_of};
use crate::parts::Parts;
use cli_faults::{Command, Fault};
use os_host::{Paths, open_there};
use os_urls::Notes;
use std::fs::File;
use std::rt::Files;
use verity_build::BuildFault;
use verity_check::CheckFault;
use verity_edit::EditFault;
use verity_store::{StoreFault, Which};
use verity_superblock::{SuperFault, TableFault};

/// Where a journal stands whose commit was cut short.
const JOURNALS: &str = "a journal beside HASH or beside the source's hash device";

/// What a fault of `pull` is about, and what is seen there.
pub(crate) fn look_at_pull<'a, R: Files<File = File>>(
    rt: &R,
    parts: Parts<'a>,
    notes: &Notes,
    fault: Fault,
) -> (&'a str, Detail<'a>) {
    match fault {
        Fault::Store(fault) => look_at_four(rt, parts, notes, fault),
        Fault::InUse(which) => (in_use(rt, parts, which), Detail::None),
        Fault::UnderWay | Fault::Journal => (JOURNALS, Detail::None),
        Fault::Superblock(SuperFault::Offset) => ("--hash-offset", Detail::None),
        Fault::Superblock(_) | Fault::Edit(EditFault::Line) => (parts.hash, Detail::NoUuid),
        Fault::Build(BuildFault::Store(which)) => (parts.made_path(which), Detail::None),
        Fault::Check(CheckFault::Mismatch(_)) => ("the source", Detail::None),
        Fault::Check(CheckFault::Lengths) => look_at_lengths(rt, of_source(parts), notes),
        Fault::Table(fault) => look_at_lines(parts, fault),
        fault => (subject_of(parts, fault), Detail::None),
    }
}

/// The source, as `verify` reads one.
fn of_source<'a>(parts: Parts<'a>) -> Parts<'a> {
    Parts {
        command: Command::Verify,
        ..parts
    }
}

/// What is made, as a command's own files.
fn of_made<'a>(parts: Parts<'a>) -> Parts<'a> {
    Parts {
        data: parts.made_data,
        hash: parts.made_hash,
        data_blocks: 0,
        ..parts
    }
}

/// The first of the four files in which a store's fault is seen again, in the order in which they are opened.
fn look_at_four<'a, R: Files<File = File>>(
    rt: &R,
    parts: Parts<'a>,
    notes: &Notes,
    fault: StoreFault,
) -> (&'a str, Detail<'a>) {
    for parts in [of_source(parts), of_made(parts)] {
        for which in [Which::Data, Which::Hash] {
            if let Some(detail) = look_at_store(rt, parts, notes, which, fault) {
                return (parts.path(which), detail);
            }
        }
    }
    ("the volume", Detail::None)
}

/// Which of two files another program works on: the source's, where a reader is shut out of it.
fn in_use<'a, R: Files<File = File>>(rt: &R, parts: Parts<'a>, which: Which) -> &'a str {
    let path = parts.path(which);
    if is_shut_out(rt, path, which) {
        path
    } else {
        parts.made_path(which)
    }
}

/// Whether another program's lock shuts a reader out of a file.
fn is_shut_out<R: Files<File = File>>(rt: &R, path: &str, which: Which) -> bool {
    match open_there(rt, path, Command::Verify, which) {
        Ok(opened) => matches!(
            rt.lock(&opened, Command::Verify.lock(), which),
            Err(Fault::InUse(_))
        ),
        Err(_) => false,
    }
}

/// Which of the fields is wrong, where but one line was named; that of a file isn't.
fn look_at_lines<'a>(parts: Parts<'a>, fault: TableFault) -> (&'a str, Detail<'a>) {
    if parts.source.is_named() {
        ("--table", Detail::None)
    } else if parts.line.is_empty() {
        ("--to or --table", Detail::None)
    } else {
        ("--to", look_at_line(parts.line, fault))
    }
}
