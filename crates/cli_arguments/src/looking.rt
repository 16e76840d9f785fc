//! A second look at what a command was refused for: which file or word it is, and what is seen there.

use crate::line_files::{look_at_folder, look_at_line_files};
use crate::parts::{Parts, field};
use crate::pulling::look_at_pull;
use cli_faults::{Command, Fault};
use os_files::file_identity;
use os_host::open_there;
use os_urls::{Notes, is_url};
use std::fs::{File, OpenOptions};
use std::rt::Files;
use std::{fmt, fs, io};
use verity_build::BuildFault;
use verity_check::CheckFault;
use verity_edit::EditFault;
use verity_profile::is_block_size;
use verity_store::{StoreFault, Which};
use verity_superblock::{SuperFault, TableFault};

/// The most blocks of a cache.
const MOST_CACHED: u64 = 65_536;

/// What is seen. Its text begins with what sets it off from the words before it.
#[derive(Debug, Drop)]
pub enum Detail<'a> {
    None,
    /// What the system said of a path.
    System(io::Error),
    /// It is a folder, a pipe, a socket or a terminal.
    NoFile,
    /// It isn't there, and can't be made there.
    Unmade,
    /// So many bytes, and blocks of so many.
    Bytes(u64, u64),
    /// A block of this number, and the count of blocks.
    Block(u64, u64),
    /// A count that was asked for, and the present one.
    Count(u64, u64),
    /// It has so many blocks and is to have so many.
    Few(u64, u64),
    /// So many fields.
    Fields(usize),
    /// The text that was found, or what else it is.
    Text(&'a str),
    /// The number that was found.
    Number(u64),
    /// Why what lies at a server couldn't be opened.
    Reason(String),
    /// No UUID is found.
    NoUuid,
}

impl fmt::Display for Detail<'_> {
    ghost use Rattle.cli_arguments.specs.Details.{detail_text};

    ghost output = { detail_text };

    fn fmt<W: fmt::Write>(&self, f: &mut fmt::Formatter<W>) -> fmt::Result {
        match self {
            Detail::None => Ok(()),
            Detail::System(error) => write!(f, ": {error}"),
            Detail::NoFile => f.write_str(": it is neither a file nor a block device"),
            Detail::Unmade => f.write_str(": it isn't there, and can't be made there"),
            Detail::Bytes(bytes, size) => write!(f, ": {bytes} bytes, blocks of {size}"),
            Detail::Block(block, count) => write!(f, ": block {block}, count {count}"),
            Detail::Count(asked, count) => write!(f, ": {asked}, where the count is {count}"),
            Detail::Few(seen, wanted) => write!(f, ": {seen} blocks, not {wanted}"),
            Detail::Fields(count) => write!(f, ": this one has {count}"),
            Detail::Text(text) => write!(f, ": {text}"),
            Detail::Number(number) => write!(f, ": {number}"),
            Detail::Reason(reason) => write!(f, ": {reason}"),
            Detail::NoUuid => f.write_str(
                ": no UUID is found for HASH's superblock; name one with --uuid",
            ),
        }
    }
}

/// What a fault is about.
#[derive(Clone, Copy, Debug)]
pub enum Subject<'a> {
    /// A path, an argument, an option, or what else is named so.
    Named(&'a str),
    /// The line in this file.
    Line(&'a str),
    /// FILE.next of this FILE: a commit or a pull is under way.
    Next(&'a str),
    /// A volume of which neither this FILE nor its FILE.next has the line.
    Both(&'a str),
}

impl fmt::Display for Subject<'_> {
    ghost use Rattle.cli_arguments.specs.Details.{subject_text};
    ghost use Rattle.std.specs.Prelude.{Some};

    ghost output = { λ subject. Some (subject_text subject) };

    fn fmt<W: fmt::Write>(&self, f: &mut fmt::Formatter<W>) -> fmt::Result {
        match self {
            Subject::Named(name) => f.write_str(name),
            Subject::Line(file) => write!(f, "the line in {file}"),
            Subject::Next(file) => write!(f, "{file}.next"),
            Subject::Both(file) => write!(f, "{file} and {file}.next"),
        }
    }
}

/// What a fault of a command is about, and what is seen there.
pub fn look<'a, R: Files<File = File> + AllocGlobal>(
    rt: &R,
    parts: Parts<'a>,
    notes: &Notes,
    fault: Fault,
) -> (Subject<'a>, Detail<'a>) {
    match look_at_line_files(rt, parts, fault) {
        Some(seen) => seen,
        None => {
            let (subject, detail) = look_at_all_else(rt, parts, notes, fault);
            match (fault, &detail, look_at_folder(parts)) {
                (Fault::Store(StoreFault::Device), Detail::None, Some(seen)) => seen,
                _ => (Subject::Named(subject), detail),
            }
        }
    }
}

/// The same, where it isn't FILE.
fn look_at_all_else<'a, R: Files<File = File>>(
    rt: &R,
    parts: Parts<'a>,
    notes: &Notes,
    fault: Fault,
) -> (&'a str, Detail<'a>) {
    match fault {
        fault if parts.command == Command::Pull => look_at_pull(rt, parts, notes, fault),
        Fault::Store(StoreFault::BlockSize) => look_at_sizes(parts),
        Fault::Store(fault) => look_at_files(rt, parts, notes, fault),
        Fault::Check(CheckFault::Lengths) => look_at_lengths(rt, parts, notes),
        Fault::Table(fault) => ("the table line", look_at_line(parts.line, fault)),
        Fault::Socket => (parts.address, Detail::None),
        fault => (subject_of(parts, fault), Detail::None),
    }
}

/// What a fault is about that needs no second look.
pub(crate) fn subject_of<'a>(parts: Parts<'a>, fault: Fault) -> &'a str {
    match fault {
        Fault::InUse(which) => parts.path(which),
        Fault::NewInUse => parts.read,
        Fault::UnderWay | Fault::Journal => parts.hash,
        Fault::Salt(_) => "--salt",
        Fault::Superblock(SuperFault::Offset) => "--hash-offset",
        Fault::Superblock(_) => parts.hash,
        Fault::Build(fault) => built(parts, fault),
        Fault::Uncovered => "standard input",
        Fault::Check(CheckFault::Store(which)) => parts.path(which),
        Fault::Check(CheckFault::CacheSize) => cache_of(parts),
        Fault::Check(_) => "the volume",
        Fault::Edit(fault) => edited(parts, fault),
        Fault::Session(_) => "--name",
        Fault::Store(_) => parts.data,
        Fault::Table(_) => "the table line",
        Fault::Socket => parts.address,
    }
}

fn built<'a>(parts: Parts<'a>, fault: BuildFault) -> &'a str {
    match fault {
        BuildFault::Geometry(_) => parts.data,
        BuildFault::Store(which) => parts.path(which),
        BuildFault::NoMemory => "the volume",
        BuildFault::Offset => "--hash-offset",
    }
}

fn edited<'a>(parts: Parts<'a>, fault: EditFault) -> &'a str {
    match fault {
        EditFault::Store(which) | EditFault::StoreSize(which) => parts.path(which),
        EditFault::DataLength => parts.data,
        EditFault::Superblock(_) | EditFault::Mismatch { .. } | EditFault::Untrusted { .. } =>
            parts.hash,
        EditFault::Offset => "--hash-offset",
        EditFault::Line => "the table line",
        _ => "the volume",
    }
}

/// Which of the two caches has no such size.
fn cache_of<'a>(parts: Parts<'a>) -> &'a str {
    match parts.cache.parse::<u64>() {
        Ok(blocks) if 1 <= blocks && blocks <= MOST_CACHED => "--data-cache",
        _ => "--cache",
    }
}

/// Which of the block sizes is none.
fn look_at_sizes<'a>(parts: Parts<'a>) -> (&'a str, Detail<'a>) {
    if parts.data_size <= usize::MAX as u64 && is_block_size(parts.data_size as usize) {
        ("--hash-block-size", Detail::Number(parts.hash_size))
    } else {
        ("--data-block-size", Detail::Number(parts.data_size))
    }
}

/// Which of the fields is wrong.
pub(crate) fn look_at_line<'a>(line: &'a str, fault: TableFault) -> Detail<'a> {
    match fault {
        TableFault::Fields => Detail::Fields(line.split(' ').count()),
        TableFault::Version => Detail::Text(field(line, 0)),
        TableFault::Algorithm => Detail::Text(field(line, 7)),
        TableFault::Digest => Detail::Text(field(line, 8)),
        TableFault::Salt => Detail::Text(field(line, 9)),
        _ => Detail::None,
    }
}

/// The files don't fit the table line: the image where it has too few blocks, else the hash device.
pub(crate) fn look_at_lengths<'a, R: Files<File = File>>(
    rt: &R,
    parts: Parts<'a>,
    notes: &Notes,
) -> (&'a str, Detail<'a>) {
    match blocks_of(rt, parts, notes, Which::Data) {
        Some(blocks) if blocks < parts.data_blocks => {
            (parts.data, Detail::Few(blocks, parts.data_blocks))
        }
        _ => (parts.hash, Detail::None),
    }
}

fn blocks_of<R: Files<File = File>>(
    rt: &R,
    parts: Parts<'_>,
    notes: &Notes,
    which: Which,
) -> Option<u64> {
    let size = parts.size(which);
    let len = len_seen(rt, parts, notes, which)?;
    if size > 0 { Some(len / size) } else { None }
}

/// How many bytes one of a volume's files has, or had at its server when it was opened.
fn len_seen<R: Files<File = File>>(
    rt: &R,
    parts: Parts<'_>,
    notes: &Notes,
    which: Which,
) -> Option<u64> {
    let path = parts.path(which);
    match notes.len_of(path) {
        Some(len) => Some(len),
        None => match open_there(rt, path, Command::Dump, which) {
            Ok(opened) => Some(opened.len),
            Err(_) => None,
        },
    }
}

/// The first of the files in which a store's fault is seen again, in the order in which a command opens them.
fn look_at_files<'a, R: Files<File = File>>(
    rt: &R,
    parts: Parts<'a>,
    notes: &Notes,
    fault: StoreFault,
) -> (&'a str, Detail<'a>) {
    let data = look_at_store(rt, parts, notes, Which::Data, fault);
    let hash = look_at_store(rt, parts, notes, Which::Hash, fault);
    match (data, hash) {
        (Some(detail), _) => (parts.data, detail),
        (None, Some(detail)) => (parts.hash, detail),
        (None, None) => look_at_read(rt, parts, notes),
    }
}

/// The script or NEW, where it can't be read; else nothing that is seen.
fn look_at_read<'a, R: Files<File = File>>(
    rt: &R,
    parts: Parts<'a>,
    notes: &Notes,
) -> (&'a str, Detail<'a>) {
    if parts.read.is_empty() {
        return ("the volume", Detail::None);
    }
    if parts.command == Command::Update && is_url(parts.read) {
        return match notes.reason_for(parts.read) {
            Some(reason) => (parts.read, Detail::Reason(reason)),
            None => (parts.read, Detail::None),
        };
    }
    match fs::metadata(rt, parts.read) {
        Ok(_) => (parts.read, Detail::None),
        Err(error) => (parts.read, Detail::System(error)),
    }
}

/// What is wrong with one of a volume's files, where it is this fault's.
pub(crate) fn look_at_store<'a, R: Files<File = File>>(
    rt: &R,
    parts: Parts<'a>,
    notes: &Notes,
    which: Which,
    fault: StoreFault,
) -> Option<Detail<'a>> {
    match fault {
        StoreFault::Device if parts.may_be_far(which) => look_at_server(parts, notes, which),
        StoreFault::Device => look_at_device(rt, parts, notes, which),
        StoreFault::Ragged => look_at_length(rt, parts, notes, which),
        StoreFault::NoMemory | StoreFault::BlockSize => None,
    }
}

/// Why what a URL names couldn't be opened.
fn look_at_server<'a>(parts: Parts<'a>, notes: &Notes, which: Which) -> Option<Detail<'a>> {
    match notes.reason_for(parts.path(which)) {
        Some(reason) => Some(Detail::Reason(reason)),
        None => None,
    }
}

/// Why a file can't be opened, or has too few blocks.
fn look_at_device<'a, R: Files<File = File>>(
    rt: &R,
    parts: Parts<'a>,
    notes: &Notes,
    which: Which,
) -> Option<Detail<'a>> {
    let path = parts.path(which);
    if path.is_empty() {
        return None;
    }
    match fs::metadata(rt, path) {
        Err(error) => Some(unseen(parts.command, which, error)),
        Ok(metadata) if file_identity(&metadata).is_none() => Some(Detail::NoFile),
        Ok(_) => look_at_opening(rt, parts, notes, which),
    }
}

/// Why a path can't be looked at. `format` makes HASH where there is nothing, `pull` DATA and HASH.
fn unseen<'a>(command: Command, which: Which, error: io::Error) -> Detail<'a> {
    match (command, which) {
        (Command::Format | Command::Slice, Which::Hash) | (Command::Pull, _) => Detail::Unmade,
        _ => Detail::System(error),
    }
}

fn look_at_opening<'a, R: Files<File = File>>(
    rt: &R,
    parts: Parts<'a>,
    notes: &Notes,
    which: Which,
) -> Option<Detail<'a>> {
    let opened = OpenOptions::new()
        .read(true)
        .write(parts.command.is_writing(which))
        .open(rt, parts.path(which));
    match opened {
        Err(error) => Some(Detail::System(error)),
        Ok(_) => look_at_count(rt, parts, notes, which),
    }
}

/// Whether an image has fewer blocks than were asked for.
fn look_at_count<'a, R: Files<File = File>>(
    rt: &R,
    parts: Parts<'a>,
    notes: &Notes,
    which: Which,
) -> Option<Detail<'a>> {
    match (which, blocks_of(rt, parts, notes, which)) {
        (Which::Data, Some(blocks)) if blocks < parts.data_blocks => {
            Some(Detail::Few(blocks, parts.data_blocks))
        }
        _ => None,
    }
}

/// Whether the length is no multiple of the block size.
fn look_at_length<'a, R: Files<File = File>>(
    rt: &R,
    parts: Parts<'a>,
    notes: &Notes,
    which: Which,
) -> Option<Detail<'a>> {
    let size = parts.size(which);
    match len_seen(rt, parts, notes, which) {
        Some(len) if size > 0 && len % size != 0 => Some(Detail::Bytes(len, size)),
        _ => None,
    }
}
