//! A second look at FILE and FILE.next: the file that a command has a table line from, or keeps one in, and the one beside it.

use crate::looking::{Detail, Subject, look_at_line};
use crate::parts::Parts;
use crate::words::Request;
use cli_faults::{Command, Fault};
use os_line_file::{LineFolder, LineFolders, OsFolder, OsFolders};
use std::fs::File;
use std::io::ErrorKind;
use std::rt::Files;
use std::{fs, str};
use verity_edit::EditFault;
use verity_line_file::says_pull;
use verity_store::StoreFault;
use verity_superblock::{Table, TableFault};

/// The most bytes of FILE.
const MOST_BYTES: u64 = 65_536;

/// What is said of a FILE that can't be put in place.
const UNKEPT: &str = "it can't be made or replaced in its folder";

/// FILE as it is by now.
#[derive(Clone, Copy, Debug)]
pub struct LineSeen<'a> {
    /// Its path; empty where the words name none.
    pub path: &'a str,
    /// Whether it and FILE.next could be opened.
    pub is_opened: bool,
    /// What it holds; none where it isn't there.
    pub text: Option<&'a [u8]>,
    /// Whether there is a FILE.next.
    pub has_next: bool,
    /// Whether FILE.next says that a pull is under way.
    pub is_pulling: bool,
}

impl<'a> LineSeen<'a> {
    /// No file.
    pub fn none() -> LineSeen<'a> {
        LineSeen {
            path: "",
            is_opened: false,
            text: None,
            has_next: false,
            is_pulling: false,
        }
    }

    /// The file at a path, as it was opened.
    pub fn new<F: LineFolder>(path: Option<&'a str>, opened: &'a Option<F>) -> LineSeen<'a> {
        let path = path.unwrap_or("");
        match opened {
            Some(folder) => LineSeen {
                path,
                is_opened: true,
                text: folder.line(),
                has_next: folder.next().is_some(),
                is_pulling: folder.next().is_some_and(|text| says_pull(text)),
            },
            None => LineSeen {
                path,
                ..LineSeen::none()
            },
        }
    }

    /// The line that it holds, without its line feed; empty where it holds none.
    pub fn line(&self) -> &'a str {
        match self.text {
            Some(text) => line_in(text).unwrap_or(""),
            None => "",
        }
    }

    /// Whether the words name it.
    pub fn is_named(&self) -> bool {
        !self.path.is_empty()
    }
}

/// The file at a path; none where there is no path, or a command couldn't open it either.
pub fn opened<'a, R: Files<File = File> + AllocGlobal>(
    rt: &'a R,
    path: Option<&str>,
) -> Option<OsFolder<'a, R>> {
    let mut folders = OsFolders::new(rt);
    match folders.open_line(path?) {
        Ok(folder) => Some(folder),
        Err(_) => None,
    }
}

/// FILE, which the words of a command name by `--table-file`.
pub fn table_file<'a>(request: Request<'a>) -> Option<&'a str> {
    match request {
        Request::Format(words) => words.table_file,
        Request::Edit(words) => words.table_file,
        Request::Verify(words) => words.table_file,
        Request::Serve(words) => words.table_file,
        Request::Talk(words) => words.table_file,
        Request::Recover(words) => words.table_file,
        Request::Update(words) => words.table_file,
        Request::Pull(words) => words.table_file,
        Request::Scratch | Request::Dump(_) => None,
    }
}

/// The file of the line that a pull is to reach, which its words name by `--to-file`.
pub fn to_file<'a>(request: Request<'a>) -> Option<&'a str> {
    match request {
        Request::Pull(words) => words.to_file,
        _ => None,
    }
}

/// What a fault of a command is about, where it is FILE, FILE.next or the line in FILE.
pub fn look_at_line_files<'a, R: Files<File = File> + AllocGlobal>(
    rt: &R,
    parts: Parts<'a>,
    fault: Fault,
) -> Option<(Subject<'a>, Detail<'a>)> {
    match fault {
        Fault::UnderWay => under_way(parts),
        Fault::Store(StoreFault::Device) => unread(rt, parts),
        Fault::Table(fault) => no_line(rt, parts, fault),
        Fault::Edit(fault) => another_line(parts, fault),
        _ => None,
    }
}

/// What else S1 is about: a FILE that is written can't be put in place.
pub fn look_at_folder<'a>(parts: Parts<'a>) -> Option<(Subject<'a>, Detail<'a>)> {
    if parts.own.is_named() && !is_reading(parts.command) {
        Some((Subject::Named(parts.own.path), Detail::Text(UNKEPT)))
    } else {
        None
    }
}

/// Whether a command reads FILE, and never writes it.
fn is_reading(command: Command) -> bool {
    matches!(command, Command::Verify | Command::Serve | Command::Talk)
}

/// The FILE.next that stands in the way: of a command that reads any, of one that writes that of a pull.
fn under_way<'a>(parts: Parts<'a>) -> Option<(Subject<'a>, Detail<'a>)> {
    if parts.source.has_next {
        Some((Subject::Next(parts.source.path), Detail::None))
    } else if parts.own.has_next && (is_reading(parts.command) || parts.own.is_pulling) {
        Some((Subject::Next(parts.own.path), Detail::None))
    } else {
        None
    }
}

/// Whether the FILE.next that stands in the way is that of a pull.
pub fn is_of_pull(parts: Parts<'_>) -> bool {
    if parts.source.has_next {
        parts.source.is_pulling
    } else {
        parts.own.is_pulling
    }
}

/// FILE and FILE.next, which stay, since neither has the volume's line; or the line in FILE, which isn't the volume's.
fn another_line<'a>(parts: Parts<'a>, fault: EditFault) -> Option<(Subject<'a>, Detail<'a>)> {
    let file = parts.own;
    let changes = matches!(
        parts.command,
        Command::Recover | Command::Edit | Command::Update
    );
    if !changes || !file.is_named() {
        return None;
    }
    match fault {
        EditFault::Line | EditFault::Untrusted { .. } if file.has_next => {
            Some((Subject::Both(file.path), Detail::None))
        }
        EditFault::Line => Some((Subject::Line(file.path), Detail::None)),
        _ => None,
    }
}

/// The first of the files that can't be read.
fn unread<'a, R: Files<File = File>>(
    rt: &R,
    parts: Parts<'a>,
) -> Option<(Subject<'a>, Detail<'a>)> {
    let source = unread_file(rt, parts.source, true);
    match source {
        Some(seen) => Some(seen),
        None => unread_file(rt, parts.own, is_reading(parts.command)),
    }
}

/// Why a file can't be read, which has to be there where `is_read` says so.
fn unread_file<'a, R: Files<File = File>>(
    rt: &R,
    file: LineSeen<'a>,
    is_read: bool,
) -> Option<(Subject<'a>, Detail<'a>)> {
    if !file.is_named() || file.is_opened && (!is_read || file.text.is_some()) {
        return None;
    }
    let path = file.path;
    match fs::metadata(rt, path) {
        Err(error) => {
            if error.kind() == ErrorKind::NotFound && !is_read && is_missing(rt, path) {
                return Some((Subject::Next(path), Detail::Text("it is no regular file")));
            }
            Some((Subject::Named(path), Detail::System(error)))
        }
        Ok(metadata) if !metadata.is_file() => {
            Some((Subject::Named(path), Detail::Text("it is no regular file")))
        }
        Ok(metadata) if metadata.len() > MOST_BYTES => Some((
            Subject::Named(path),
            Detail::Text("it has more than 65536 bytes"),
        )),
        Ok(_) => match File::open(rt, path) {
            Err(error) => Some((Subject::Named(path), Detail::System(error))),
            Ok(_) => Some((
                Subject::Next(path),
                Detail::Text("it is no regular file, or can't be read"),
            )),
        },
    }
}

/// Whether nothing is seen at a path, not even a link.
fn is_missing<R: Files<File = File>>(rt: &R, path: &str) -> bool {
    fs::symlink_metadata(rt, path).is_err()
}

/// What is wrong with the line in a file, where a command has a line from there.
fn no_line<'a, R: AllocGlobal>(
    rt: &R,
    parts: Parts<'a>,
    fault: TableFault,
) -> Option<(Subject<'a>, Detail<'a>)> {
    if is_refused_for(rt, parts.source, fault) {
        Some(wrong_line(parts.source, fault))
    } else if is_refused_for(rt, parts.own, fault) {
        Some(wrong_line(parts.own, fault))
    } else {
        None
    }
}

/// Whether what a file holds is refused so.
fn is_refused_for<R: AllocGlobal>(rt: &R, file: LineSeen<'_>, fault: TableFault) -> bool {
    let Some(text) = file.text else {
        return false;
    };
    match line_in(text) {
        None => fault == TableFault::Fields,
        Some(line) => match Table::parse(rt.alloc(), line) {
            Ok(_) => false,
            Err(found) => found == fault,
        },
    }
}

/// What is wrong with the line in a file.
fn wrong_line<'a>(file: LineSeen<'a>, fault: TableFault) -> (Subject<'a>, Detail<'a>) {
    let detail = match (file.text, fault) {
        (Some(text), TableFault::Fields) => wrong_text(text),
        (Some(_), fault) => look_at_line(file.line(), fault),
        (None, _) => Detail::None,
    };
    (Subject::Line(file.path), detail)
}

/// Why a text isn't one table line.
fn wrong_text<'a>(text: &'a [u8]) -> Detail<'a> {
    match line_in(text) {
        Some("") => Detail::Text("the file is empty"),
        Some(line) => look_at_line(line, TableFault::Fields),
        None => Detail::Text("the file has more than one line, or isn't UTF-8"),
    }
}

/// The one line that a text is, without its line feed; none where it is more, or isn't UTF-8.
fn line_in(text: &[u8]) -> Option<&str> {
    let Ok(text) = str::from_utf8(text) else {
        return None;
    };
    match text.split_once('\n') {
        None => Some(text),
        Some((line, "")) => Some(line),
        Some(_) => None,
    }
}
