//! The calls on this machine's files. No clause says what they do: each is to be read beside what [`crate::LineFolder`] asks for.
use std::fs::{File, OpenFile};
use std::io::{ErrorKind, Read, Write};
use std::rt::Files;
use std::{fs, io};

/// The most bytes of a text.
const MOST_BYTES: u64 = 65_536;

/// The path of the file that a path leads to; the path itself where nothing is there. A link that leads nowhere is an error.
pub(crate) fn path_led_to<R: Files + AllocGlobal>(rt: &R, path: &str) -> io::Result<String> {
    match rt.canonicalize(rt.alloc(), path) {
        Ok(led) => Ok(String::from_str(rt.alloc(), led.as_str())?),
        Err(error) => match error.kind() {
            ErrorKind::NotFound if is_missing(rt, path) => {
                Ok(String::from_str(rt.alloc(), path)?)
            }
            _ => Err(error),
        },
    }
}

/// Whether nothing is seen at a path, not even a link.
fn is_missing<R: Files>(rt: &R, path: &str) -> bool {
    match fs::symlink_metadata(rt, path) {
        Ok(_) => false,
        Err(error) => error.kind() == ErrorKind::NotFound,
    }
}

/// The text of the regular file at a path; none where nothing is there.
pub(crate) fn text_at<R: Files + AllocGlobal>(rt: &R, path: &str) -> io::Result<Option<Vec<u8>>> {
    match fs::symlink_metadata(rt, path) {
        Ok(metadata) if metadata.is_file() => Ok(Some(read_text(rt, path)?)),
        Ok(_) => Err(io::Error::from(ErrorKind::InvalidInput)),
        Err(error) => match error.kind() {
            ErrorKind::NotFound => Ok(None),
            _ => Err(error),
        },
    }
}

/// All bytes of a file, 65,536 at most.
fn read_text<R: Files + AllocGlobal>(rt: &R, path: &str) -> io::Result<Vec<u8>> {
    let mut text = Vec::new(rt.alloc());
    let mut file = File::open(rt, path)?;
    (&mut file).take(MOST_BYTES + 1).read_to_end(&mut text)?;
    if text.len() as u64 > MOST_BYTES {
        return Err(io::Error::from(ErrorKind::FileTooLarge));
    }
    Ok(text)
}

/// Makes the file at `next_path` anew, with this text and the permissions of the one at `path`, and syncs both and their folder. It is made
/// at `new_path` and moved from there, so that a file which is there stays until it is replaced.
pub(crate) fn make_next<R: Files>(
    rt: &R,
    path: &str,
    next_path: &str,
    new_path: &str,
    text: &[u8],
) -> io::Result<()> {
    sync_there(rt, path)?;
    remove_there(rt, new_path)?;
    let mut file = File::create_new(rt, new_path)?;
    if let Ok(metadata) = fs::metadata(rt, path) {
        file.set_permissions(metadata.permissions())?;
    }
    file.write_all(text)?;
    file.sync_all()?;
    fs::rename(rt, new_path, next_path)?;
    sync_folder(rt, path)
}

/// Syncs what stands at a path, where something does.
fn sync_there<R: Files>(rt: &R, path: &str) -> io::Result<()> {
    match File::open(rt, path) {
        Ok(file) => file.sync_all(),
        Err(error) => match error.kind() {
            ErrorKind::NotFound => Ok(()),
            _ => Err(error),
        },
    }
}

/// Removes what stands at a path, where something does.
fn remove_there<R: Files>(rt: &R, path: &str) -> io::Result<()> {
    match fs::remove_file(rt, path) {
        Ok(()) => Ok(()),
        Err(error) => match error.kind() {
            ErrorKind::NotFound => Ok(()),
            _ => Err(error),
        },
    }
}

/// Syncs the files at both paths and their folder.
pub(crate) fn sync_both<R: Files>(rt: &R, path: &str, next_path: &str) -> io::Result<()> {
    sync_there(rt, path)?;
    sync_there(rt, next_path)?;
    sync_folder(rt, path)
}

/// Puts the file at `next_path` in the place of the one at `path`, and syncs their folder.
pub(crate) fn move_next<R: Files>(rt: &R, path: &str, next_path: &str) -> io::Result<()> {
    fs::rename(rt, next_path, path)?;
    sync_folder(rt, path)
}

/// Removes the file at `next_path`, and syncs the folder of both.
pub(crate) fn drop_next<R: Files>(rt: &R, path: &str, next_path: &str) -> io::Result<()> {
    remove_there(rt, next_path)?;
    sync_folder(rt, path)
}

/// Syncs the entries of the folder in which a path stands.
fn sync_folder<R: Files>(rt: &R, path: &str) -> io::Result<()> {
    File::open(rt, folder_of(path))?.sync_all()
}

/// The folder in which a path stands.
fn folder_of(path: &str) -> &str {
    match path.rsplit_once('/') {
        Some(("", _)) => "/",
        Some((folder, _)) => folder,
        None => ".",
    }
}
