//! The two files on this machine.
ghost use Rattle.std.specs.Prelude.{◌≡◌, IfErr, ⊤};

use crate::folder::{FolderFault, LineFolder, LineFolders};
use crate::held::Held;
use crate::real::{drop_next, make_next, move_next, path_led_to, sync_both, text_at};
use base_count::Count;
use std::alloc::Global;
use std::io::{self, ErrorKind};
use std::rt::Files;

/// FILE and FILE.next on this machine, as they were when they were opened and as each call has left them since.
///
/// Once a call has failed, nothing is known of what stands there.
#[derive(Drop)]
pub struct OsFolder<'a, R> {
    rt: &'a R,
    path: String,
    next_path: String,
    new_path: String,
    held: Held,
    failed: Count,
}

/// This machine's folders, whose files are asked for by their paths.
#[derive(Drop)]
pub struct OsFolders<'a, R> {
    rt: &'a R,
}

impl<'a, R: Files> OsFolders<'a, R> {
    /// Those of this system.
    pub fn new(rt: &'a R) -> OsFolders<'a, R>
        ensures { result.rt.now ≡ rt.now }
    {
        OsFolders { rt }
    }
}

/// Want of memory, or else that the system refused.
fn fault_of(error: io::Error) -> FolderFault {
    match error.kind() {
        ErrorKind::OutOfMemory => FolderFault::NoMemory,
        _ => FolderFault::Device,
    }
}

/// Opens the two files of a path.
fn open_both<'a, R: Files + AllocGlobal>(rt: &'a R, path: &str) -> io::Result<OsFolder<'a, R>> {
    let path = path_led_to(rt, path)?;
    let mut next_path = path.clone()?;
    next_path.push_str(".next")?;
    let mut new_path = next_path.clone()?;
    new_path.push_str(".new")?;
    let line = text_at(rt, &path)?;
    let next = text_at(rt, &next_path)?;
    Ok(OsFolder {
        rt,
        path,
        next_path,
        new_path,
        held: Held::new(line, next),
        failed: Count::new(),
    })
}

// Which files stand at a path isn't known.
impl<'a, R: Files + AllocGlobal> LineFolders for OsFolders<'a, R> {
    ghost use Rattle.std.specs.Prelude.{true, ⊤};

    type Folder = OsFolder<'a, R>;

    ghost refuses = { λ _. true };

    ghost opens = { λ _ _ _ _. ⊤ };

    ghost closes = { λ _ _ _. ⊤ };

    fn open_line(&mut self, path: &str) -> Result<OsFolder<'a, R>, FolderFault> {
        match open_both(self.rt, path) {
            Ok(folder) => Ok(folder),
            Err(error) => Err(fault_of(error)),
        }
    }

    fn close_line(&mut self, _folder: OsFolder<'a, R>) {}
}

impl<'a, R: Files + AllocGlobal> LineFolder for OsFolder<'a, R> {
    ghost use Rattle.std.specs.Prelude.{length};
    ghost use Rattle.os_line_file.specs.Log.{seen_of, Leaves, LeftSince};
    ghost use Rattle.os_line_file.specs.Past.{now_left, no_later};

    ghost seen = { λ folder. seen_of folder.held.kept };

    ghost may_leave = { λ folder c. Leaves folder.held.kept c };

    ghost moment = { λ folder. length folder.held.past };

    ghost left_since = { λ folder t c. LeftSince folder.held t c };

    ghost failures = { λ folder. folder.failed.steps };

    ghost counts_now = { λ folder t c le now. now_left folder.held t c now };

    ghost only_now = { λ folder c left. no_later folder.held c left };

    fn line(&self) -> Option<&[u8]> {
        self.held.line()
    }

    fn next(&self) -> Option<&[u8]> {
        self.held.next()
    }

    fn write_next(&mut self, text: &[u8]) -> Result<(), FolderFault> {
        let Ok(copy) = text.to_vec(self.rt.alloc()) else {
            return Err(FolderFault::NoMemory);
        };
        self.held.write(copy);
        let made = make_next(self.rt, &self.path, &self.next_path, &self.new_path, text);
        if made.is_err() {
            self.failed.step();
            return Err(FolderFault::Device);
        }
        self.held.sync();
        Ok(())
    }

    fn replace(&mut self) -> Result<(), FolderFault> {
        if sync_both(self.rt, &self.path, &self.next_path).is_err() {
            self.failed.step();
            return Err(FolderFault::Device);
        }
        self.held.sync();
        self.held.replace();
        if move_next(self.rt, &self.path, &self.next_path).is_err() {
            self.failed.step();
            return Err(FolderFault::Device);
        }
        self.held.sync();
        Ok(())
    }

    fn remove_next(&mut self) -> Result<(), FolderFault> {
        if sync_both(self.rt, &self.path, &self.next_path).is_err() {
            self.failed.step();
            return Err(FolderFault::Device);
        }
        self.held.sync();
        self.held.remove();
        if drop_next(self.rt, &self.path, &self.next_path).is_err() {
            self.failed.step();
            return Err(FolderFault::Device);
        }
        self.held.sync();
        Ok(())
    }
}
