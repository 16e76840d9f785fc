//! A folder in memory that tears.
ghost use Rattle.std.specs.Prelude.{◌≡◌, length};

use crate::folder::{FolderFault, LineFolder};
use crate::held::Held;
use base_count::Count;
use std::alloc::{AllocError, Global};

/// What a crash leaves of the call that it cuts short.
#[derive(Clone, Copy, Debug, PartialEq, Eq)]
pub enum Tear {
    /// Nothing was done.
    Nothing,
    /// The old FILE.next is gone; of a FILE.next that is to be FILE, it stands at both places.
    Begun,
    /// The first half of the text is there; else as `Begun`.
    Half,
    /// All was done.
    All,
}

/// FILE and FILE.next in memory, which end after a number of calls: that call is cut short as it is told, as by a power cut, and each one
/// after it fails. What the crash has left is kept apart.
#[derive(Drop)]
pub struct TearingFolder {
    alloc: Global,
    held: Held,
    left_line: Option<Vec<u8>>,
    left_next: Option<Vec<u8>>,
    calls_left: u64,
    tear: Tear,
    has_crashed: bool,
    failed: Count,
}

/// A copy of a text.
fn copy_of(alloc: Global, text: &Option<Vec<u8>>) -> Result<Option<Vec<u8>>, AllocError> {
    match text {
        Some(text) => Ok(Some(text.to_vec(alloc)?)),
        None => Ok(None),
    }
}

impl TearingFolder {
    /// A folder of these texts that ends at the call behind so many.
    pub fn new(
        alloc: Global,
        line: Option<Vec<u8>>,
        next: Option<Vec<u8>>,
        calls: u64,
        tear: Tear,
    ) -> Result<TearingFolder, AllocError> {
        let left_line = copy_of(alloc, &line)?;
        let left_next = copy_of(alloc, &next)?;
        Ok(TearingFolder {
            alloc,
            held: Held::new(line, next),
            left_line,
            left_next,
            calls_left: calls,
            tear,
            has_crashed: false,
            failed: Count::new(),
        })
    }

    /// Whether a call was cut short.
    pub fn has_crashed(&self) -> bool {
        self.has_crashed
    }

    /// What is on the device: the texts of FILE and of FILE.next.
    pub fn into_left(self) -> (Option<Vec<u8>>, Option<Vec<u8>>) {
        (self.left_line, self.left_next)
    }

    // How this call is cut short; none where it is done. No later one is done at all.
    fn cut(&mut self) -> Option<Tear>
        ensures held { self.new.held ≡ self.old.held }
        ensures failed { self.new.failed.steps ≡ self.old.failed.steps }
    {
        if self.has_crashed {
            return Some(Tear::Nothing);
        }
        if self.calls_left == 0 {
            self.has_crashed = true;
            return Some(self.tear);
        }
        self.calls_left -= 1;
        None
    }

    // What a FILE.next that is made anew is left as, where that is cut short.
    fn leave_next(&mut self, text: Vec<u8>, tear: Tear)
        ensures held { self.new.held ≡ self.old.held }
        ensures failed { self.new.failed.steps ≡ self.old.failed.steps }
    {
        let mut text = text;
        match tear {
            Tear::Nothing => {}
            Tear::Begun => self.left_next = None,
            Tear::Half => {
                text.truncate(text.len() / 2);
                self.left_next = Some(text);
            }
            Tear::All => self.left_next = Some(text),
        }
    }

    // What both files are left as, where FILE.next is to take FILE's place and that is cut short.
    fn leave_replaced(&mut self, copy: Option<Vec<u8>>, tear: Tear)
        ensures held { self.new.held ≡ self.old.held }
        ensures failed { self.new.failed.steps ≡ self.old.failed.steps }
    {
        match tear {
            Tear::Nothing => {}
            Tear::Begun | Tear::Half => self.left_line = copy,
            Tear::All => self.left_line = self.left_next.take(),
        }
    }
}

impl LineFolder for TearingFolder {
    ghost use Rattle.std.specs.Prelude.{length};
    ghost use Rattle.os_line_file.specs.Log.{seen_of, Leaves, LeftSince};
    ghost use Rattle.os_line_file.specs.Past.{now_left, no_later};

    ghost seen = { λ folder. seen_of folder.held.kept };

    ghost may_leave = { λ folder c. Leaves folder.held.kept c };

    ghost moment = { λ folder. length folder.held.past };

    ghost left_since = { λ folder t c. LeftSince folder.held t c };

    ghost failures = { λ folder. folder.failed.steps };

    ghost counts_now = { λ folder t c le now. now_left folder.held t c now };

    ghost only_now = { λ folder c left. no_later folder.held c left };

    fn line(&self) -> Option<&[u8]> {
        self.held.line()
    }

    fn next(&self) -> Option<&[u8]> {
        self.held.next()
    }

    fn write_next(&mut self, text: &[u8]) -> Result<(), FolderFault> {
        let Ok(seen) = text.to_vec(self.alloc) else {
            return Err(FolderFault::NoMemory);
        };
        let Ok(left) = text.to_vec(self.alloc) else {
            return Err(FolderFault::NoMemory);
        };
        self.held.write(seen);
        match self.cut() {
            None => {
                self.held.sync();
                self.left_next = Some(left);
                Ok(())
            }
            Some(tear) => {
                self.leave_next(left, tear);
                self.failed.step();
                Err(FolderFault::Device)
            }
        }
    }

    fn replace(&mut self) -> Result<(), FolderFault> {
        let Ok(copy) = copy_of(self.alloc, &self.left_next) else {
            self.failed.step();
            return Err(FolderFault::Device);
        };
        self.held.sync();
        self.held.replace();
        match self.cut() {
            None => {
                self.held.sync();
                self.leave_replaced(copy, Tear::All);
                Ok(())
            }
            Some(tear) => {
                self.leave_replaced(copy, tear);
                self.failed.step();
                Err(FolderFault::Device)
            }
        }
    }

    fn remove_next(&mut self) -> Result<(), FolderFault> {
        self.held.sync();
        self.held.remove();
        match self.cut() {
            None => {
                self.held.sync();
                self.left_next = None;
                Ok(())
            }
            Some(tear) => {
                if tear != Tear::Nothing {
                    self.left_next = None;
                }
                self.failed.step();
                Err(FolderFault::Device)
            }
        }
    }
}
