//! A file that is read ahead.

ghost use Rattle.std.specs.Prelude.{◌≡◌, ◌⊎◌, ℕ, ◌+◌, ◌-◌, ◌<◌, ◌≤◌, true, length, take, drop, IfOk, IsOk, OnOk, OnErr, All, IsSome};
ghost use Rattle.remote_read_ahead.specs.Held.{IsHeld};
ghost use Rattle.verity_store.specs.RawFile.{HasLength, Reads, is_known, known_len, Writes, MayWrite, SetsLength, MaySetLength};

use crate::marks::{Marks, WINDOWS};
use crate::window::{Window, empty_windows, find_window, refill};
use std::alloc::{AllocError, Global};
use std::io;
use verity_store::RawFile;

/// A file over another, of which it holds windows.
///
/// A read that begins where an earlier one ended fetches a window, as far as the file goes, and each time twice as far; any other read,
/// and one as long as a window, goes to the file below as it is. What is written or cut goes through, and nothing is read ahead from then
/// on. It takes as many bytes as eight windows have, each of them once there is a reader for it; where there is no memory for a window,
/// it reads on without.
#[derive(Drop)]
pub struct Ahead<F: RawFile> {
    file: F,
    /// How many bytes the file had when it was opened: no window reaches further.
    len: u64,
    /// The most bytes of a window; 0 for none.
    most: usize,
    windows: Vec<Window>,
    marks: Marks,
    ghost held: { All (IsHeld (F.bytes file)) windows.items },
}

impl<F: RawFile> Ahead<F> {
    /// Reads a file of `len` bytes ahead, by at most so many bytes at a time; 0 for never.
    pub fn new(alloc: Global, file: F, len: u64, most: usize) -> Result<Ahead<F>, AllocError>
    where
        F: Drop,
        ensures file { IfOk result (λ a. a.file ≡ file) }
        ensures bytes { IfOk result (λ a. ⟦<Ahead<F> as RawFile>⟧.bytes a ≡ F.bytes file) }
    {
        Ok(Ahead {
            file,
            len,
            most,
            windows: empty_windows(alloc, WINDOWS)?,
            marks: Marks::new(),
        })
    }

    /// Gives bytes that a window has, and says which one.
    fn give(&self, at: u64, out: &mut [u8]) -> Option<usize>
        ensures { IsSome result → Reads (F.bytes self.now.file) at out.new }
    {
        let index = find_window(&self.windows, at, out.len())?;
        self.windows[index].copy(at, out);
        Some(index)
    }

    /// Fetches a window that begins here and is longer than what is asked for; whether it did.
    fn fetch(&mut self, index: usize, at: u64, asked: usize) -> bool
        ensures bytes { F.bytes self.new.file ≡ F.bytes self.old.file }
        ensures same { F.may_refuse self.new.file ≡ F.may_refuse self.old.file }
    {
        let reach = self.marks.reach(index, self.most) as u64;
        let count = self.len.saturating_sub(at).min(reach) as usize;
        if count <= asked {
            return false;
        }
        let is_filled = refill(&mut self.windows, index, &mut self.file, at, count);
        if !is_filled {
            self.marks.begin_again(index);
        }
        is_filled
    }

    /// Drops the windows, before the file changes.
    fn drop_windows(&mut self)
        ensures dropped { length self.new.windows.items ≡ 0 }
        ensures file { self.new.file ≡ self.old.file }
    {
        self.windows.clear();
    }
}

impl<F: RawFile> RawFile for Ahead<F> {
    ghost bytes = { λ a. F.bytes a.file };

    ghost synced = { λ a. F.synced a.file };

    ghost may_refuse = { λ a. F.may_refuse a.file };

    fn byte_len(&self) -> io::Result<u64> {
        self.file.byte_len()
    }

    fn read_exact_at(&mut self, at: u64, out: &mut [u8]) -> io::Result<()> {
        let next = at.saturating_add(out.len() as u64);
        if let Some(index) = self.give(at, out) {
            self.marks.read_by(index, next);
            return Ok(());
        }
        let reader = self.marks.reader_at(at);
        if let Some(index) = reader {
            if self.fetch(index, at, out.len()) && self.give(at, out).is_some() {
                self.marks.read_by(index, next);
                return Ok(());
            }
        }
        self.file.read_exact_at(at, out)?;
        match reader {
            Some(index) => self.marks.read_by(index, next),
            None => self.marks.read_elsewhere(next),
        }
        Ok(())
    }

    fn write_all_at(&mut self, at: u64, block: &[u8]) -> io::Result<()> {
        self.drop_windows();
        self.file.write_all_at(at, block)
    }

    fn set_byte_len(&mut self, n: u64) -> io::Result<()> {
        self.drop_windows();
        self.file.set_byte_len(n)
    }

    fn sync(&mut self) -> io::Result<()> {
        self.file.sync()
    }
}
