//! The first bytes of a file whose length is fixed.
ghost use Rattle.std.specs.Prelude.{◌≡◌, ◌⊎◌, ℕ, ◌+◌, ◌-◌, ◌<◌, ◌≤◌, true, length, replicate, max, IsTrue, ◌↔◌, IsOk, IsErr, OnOk, OnErr};
ghost use Rattle.verity_store.specs.RawFile.{HasLength, known_len, Reads, Writes, MayWrite, SetsLength, MaySetLength};
ghost use Rattle.verity_store.specs.Window.{RefusesWithin, first_bytes, bytes_behind};

use crate::RawFile;
use std::io;
use std::io::ErrorKind;

/// How many zeros are written at once.
const ZEROS: usize = 4096;

/// The first bytes of a file that neither grows nor shrinks, as a block device: they are a file of their own, which grows
/// up to the room that there is and no further.
///
/// No call changes a byte behind both the window's length and the one that it is given.
#[derive(Drop)]
pub struct Window<F: RawFile> {
    file: F,
    room: u64,
    len: u64,
    ghost within: { len ≤ room },
    ghost whole: { HasLength (F.bytes file) room },
}

impl<F: RawFile> Window<F> {
    /// The first `len` bytes of a file of `room` bytes. No byte changes.
    pub fn new(file: F, room: u64, len: u64) -> Window<F>
        requires within { len ≤ room }
        requires whole { HasLength (F.bytes file) room }
        ensures bytes { ⟦<Window<F> as RawFile>⟧.bytes result ≡ first_bytes len (F.bytes file) }
        ensures file { result.file ≡ file }
        ensures room { result.room ≡ room }
        ensures len { result.len ≡ len }
    {
        Window { file, room, len }
    }
}

// Whether `count` bytes from `at` on are among the first `len`.
fn is_inside(at: u64, count: usize, len: u64) -> bool
    ensures { IsTrue result ↔ (at + count ≤ len) }
{
    count as u64 <= len && at <= len - count as u64
}

impl<F: RawFile> RawFile for Window<F> {
    ghost bytes = { λ w. first_bytes w.len (F.bytes w.file) };

    ghost synced = { λ w. F.synced w.file };

    ghost refuses = { λ w n. F.refuses w.file n ⊎ (w.len < n) };

    fn byte_len(&self) -> io::Result<u64> {
        Ok(self.len)
    }

    fn read_exact_at(&mut self, at: u64, out: &mut [u8]) -> io::Result<()>
        ensures inside { OnOk result (at + length out.new ≤ self.old.len) }
        ensures given { OnOk result (Reads (first_bytes self.old.len (F.bytes self.old.file)) at out.new) }
        ensures bytes { first_bytes self.new.len (F.bytes self.new.file) ≡ first_bytes self.old.len (F.bytes self.old.file) }
        ensures len { self.new.len ≡ self.old.len }
        ensures room { self.new.room ≡ self.old.room }
        ensures file { F.bytes self.new.file ≡ F.bytes self.old.file }
        ensures refused { OnErr result (F.refuses self.new.file (at + length out.new) ⊎ (self.new.len < at + length out.new)) }
    {
        if !is_inside(at, out.len(), self.len) {
            return Err(ErrorKind::UnexpectedEof.into());
        }
        self.file.read_exact_at(at, out)
    }

    fn write_all_at(&mut self, at: u64, block: &[u8]) -> io::Result<()>
        requires { at + length block.now ≤ known_len (first_bytes self.old.len (F.bytes self.old.file)) (at + length block.now) }
        ensures inside { OnOk result (at + length block.now ≤ self.old.len) }
        ensures written { OnOk result (Writes
            (first_bytes self.old.len (F.bytes self.old.file)) (first_bytes self.new.len (F.bytes self.new.file)) at block.now) }
        ensures failed { OnErr result (MayWrite
            (first_bytes self.old.len (F.bytes self.old.file)) (first_bytes self.new.len (F.bytes self.new.file)) at (length block.now)) }
        ensures behind { bytes_behind self.old.len (F.bytes self.new.file) ≡ bytes_behind self.old.len (F.bytes self.old.file) }
        ensures len { self.new.len ≡ self.old.len }
        ensures room { self.new.room ≡ self.old.room }
        ensures refused { OnErr result (F.refuses self.new.file (at + length block.now) ⊎ (self.new.len < at + length block.now)) }
    {
        if !is_inside(at, block.len(), self.len) {
            return Err(ErrorKind::WriteZero.into());
        }
        match self.file.write_all_at(at, block) {
            Ok(()) => Ok(()),
            Err(error) => Err(error),
        }
    }

    /// Narrows or widens the window, and fills what it is widened by with zeros. Past the room it is refused, and nothing
    /// changes; else it is refused only where the file refused to be written up to there.
    fn set_byte_len(&mut self, n: u64) -> io::Result<()>
        ensures set { OnOk result (SetsLength
            (first_bytes self.old.len (F.bytes self.old.file)) (first_bytes self.new.len (F.bytes self.new.file)) n) }
        ensures failed { OnErr result (MaySetLength
            (first_bytes self.old.len (F.bytes self.old.file)) (first_bytes self.new.len (F.bytes self.new.file)) n) }
        ensures kept { OnErr result (first_bytes self.new.len (F.bytes self.new.file) ≡ first_bytes self.old.len (F.bytes self.old.file)) }
        ensures past { self.old.room < n → IsErr result × (F.bytes self.new.file ≡ F.bytes self.old.file) }
        ensures narrowed { n ≤ self.old.len → IsOk result × (F.bytes self.new.file ≡ F.bytes self.old.file) }
        ensures behind { bytes_behind (max n self.old.len) (F.bytes self.new.file)
            ≡ bytes_behind (max n self.old.len) (F.bytes self.old.file) }
        ensures len { OnOk result (self.new.len ≡ n) }
        ensures len_kept { OnErr result (self.new.len ≡ self.old.len) }
        ensures room { self.new.room ≡ self.old.room }
        ensures refused { OnErr result (F.refuses self.new.file n ⊎ (self.new.len < n)) }
        ensures failed_below { OnErr result ((self.old.room < n) ⊎ RefusesWithin (F.refuses self.new.file) n) }
    {
        if self.room < n {
            return Err(ErrorKind::WriteZero.into());
        }
        if self.len < n {
            match fill_zeros(&mut self.file, self.len, n, self.room) {
                Ok(()) => {}
                Err(error) => return Err(error),
            }
        }
        self.len = n;
        Ok(())
    }

    fn sync(&mut self) -> io::Result<()>
        ensures synced { OnOk result (F.synced self.new.file ≡ true) }
        ensures bytes { first_bytes self.new.len (F.bytes self.new.file) ≡ first_bytes self.old.len (F.bytes self.old.file) }
        ensures file { F.bytes self.new.file ≡ F.bytes self.old.file }
        ensures len { self.new.len ≡ self.old.len }
        ensures room { self.new.room ≡ self.old.room }
        ensures refused { OnErr result (F.refuses self.new.file 0 ⊎ (self.new.len < 0)) }
    {
        self.file.sync()
    }
}

// Writes zeros from one place up to another in a file of `room` bytes.
fn fill_zeros<F: RawFile>(file: &mut F, from: u64, to: u64, room: u64) -> io::Result<()>
    requires order { from ≤ to }
    requires within { to ≤ room }
    requires whole { HasLength (F.bytes file.old) room }
    ensures filled { OnOk result (Writes (F.bytes file.old) (F.bytes file.new) from (replicate (to - from) 0)) }
    ensures front { first_bytes from (F.bytes file.new) ≡ first_bytes from (F.bytes file.old) }
    ensures behind { bytes_behind to (F.bytes file.new) ≡ bytes_behind to (F.bytes file.old) }
    ensures whole { HasLength (F.bytes file.new) room }
    ensures refused { OnErr result (RefusesWithin (F.refuses file.new) to) }
{
    let zeros = [0; ZEROS];
    let mut at = from;
    while at < to {
        let count = (to - at).min(ZEROS as u64) as usize;
        match file.write_all_at(at, &zeros[..count]) {
            Ok(()) => {}
            Err(error) => return Err(error),
        }
        at += count as u64;
    }
    Ok(())
}
