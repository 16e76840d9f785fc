//! What is asked of a file: reads and writes at an offset.
ghost use Rattle.std.specs.Prelude.{◌≡◌, ℕ, ◌+◌, ◌≤◌, Bool, true, Option, List, None, length, IfOk, IsOk, OnOk, OnErr, ⊤};
ghost use Rattle.verity_store.specs.RawFile.{is_known, HasLength, known_len, Reads, Writes, MayWrite, SetsLength, MaySetLength};

use std::fs::{File, OpenFile};
use std::io;
use std::os::unix::fs::FileExt;

/// A run of bytes that is read and written at byte offsets.
///
/// Of a file of the system nothing is known, and these clauses say nothing of its bytes. Over a file whose bytes are known, as
/// one in memory, they say all.
pub trait RawFile {
    /// The bytes of the file, where they are known.
    ghost bytes: { Self → Option (List ℕ) } = { λ _. None };

    /// It was asked to keep what was written so far.
    ghost synced: { Self → Bool } = { λ _. true };

    /// It refused a call that reaches up to this byte; 0 where the call is on no byte.
    ghost refuses: { Self → ℕ → Type 0 } = { λ _ _. ⊤ };

    /// Calls on it may be refused. No call changes that.
    ghost may_refuse: { Self → Bool } = { λ _. true };

    /// How many bytes there are.
    fn byte_len(&self) -> io::Result<u64>
        ensures len { IfOk result (HasLength (bytes self.now)) }
        ensures known { is_known (bytes self.now) ≡ true → IsOk result }
        ensures refused { OnErr result (refuses self.now 0) }
        ensures may_refuse { OnErr result (may_refuse self.now ≡ true) };

    /// Reads as many bytes as `out` has, from offset `at` on.
    fn read_exact_at(&mut self, at: u64, out: &mut [u8]) -> io::Result<()>
        ensures given { OnOk result (Reads (bytes self.old) at out.new) }
        ensures bytes { bytes self.new ≡ bytes self.old }
        ensures refused { OnErr result (refuses self.new (at + length out.new)) }
        ensures may_refuse { OnErr result (may_refuse self.new ≡ true) }
        ensures same { may_refuse self.new ≡ may_refuse self.old };

    /// Writes these bytes from offset `at` on, over those that are there.
    fn write_all_at(&mut self, at: u64, block: &[u8]) -> io::Result<()>
        requires { at + length block.now ≤ known_len (bytes self.old) (at + length block.now) }
        ensures written { OnOk result (Writes (bytes self.old) (bytes self.new) at block.now) }
        ensures failed { OnErr result (MayWrite (bytes self.old) (bytes self.new) at (length block.now)) }
        ensures refused { OnErr result (refuses self.new (at + length block.now)) }
        ensures may_refuse { OnErr result (may_refuse self.new ≡ true) }
        ensures same { may_refuse self.new ≡ may_refuse self.old };

    /// Cuts the file to `n` bytes, or fills it up to as many with zeros. After an error it may have either length.
    fn set_byte_len(&mut self, n: u64) -> io::Result<()>
        ensures set { OnOk result (SetsLength (bytes self.old) (bytes self.new) n) }
        ensures failed { OnErr result (MaySetLength (bytes self.old) (bytes self.new) n) }
        ensures refused { OnErr result (refuses self.new n) }
        ensures may_refuse { OnErr result (may_refuse self.new ≡ true) }
        ensures same { may_refuse self.new ≡ may_refuse self.old };

    /// Asks to keep what was written so far.
    fn sync(&mut self) -> io::Result<()>
        ensures synced { OnOk result (synced self.new ≡ true) }
        ensures bytes { bytes self.new ≡ bytes self.old }
        ensures refused { OnErr result (refuses self.new 0) }
        ensures may_refuse { OnErr result (may_refuse self.new ≡ true) }
        ensures same { may_refuse self.new ≡ may_refuse self.old };
}

// Nothing is known of the bytes of a file of the system.
impl RawFile for File {
    fn byte_len(&self) -> io::Result<u64> {
        Ok(self.metadata()?.len())
    }

    fn read_exact_at(&mut self, at: u64, out: &mut [u8]) -> io::Result<()> {
        FileExt::read_exact_at(self, out, at)
    }

    fn write_all_at(&mut self, at: u64, block: &[u8]) -> io::Result<()> {
        FileExt::write_all_at(self, block, at)
    }

    fn set_byte_len(&mut self, n: u64) -> io::Result<()> {
        self.set_len(n)
    }

    fn sync(&mut self) -> io::Result<()> {
        self.sync_all()
    }
}
