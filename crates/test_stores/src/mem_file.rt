//! A file in memory, whose bytes are known.
ghost use Rattle.std.specs.Prelude.{◌≡◌, ◌+◌, ◌≤◌, ◌↔◌, IsTrue, IsOk, OnOk, Some, true, length, vec_len};
ghost use Rattle.verity_store.specs.RawFile.{Reads};

use std::alloc::{Allocator, Global};
use std::io;
use std::io::ErrorKind;
use verity_store::RawFile;

/// A file in memory.
#[derive(Drop)]
pub struct MemFile<A: Allocator = Global> {
    bytes: Vec<u8, A>,
    synced: bool,
}

impl<A: Allocator> MemFile<A> {
    /// A file of these bytes. It takes no memory.
    pub fn new(bytes: Vec<u8, A>) -> MemFile<A>
        ensures { ⟦<MemFile<A> as RawFile>⟧.bytes result ≡ Some bytes.items }
    {
        MemFile {
            bytes,
            synced: false,
        }
    }
}

// Whether `len` bytes from `at` on are among all.
fn is_within(at: u64, len: usize, all: usize) -> bool
    ensures { IsTrue result ↔ (at + len ≤ all) }
{
    len <= all && at <= (all - len) as u64
}

impl<A: Allocator> RawFile for MemFile<A> {
    ghost bytes = { λ f. Some f.bytes.items };

    ghost synced = { λ f. f.synced };

    fn byte_len(&self) -> io::Result<u64> {
        Ok(self.bytes.len() as u64)
    }

    fn read_exact_at(&mut self, at: u64, out: &mut [u8]) -> io::Result<()>
        ensures within { IsOk result ↔ (at + length out.old ≤ vec_len self.old.bytes) }
        ensures given { OnOk result (Reads (Some self.old.bytes.items) at out.new) }
        ensures bytes { self.new.bytes.items ≡ self.old.bytes.items }
    {
        if !is_within(at, out.len(), self.bytes.len()) {
            return Err(ErrorKind::UnexpectedEof.into());
        }
        let start = at as usize;
        out.copy_from_slice(&self.bytes[start..start + out.len()]);
        Ok(())
    }

    fn write_all_at(&mut self, at: u64, block: &[u8]) -> io::Result<()> {
        self.synced = false;
        let start = at as usize;
        self.bytes[start..start + block.len()].copy_from_slice(block);
        Ok(())
    }

    fn set_byte_len(&mut self, n: u64) -> io::Result<()> {
        self.synced = false;
        match self.bytes.resize(n as usize, 0) {
            Ok(()) => Ok(()),
            Err(_) => Err(ErrorKind::OutOfMemory.into()),
        }
    }

    fn sync(&mut self) -> io::Result<()>
        ensures ok { IsOk result }
        ensures synced { self.new.synced ≡ true }
        ensures bytes { self.new.bytes.items ≡ self.old.bytes.items }
    {
        self.synced = true;
        Ok(())
    }
}
