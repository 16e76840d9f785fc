//! A device in memory.
ghost use Rattle.std.specs.Prelude.{◌≡◌, Some};

use std::io;
use std::io::ErrorKind;
use test_stores::MemFile;
use verity_store::RawFile;

/// A file in memory that neither grows nor shrinks.
#[derive(Drop)]
pub struct Device {
    file: MemFile,
}

impl Device {
    pub fn new(bytes: Vec<u8>) -> Device
        ensures { ⟦<Device as RawFile>⟧.bytes result ≡ Some bytes.items }
    {
        Device {
            file: MemFile::new(bytes),
        }
    }
}

impl RawFile for Device {
    ghost bytes = { λ d. ⟦<MemFile as RawFile>⟧.bytes d.file };

    ghost synced = { λ d. ⟦<MemFile as RawFile>⟧.synced d.file };

    fn byte_len(&self) -> io::Result<u64> {
        self.file.byte_len()
    }

    fn read_exact_at(&mut self, at: u64, out: &mut [u8]) -> io::Result<()> {
        self.file.read_exact_at(at, out)
    }

    fn write_all_at(&mut self, at: u64, block: &[u8]) -> io::Result<()> {
        self.file.write_all_at(at, block)
    }

    fn set_byte_len(&mut self, _n: u64) -> io::Result<()> {
        Err(ErrorKind::Unsupported.into())
    }

    fn sync(&mut self) -> io::Result<()> {
        self.file.sync()
    }
}
