//! One of the two files of a volume.
ghost use Rattle.std.specs.Prelude.{◌≡◌, true, false};
ghost use Rattle.os_files.specs.VolumeFiles.{IsRegular, RegularRefuses, kept_bytes, volume_bytes, volume_synced, VolumeRefuses};

use std::io;
use std::io::ErrorKind;
use verity_store::{RawFile, Window};

/// What a store lies in: a regular file, which has the store's length, or the first bytes of a file or a block device.
#[derive(Drop)]
pub enum VolumeFile<F: RawFile> {
    Regular(RegularFile<F>),
    Part(Window<F>),
}

/// A regular file.
///
/// One that is replaced counts as empty, and what stands in it stays until the store's length is first set; from then on
/// it holds what the store holds, and nothing that stood in it before.
#[derive(Drop)]
pub struct RegularFile<F: RawFile> {
    file: F,
    is_replaced: bool,
}

impl<F: RawFile> VolumeFile<F> {
    /// A regular file as it stands.
    pub fn new(file: F) -> VolumeFile<F>
        ensures bytes { volume_bytes result ≡ F.bytes file }
        ensures regular { IsRegular file false result }
    {
        VolumeFile::Regular(RegularFile {
            file,
            is_replaced: false,
        })
    }

    /// A regular file whose bytes are not needed any more.
    pub fn replaced(file: F) -> VolumeFile<F>
        ensures bytes { volume_bytes result ≡ kept_bytes (F.bytes file) true }
        ensures regular { IsRegular file true result }
    {
        VolumeFile::Regular(RegularFile {
            file,
            is_replaced: true,
        })
    }
}

impl<F: RawFile> RawFile for VolumeFile<F> {
    ghost bytes = { volume_bytes };

    ghost synced = { volume_synced };

    ghost refuses = { VolumeRefuses };

    fn byte_len(&self) -> io::Result<u64> {
        match self {
            VolumeFile::Regular(file) => file.byte_len(),
            VolumeFile::Part(window) => window.byte_len(),
        }
    }

    fn read_exact_at(&mut self, at: u64, out: &mut [u8]) -> io::Result<()> {
        match self {
            VolumeFile::Regular(file) => file.read_exact_at(at, out),
            VolumeFile::Part(window) => window.read_exact_at(at, out),
        }
    }

    fn write_all_at(&mut self, at: u64, block: &[u8]) -> io::Result<()> {
        match self {
            VolumeFile::Regular(file) => file.write_all_at(at, block),
            VolumeFile::Part(window) => window.write_all_at(at, block),
        }
    }

    fn set_byte_len(&mut self, n: u64) -> io::Result<()> {
        match self {
            VolumeFile::Regular(file) => file.set_byte_len(n),
            VolumeFile::Part(window) => window.set_byte_len(n),
        }
    }

    fn sync(&mut self) -> io::Result<()> {
        match self {
            VolumeFile::Regular(file) => file.sync(),
            VolumeFile::Part(window) => window.sync(),
        }
    }
}

impl<F: RawFile> RawFile for RegularFile<F> {
    ghost bytes = { λ r. kept_bytes (F.bytes r.file) r.is_replaced };

    ghost synced = { λ r. F.synced r.file };

    ghost refuses = { λ r n. RegularRefuses (F.refuses r.file) r.is_replaced n };

    fn byte_len(&self) -> io::Result<u64> {
        if self.is_replaced {
            return Ok(0);
        }
        self.file.byte_len()
    }

    fn read_exact_at(&mut self, at: u64, out: &mut [u8]) -> io::Result<()> {
        if self.is_replaced && !out.is_empty() {
            return Err(ErrorKind::UnexpectedEof.into());
        }
        self.file.read_exact_at(at, out)
    }

    fn write_all_at(&mut self, at: u64, block: &[u8]) -> io::Result<()> {
        if self.is_replaced && !block.is_empty() {
            return Err(ErrorKind::WriteZero.into());
        }
        self.file.write_all_at(at, block)
    }

    fn set_byte_len(&mut self, n: u64) -> io::Result<()> {
        if self.is_replaced {
            self.file.set_byte_len(0)?;
            self.is_replaced = false;
        }
        self.file.set_byte_len(n)
    }

    fn sync(&mut self) -> io::Result<()> {
        self.file.sync()
    }
}
