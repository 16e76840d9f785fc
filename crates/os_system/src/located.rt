//! Here, or at a server.

ghost use Rattle.std.specs.Prelude.{◌≡◌, None};

use os_files::VolumeFile;
use std::fs::File;
use std::io::{self, ErrorKind};
use verity_store::RawFile;

/// One thing that is here, or another at a server.
#[derive(Drop)]
pub enum Located<L, F> {
    Here(L),
    There(F),
}

/// A file at a server, and how many bytes it had when it was opened.
#[derive(Drop)]
pub struct Remote<F> {
    pub file: F,
    pub len: u64,
}

/// That nothing is known of the bytes of a file here.
fn unknown(file: &VolumeFile<File>)
    ensures { ⟦<VolumeFile<File> as RawFile>⟧.bytes file.now ≡ None }
{
    match file {
        VolumeFile::Regular(_) => {}
        VolumeFile::Part(_) => {}
    }
}

// Nothing is known of the bytes, wherever they are; at a server none is written.
impl<F: RawFile> RawFile for Located<VolumeFile<File>, F> {
    fn byte_len(&self) -> io::Result<u64> {
        match self {
            Located::Here(file) => file.byte_len(),
            Located::There(file) => file.byte_len(),
        }
    }

    fn read_exact_at(&mut self, at: u64, out: &mut [u8]) -> io::Result<()> {
        match self {
            Located::Here(file) => file.read_exact_at(at, out),
            Located::There(file) => file.read_exact_at(at, out),
        }
    }

    fn write_all_at(&mut self, at: u64, block: &[u8]) -> io::Result<()> {
        match self {
            Located::Here(file) => {
                unknown(file);
                file.write_all_at(at, block)
            }
            Located::There(_) => Err(io::Error::from(ErrorKind::ReadOnlyFilesystem)),
        }
    }

    fn set_byte_len(&mut self, n: u64) -> io::Result<()> {
        match self {
            Located::Here(file) => file.set_byte_len(n),
            Located::There(_) => Err(ErrorKind::ReadOnlyFilesystem.into()),
        }
    }

    fn sync(&mut self) -> io::Result<()> {
        match self {
            Located::Here(file) => file.sync(),
            Located::There(_) => Ok(()),
        }
    }
}
