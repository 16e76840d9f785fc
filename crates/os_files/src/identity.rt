//! What tells one file from another, however its path is spelled.
ghost use Rattle.std.specs.Prelude.{◌≡◌, ◌≢◌, ◌↔◌, true, IsTrue, IsOk, IfErr};
ghost use Rattle.std.specs.Fs.{IsFile, file_type};
ghost use Rattle.os_files.specs.Identities.{identity_of, is_known_file};

use cli_faults::{Failure, Word};
use std::fs::Metadata;
use std::os::unix::fs::{FileTypeExt, MetadataExt};

/// The file or the block device that a path leads to.
#[derive(Clone, Copy, Debug, PartialEq, Eq)]
pub enum Identity {
    /// A regular file: the device of its file system, and its number there.
    File(u64, u64),
    /// A block device: its device number, which each of its nodes has.
    Device(u64),
}

/// Which file or block device this is. None for all that holds no blocks: a folder, a pipe, a socket, a terminal.
pub fn file_identity(metadata: &Metadata) -> Option<Identity>
    ensures { (is_known_file result ≡ true) ↔ IsFile (file_type metadata.now) }
{
    let kind = metadata.file_type();
    told_apart(
        kind.is_file(),
        kind.is_block_device(),
        metadata.dev(),
        metadata.ino(),
        metadata.rdev(),
    )
}

fn told_apart(is_file: bool, is_device: bool, dev: u64, ino: u64, rdev: u64) -> Option<Identity>
    ensures { result ≡ identity_of is_file is_device dev ino rdev }
{
    if is_file {
        Some(Identity::File(dev, ino))
    } else if is_device {
        Some(Identity::Device(rdev))
    } else {
        None
    }
}

/// That DATA and HASH are two files. Where they are one, it is as where both have one name.
pub fn check_apart(image: Identity, device: Identity) -> Result<(), Failure>
    ensures apart { IsOk result ↔ (image ≢ device) }
    ensures refused { IfErr result (λ e. e ≡ Failure.Word Word.Hash) }
{
    if image == device {
        Err(Failure::Word(Word::Hash))
    } else {
        Ok(())
    }
}
