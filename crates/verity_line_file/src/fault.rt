//! Why a line's file isn't used.
ghost use Rattle.std.specs.Prelude.{◌≡◌};

use os_line_file::FolderFault;
use thiserror::Error;
use verity_superblock::TableFault;

/// Why a call on a line's file failed.
#[derive(Clone, Copy, Debug, PartialEq, Eq, Error, Drop)]
pub enum LineFileFault {
    /// FILE holds no table line, or a line can't stand in a file.
    #[error("{0}")]
    Line(TableFault),
    /// The volume's superblock has other values than FILE's line.
    #[error("the volume has other values than the line")]
    Values,
    /// The volume's top block hasn't the root hash of FILE's line.
    #[error("the volume's top block is another than the line's")]
    Top,
    /// The folder refused.
    #[error("the folder refused")]
    Folder,
    /// There is too little memory.
    #[error("there is too little memory")]
    NoMemory,
}

impl From<FolderFault> for LineFileFault {
    ghost use Rattle.verity_line_file.specs.Faults.{fault_of};

    ghost from_gives = { λ fault e. e ≡ fault_of fault };

    fn from(fault: FolderFault) -> LineFileFault {
        match fault {
            FolderFault::Device => LineFileFault::Folder,
            FolderFault::NoMemory => LineFileFault::NoMemory,
        }
    }
}
