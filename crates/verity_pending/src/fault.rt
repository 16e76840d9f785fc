//! Why an edit is refused, and that a plan isn't carried out.
ghost use Rattle.std.specs.Prelude.{Some};

use std::alloc::AllocError;
use std::fmt;
use thiserror::Error;
use verity_store::{StoreFault, Which};
use verity_superblock::SuperFault;

/// Why a volume isn't opened, or an edit or a commit is refused. Its text is its number and what it carries.
#[derive(Clone, Copy, Debug, PartialEq, Eq, Error)]
pub enum EditFault {
    /// E1: a write to a block that isn't below the working count.
    OutOfRange,
    /// E2: a block that hasn't the bytes of a data block.
    WrongLength,
    /// E3: shrink to 0, or to a count not below the working one.
    TooSmall,
    /// E4: grow past 2^40, or to a count not above the working one.
    TooLarge,
    /// E5: memory was refused.
    NoMemory,
    /// E6: a call on this store failed.
    Store(Which),
    /// E7: an earlier commit failed after its first change.
    Broken,
    /// E8: the tree differs from the data, first at this block in the order of the device.
    Mismatch {
        /// The level, counted from the level of the data blocks' digests.
        level: usize,
        /// The block's number in its level.
        index: u64,
    },
    /// E9: there is no superblock of the profile, for this reason.
    Superblock(SuperFault),
    /// E10: the data store hasn't exactly as many blocks as the superblock says.
    DataLength,
    /// E11: this store's block size isn't the superblock's.
    StoreSize(Which),
    /// E12: no superblock can stand at this byte offset.
    Offset,
    /// E13: the superblock isn't that of the table line.
    Line,
    /// E14: the hash block at this place hasn't the digest that is named for it, from the table line's root down.
    Untrusted {
        /// The level, counted from the level of the data blocks' digests.
        level: usize,
        /// The block's number in its level.
        index: u64,
    },
}

impl From<AllocError> for EditFault {
    ghost use Rattle.std.specs.Prelude.{◌≡◌};
    ghost use Rattle.verity_pending.specs.declared.fault.EditFault.TheVariants as fault;

    ghost from_gives = { λ _ made. made ≡ fault.NoMemory };

    /// E5.
    fn from(_refused: AllocError) -> Self {
        EditFault::NoMemory
    }
}

impl fmt::Display for EditFault {
    ghost use Rattle.verity_pending.specs.Texts.{edit_text};

    ghost output = { λ fault. Some (edit_text fault) };

    fn fmt<W: fmt::Write>(&self, f: &mut fmt::Formatter<W>) -> fmt::Result {
        match self {
            EditFault::OutOfRange => f.write_str("E1"),
            EditFault::WrongLength => f.write_str("E2"),
            EditFault::TooSmall => f.write_str("E3"),
            EditFault::TooLarge => f.write_str("E4"),
            EditFault::NoMemory => f.write_str("E5"),
            EditFault::Store(which) => write!(f, "E6 {which}"),
            EditFault::Broken => f.write_str("E7"),
            EditFault::Mismatch { level, index } => write!(f, "E8 level {level} index {index}"),
            EditFault::Superblock(fault) => write!(f, "E9 {fault}"),
            EditFault::DataLength => f.write_str("E10"),
            EditFault::StoreSize(which) => write!(f, "E11 {which}"),
            EditFault::Offset => f.write_str("E12"),
            EditFault::Line => f.write_str("E13"),
            EditFault::Untrusted { level, index } => write!(f, "E14 level {level} index {index}"),
        }
    }
}

/// A call on a store failed, which its `failures` count. The store's fault isn't kept, since whoever carries out a plan knows the store
/// and answers its name.
#[derive(Clone, Copy, Debug, PartialEq, Eq, Error)]
#[error("the store failed")]
pub struct StoreFailed;

impl From<StoreFault> for StoreFailed {
    fn from(_fault: StoreFault) -> Self {
        StoreFailed
    }
}
