//! Why a commit failed.

use thiserror::Error;
use verity_disks::DiskFault;
use verity_edit::EditFault;

/// Why a commit failed.
#[derive(Clone, Copy, Debug, PartialEq, Eq, Error, Drop)]
pub enum CommitFault {
    #[error("{0}")]
    Edit(EditFault),
    #[error("{0}")]
    Disks(DiskFault),
}
