//! What a command asks of a system ([`System`]): what stands at its paths, the blocks of it, locks, and a journal's devices; and what is
//! the same over each system: which file or device was opened ([`Identity`]), which part of it a store lies in ([`Part`], [`VolumeFile`]),
//! what stands beside a path, and scripts read whole.
//!
//! Errors: those of `cli_faults`. The definitions stand in `specs/`: `Parts` and `VolumeFiles` (what a store lies in), `Identities` (one
//! file), `Reached` (what stands beside a path).
#![tactic(auto)]

mod beside;
mod identity;
mod part;
mod read_only;
mod reading;
mod system;
mod volume_file;

pub use beside::{journal_fault, path_beside};
pub use identity::{Identity, check_apart, file_identity};
pub use part::{Part, check_block_size};
pub use read_only::open_to_read;
pub use reading::{read_script, unread};
pub use system::System;
pub use volume_file::{RegularFile, VolumeFile};
