//! The devices of a commit: the data device, the hash device and a journal, under one clock, and what a crash may leave of them.
//!
//! `specs/Disks.antt` says what a crash may leave of three devices: each write that wasn't synced may be there, or not, or torn at any
//! byte, and each change of length may be there in part. That is what the clauses of [`Disks`] ask of an implementation.
//!
//! [`FileDisks`] are three files. What is proved of them is said of devices beside the files: that a file of the system does what
//! a call asks of it, and what a crash leaves of it, is trusted. [`TearingDisks`] are three devices in memory that tear (`specs/Tearing`,
//! `specs/Past`), by which tests see what a crash leaves.
//!
//! # Errors
//!
//! [`DiskFault`]: a device failed; there was too little memory; or, from the layer above, the bytes are no journal.
#![tactic(auto)]

mod disks;
mod file_device;
mod file_log;
mod files;
mod memory;
mod past;
mod tearing;
mod three;

pub use disks::{Device, DiskFault, Disks};
pub use file_device::FileDevice;
pub use files::FileDisks;
pub use memory::TearingDisks;
pub use tearing::{Step, TearingDevice};
