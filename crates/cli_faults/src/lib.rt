//! Why a command stops, with its text and the status for it; the values of its arguments; and what each command does to a volume's files.
//!
//! A [`Fault`] is one of the layers' own, under its number; a [`Failure`] is that, an argument that isn't understood ([`Word`]), want of
//! memory, or an output that can't be written. The definitions stand in `specs/`: `Faults` (texts and statuses), `Words` (the values of
//! arguments), `Misread` and `Blames` (which argument is blamed), `Errors` (what an error of the system becomes), `Commands` (locks).
#![tactic(auto)]

mod command;
mod failure;
mod fault;
mod status;
mod values;

pub use command::{Command, Lock};
pub use failure::{Failure, Word, is_want_of_memory, print_failure, status_after};
pub use fault::Fault;
pub use status::{DONE, NO_MEMORY, NOT_UNDERSTOOD, REFUSED};
pub use values::{
    algorithm, block_size, check_paths, memory, number, salt, salt_bytes, sessions, timeout, uuid,
};
