//! The command `pull`: makes DATA and HASH the volume of a trusted table line, from the devices that the line names, which nobody needs
//! to trust.
//!
//! The blocks are fetched, checked and written by `verity_pull`; here the words are read, the four files opened, and the superblock made.
//! The source's tree may begin at another hash block than HASH's: `verity_moved` has it where HASH has it.
//!
//! The contract that the program relies on: over any `System` a clause says of which line, from which files, into which files, by which
//! chain of openings and closings [`pull`] has worked, and what it prints (`IsPulledThere`). Where the local stores tell, what was closed
//! at DATA's and HASH's paths is the image that fits the line and its tree, or a store gave a clash. What stands there after a fault
//! `verity_pull::pull_either` says, over four stores: each local block is what it was, or ends a chain of given blocks.
//!
//! [`pull_kept`] is the same with its lines in files, over any `LineFolders` too: FILE is left with the line that is printed, and a crash
//! at any moment leaves it as it was or so (`IsPulledBy`, `IsLeftBy`).
//!
//! Its errors: words that aren't understood, S1 to S7, L1 to L9, B1 to B10, E13, V1 to V3, U2, want of memory. A commit that was cut short
//! in HASH's journal is recovered first (`os_journal`); one in the source's is refused (S6).
//!
//! The definitions stand in `specs/`: `Words` (what was asked for), `Superblocks` (the superblock that is laid), `Opening` (what is opened,
//! left and closed), `Printed` (what is printed, and what was done then), `Keeping` (what is left of FILE), `Faults` (what a fault is
//! refused with).
#![tactic(auto)]

mod faults;
mod keeping;
mod line;
mod local;
mod meter;
mod pulling;
mod source;
mod superblock;

pub use keeping::pull_kept;
pub use pulling::pull;
