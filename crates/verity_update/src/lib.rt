//! An update: makes the working image of an editor that of an image NEW, by what differs.
//!
//! [`update`] reads each block of NEW once, and compares its digest with the one that the volume's tree names for its place. That
//! digest is read from the hash store, each hash block checked from the root of a table line down; no data block of the volume is
//! read. A block with another digest, or behind the old last one, is written to an [`Edited`] editor, which keeps it until its
//! commit. NEW's count becomes that of the working image first.
//!
//! # The contract
//!
//! Over any stores, for each image that fits the table line: the working image then has, block for block, the digests of the
//! blocks that NEW gave, and no block is written or added that had its digest already, or the hash store gave a clash (`Updates`). So
//! the root of its tree is the root of NEW's, and the line that is committed is NEW's ([`laws`]). The answer is the number of blocks
//! that were written or added (`changed_count`).
//!
//! # Errors
//!
//! [`UpdateFault`]: NEW's, or the editor's. Which comes when, and what stands then, is `ExplainsRefused`: what was edited until then
//! is pending.
//!
//! The definitions stand in `specs/`: `Update` (what an update leaves), `Refused` (why it is refused), `Walk` (block after block).
#![tactic(auto)]

mod edited;
mod fault;
pub mod laws;
mod named;
mod walk;

pub use edited::Edited;
pub use fault::UpdateFault;
pub use walk::update;
