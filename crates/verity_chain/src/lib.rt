//! The tree that a table line describes, and what a chain of given blocks from its root is worth.
//!
//! A [`Tree`] finds the blocks of a volume and their digests' places, and compares digests; a [`Place`] names a block. What a
//! store gave is not trusted: where it gave blocks one below the other, each with the digest that the one above it names and
//! the first with the root hash, the last one ends a chain. Under the table line of an image such a block is the image's own,
//! or at some place the store gave a block that differs from the image's own there and has its length and its digest
//! (`proofs/ChainLaw`; `verity_check` says it of its two stores, as contracts of its `laws`).
//!
//! [`fetch`] reads a hash block and the missing ones above it, from the top down, checks each and notes it; [`Checked`] is a
//! store that reads so, until a read is refused. What was noted is the image's own, or there is such a clash ([`laws`]).
//!
//! The errors are [`ReadRefused`], which has no number of its own, and `AllocError`.
//!
//! The definitions stand in `specs/`: `Table` (the tree of a table line), `Chain` (chains of given blocks), `Right` (the
//! image's own blocks, clashes), `Stores` (what a store gave at the places of the volume), `Notes` (noted blocks), `Origin`
//! (what was true of a store at some moment), `Checked` (a store of checked blocks).
#![tactic(auto)]

mod checked;
pub mod laws;
mod notes;
mod origin;
mod place;
mod tree;

pub use checked::Checked;
pub use notes::{Noted, ReadRefused, fetch};
pub use place::Place;
pub use tree::{Tree, geometry_of};
