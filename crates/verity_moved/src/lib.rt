//! A hash device whose tree is seen at another hash block than it begins at: two devices may have one tree behind prefixes of different
//! lengths.
//!
//! The contract that the layer above relies on: a [`Moved`] store is a `BlockStore` whose blocks from one place on are those of the store
//! below from another place on. A read that is given is one of the store below, by its number there (`moved_given`); where that store
//! tells, so does this one. It is only read: writes and changes of the length fail, and so does a read in front of the tree.
//!
//! Its only error is S1, of the store below or its own. The definitions stand in `specs/`: `Moved`.
#![tactic(auto)]

mod moved;

pub use moved::Moved;
