//! Makes a hash device in parts: level 0 in slices, by processes side by side, and all else in a join.
//!
//! Level 0 of a tree is nearly all of it, and its blocks don't depend on one another. [`build_slice`] makes those of one [`Slice`]
//! of several and changes no other block of the hash store; [`build_joined`] is told which were made, and makes the levels above
//! from level 0 as it stands, the superblock and the length. [`leaves`] is how many blocks level 0 has.
//!
//! The one contract that the layers above rely on is the law [`slices_build`]: over stores that tell, slices in any order and any cut
//! that were made of an image and cover level 0, and then a join, leave what `build_at` of `verity_build` leaves of this image,
//! byte for byte, and the join answers its root. Over any stores a slice changes no block but its own, and of those that it wrote
//! each holds the digests of data blocks that the data store gave; and a join answers the root of level-0 blocks that the hash store gave.
//!
//! The errors are those of `BuildFault`, and of a join also J1 ([`JoinFault`]). All memory is taken before the first change of a store.
//!
//! The definitions stand in `specs/`: `Level` (level 0, and the tree above it), `Leaves` (what a slice leaves), `Joins` (what a join
//! leaves), `Laws`, `Given`, `Faults`, `Texts`.
#![tactic(auto)]

mod closing;
mod fault;
mod joining;
mod laws;
mod prepare;
mod slicing;
mod taking;

pub use fault::JoinFault;
pub use joining::build_joined;
pub use laws::slices_build;
pub use prepare::leaves;
pub use slicing::build_slice;
