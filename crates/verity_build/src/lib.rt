//! Makes the hash device of a data store, and compares a hash store with the tree of a data store.
//!
//! [`build_at`] writes, behind the blocks that stay in front, the superblock and the hash tree of the data
//! store's blocks (cryptsetup's on-disk format of verity, "Verity hash table format" of the Linux dm-verity
//! documentation); [`compare_at`] names the first hash block that isn't the tree's. [`build`] and
//! [`compare`] are these with the superblock at byte 0. Both read the data blocks once, in their order, and make the tree
//! as these come (`verity_tree`): a hash block that no digest will come to any more is written or compared at once.
//!
//! The one contract that the layers above rely on: over stores that tell, a hash store that was built is
//! `hash_blocks` of `verity_superblock`, all of it, and the answer is the image's root; `Same` is answered
//! exactly where the content from the tree's start on begins with the image's tree.
//!
//! The errors are those of [`BuildFault`]: U1 the geometry, U2 a store that failed, U3 memory, U4 the offset.
//! All memory is taken before the first change of a store.
//!
//! The definitions stand in `specs/`: `Parameters` (what is built, and from what), `Differences` (what a
//! comparison finds), `Faults` (when which error comes), `Texts`; of the walk `Begins` (what it begins with),
//! `Progress` (how far the digests have come), `Device` (what is written).
#![tactic(auto)]

mod build_parameters;
mod building;
mod compared;
mod comparing;
mod fault;
mod prepare;

pub use build_parameters::BuildParameters;
pub use building::{build, build_at};
pub use compared::Compared;
pub use comparing::{compare, compare_at};
pub use fault::BuildFault;
