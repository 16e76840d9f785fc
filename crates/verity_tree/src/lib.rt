//! The hash tree of a data store, made while its data blocks are read in their order.
//!
//! The data blocks are read once, up to 128 at a time but none behind those whose digests fill a hash block, and hashed eight side by
//! side ([`Leaves`]). An [`OpenTree`] holds one open hash block a level: a data block's digest comes to level 0, and where no digest
//! will come to a block any more, it can be written or compared at once, and its digest comes to the next level. That digest is made
//! later: the block waits until eight of its level can be hashed side by side ([`Waiting`]), or its digest is needed.
//!
//! The one contract that the layers above rely on: whichever digests are still to be made, a contract sees the open blocks with all
//! digests that came to them (`opens`), and each call says how these change. The digests of [`Leaves`] are those of the data store's
//! blocks over stores that tell. What digests make up a tree, and which block is written when, the layer above says.
//!
//! No error but a refusal of memory, by [`OpenTree::new`] alone, and the data store that failed a read, by [`Leaves::next`].
//!
//! The definitions stand in `specs/`: `Open` and `Climb` (the hash blocks that are being filled), `Waits`, `Coming` and `Opens` (those
//! that wait for their digests), `Ahead` (digests that are made ahead of their turn); of the fields `Filled` and `Kept`.
#![tactic(auto)]

mod leaves;
mod open_block;
mod open_tree;
mod waiting;

pub use leaves::{Leaves, bytes_at_a_time};
pub use open_block::OpenBlock;
pub use open_tree::OpenTree;
pub use waiting::Waiting;
