//! Salted digests of blocks, and the definition of the hash tree of the dm-verity format.
//!
//! An [`Algorithm`] and a [`Salt`] say how a block is hashed: its [`Digest`] is the algorithm's
//! digest of the salt followed by the block ("Verity hash table format" of the Linux dm-verity
//! documentation, hash type 1; the digests are those of FIPS 180-4). A [`Hasher`] makes digests, and
//! contracts see how many it made.
//!
//! The one contract that the layers above rely on: `Hasher::digest` is `salted_digest`, and the
//! count rises by one; `Hasher::digest_many` is that of many blocks of one size, each counted. Its
//! only errors are those of `Salt::new`.
//!
//! The definitions stand in `specs/`: `Hash` (salted digests), `Tree` (packing, rounds, root, tree),
//! `Rows` (the same by rows, and the block at a place), `Shape` (the tree in numbers). [`laws`] has
//! what follows from them, and `specs/Laws` says it.
#![tactic(auto)]

mod algorithm;
mod digest;
mod hasher;
pub mod laws;
mod salt;

pub use algorithm::Algorithm;
pub use digest::Digest;
pub use hasher::Hasher;
pub use salt::{Salt, SaltFault};
