//! SHA-256 of eight messages of one length at a time, and SHA-512 of four: a salt, and then a block of each.
//!
//! A processor hashes one message word after word, and each step waits for the one before it. Eight messages wait for nothing
//! of one another, so their words stand side by side in vectors, one lane for each message, and each step of FIPS 180-4 is done for
//! all at once: eight words of 32 bits for SHA-256, four of 64 for SHA-512. The loop is plain vector code: the build's processor
//! decides how wide a register is.
//!
//! The one contract that the layer above relies on: each of the eight digests that [`digest_eight`] answers is `sha256`, and each of
//! the four that [`digest_four`] answers is `sha512`, as the crate `sha2` defines them, of the salt followed by that block, whatever
//! the salt's length and the blocks' size. There is no error, and nothing takes memory.
//!
//! The definitions stand in `specs/Lanes`: the state and the words of one lane, and a piece of its bytes. Block j of the
//! buffer is std's `slice_chunk`.
#![tactic(auto)]

mod constants;
mod lanes;
mod messages;
mod pieces;
mod wide;

pub use messages::digest_eight;
pub use wide::digest_four;
