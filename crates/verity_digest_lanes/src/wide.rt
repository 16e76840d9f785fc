//! SHA-512 of four messages of one length at a time.

mod constants;
mod lanes;
mod messages;

pub use messages::digest_four;
