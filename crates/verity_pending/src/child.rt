//! A block below a hash block.
use verity_digest::Digest;

/// A block below a hash block, and its digest.
#[derive(Clone, Copy, Debug)]
pub struct Child {
    /// Its number in its row.
    pub number: u64,
    /// Its digest.
    pub digest: Digest,
}
