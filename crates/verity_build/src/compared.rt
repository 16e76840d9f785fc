//! What a comparison finds.
use verity_digest::Digest;

/// What a comparison finds.
#[derive(Clone, Copy, Debug, PartialEq, Eq)]
pub enum Compared {
    /// The hash store holds the tree, whose root hash this is.
    Same(Digest),
    /// It does not.
    Differs {
        /// The level of the first block that differs, in the order of the device: the top level first.
        level: usize,
        /// The index of that block in its level.
        index: u64,
    },
}
