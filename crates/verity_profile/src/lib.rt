//! The bounds of the profile, said once: which block sizes a volume may have, and how many data blocks.
//!
//! Its one contract: `is_block_size` and `is_block_count` answer true exactly inside these bounds. There is no error and
//! nothing takes memory. The definitions, and the words for lists of blocks that other crates share, are in `specs/Profile.antt`.
#![tactic(auto)]

ghost use Rattle.std.specs.Prelude.{◌↔◌, IsTrue};
ghost use Rattle.verity_profile.specs.Profile.{IsBlockSize, IsBlockCount};

/// The smallest block, in bytes.
pub const SMALLEST_BLOCK: usize = 512;

/// The largest block, in bytes.
pub const LARGEST_BLOCK: usize = 524_288;

/// The most data blocks that a volume may have: 2^40.
pub const MOST_BLOCKS: u64 = 1 << 40;

/// Whether a data block or a hash block may have `size` bytes: a power of two from 512 to 524,288.
pub fn is_block_size(size: usize) -> bool
    ensures { IsTrue result ↔ IsBlockSize size }
{
    SMALLEST_BLOCK <= size && size <= LARGEST_BLOCK && size.is_power_of_two()
}

/// Whether a volume may have `blocks` data blocks: from 1 to 2^40.
pub fn is_block_count(blocks: u64) -> bool
    ensures { IsTrue result ↔ IsBlockCount blocks }
{
    1 <= blocks && blocks <= MOST_BLOCKS
}
