//! Which blocks of a file or a device are a store's.
ghost use Rattle.std.specs.Prelude.{◌≡◌, ◌↔◌, IsOk, IfErr};
ghost use Rattle.verity_profile.specs.Profile.{IsBlockSize};

use verity_profile::is_block_size;
use verity_store::StoreFault;

/// Which blocks of a file or a device are a store's.
#[derive(Clone, Copy, Debug, PartialEq, Eq)]
pub enum Part {
    /// All: of a file as it stands, of a device as when it was opened.
    All,
    /// The first blocks, so many.
    First(u64),
    /// Of a file all, as it stands; of a device the first whole blocks, at most so many.
    AtMost(u64),
    /// None of a file, in which all stays until the store's length is set; of a device all whole blocks.
    New,
}

/// S4 for all but the block sizes of the profile.
pub fn check_block_size(size: usize) -> Result<(), StoreFault>
    ensures taken { IsOk result ↔ IsBlockSize size }
    ensures refused { IfErr result (λ e. e ≡ StoreFault.BlockSize) }
{
    if is_block_size(size) {
        Ok(())
    } else {
        Err(StoreFault::BlockSize)
    }
}
