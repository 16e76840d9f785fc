//! Where the tree begins.
ghost use Rattle.std.specs.Prelude.{◌≡◌, ◌↔◌, ◌<◌, ◌≤◌, ◌+◌, ◌^◌, IsOk, IfOk, IfErr};
ghost use Rattle.verity_profile.specs.Profile.{IsBlockSize};
ghost use Rattle.verity_superblock.specs.Image.{CanBegin, start_behind};

use crate::SuperFault;

/// The most hash blocks that may stand in front of a superblock: 2^40 - 1.
const MOST_IN_FRONT: u64 = (1 << 40) - 1;

/// The hash block at which the tree begins behind a superblock at a byte offset: the one after the
/// superblock's. B10 where the offset isn't a multiple of the hash block size, or more than 2^40 - 1
/// blocks stand in front. It takes no memory.
pub fn tree_start(offset: u64, hash_size: usize) -> Result<u64, SuperFault>
    requires { IsBlockSize hash_size }
    ensures ok { IsOk result ↔ CanBegin offset hash_size }
    ensures start { IfOk result (λ start. start ≡ start_behind offset hash_size) }
    ensures within { IfOk result (λ start. (1 ≤ start) × (start ≤ 2 ^ 40)) }
    ensures refused { IfErr result (λ fault. fault ≡ SuperFault.Offset) }
{
    let size = hash_size as u64;
    let in_front = offset / size;
    if offset % size != 0 || in_front > MOST_IN_FRONT {
        return Err(SuperFault::Offset);
    }
    Ok(in_front + 1)
}
