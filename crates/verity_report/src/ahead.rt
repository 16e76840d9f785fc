//! Runs of data blocks, which are read one after the other and hashed side by side.
ghost use Rattle.std.specs.Prelude.{◌≡◌, ◌≢◌, ℕ, ◌+◌, ◌-◌, ◌*◌, ◌^◌, ◌<◌, ◌≤◌, min, max, true, [], length, slice_index_or};
ghost use Rattle.std.specs.Fork.{slice_chunk};
ghost use Rattle.verity_store.specs.Given.{GaveSince};
ghost use Rattle.verity_store.specs.Stores.{IsOnlyRead};
ghost use Rattle.verity_report.specs.Stores.{GivesOwn};

use verity_digest::Digest;
use verity_store::BlockStore;

/// How many data blocks are hashed side by side.
const AT_A_TIME: usize = 8;

/// How many bytes of data blocks are read at a time, but for single blocks that are longer.
const BYTES_AT_A_TIME: usize = 524_288;

/// The bytes of the longest run: of eight data blocks, or of fewer where eight would be more than 512 KiB.
pub fn longest_run(block_size: usize) -> usize
    ensures one { block_size ≤ result }
    ensures most { result ≡ max (min (block_size * 8) 524288) block_size }
{
    block_size
        .saturating_mul(AT_A_TIME)
        .min(BYTES_AT_A_TIME)
        .max(block_size)
}

/// How many data blocks the next run has: as many as `room` bytes hold, but no more than `most`, or than eight.
pub fn run_len(block_size: usize, room: usize, most: u64) -> usize
    requires size { 0 < block_size }
    requires room { block_size ≤ room }
    requires most { 0 < most }
    ensures some { 0 < result }
    ensures few { result ≤ 8 }
    ensures most { result ≤ most }
    ensures fits { result * block_size ≤ room }
    ensures full { result < 8 → result < most → room < (result + 1) * block_size }
{
    (room / block_size).min(AT_A_TIME).min(most as usize)
}

/// Reads the blocks from `first` on into `out`, which has the bytes of `count`, one after the other and up to the first
/// whose read fails. Answers how many were read before it.
pub fn read_ahead<S: BlockStore>(store: &mut S, first: u64, count: usize, out: &mut [u8]) -> usize
    requires within { first + count ≤ length (S.content store.old) }
    requires near { first + count < 2 ^ 64 }
    requires sized { length out.old ≡ count * S.size store.old }
    ensures most { result ≤ count }
    ensures given { (mark : ℕ) → mark ≤ length (S.given store.old)
        → (j : ℕ) → j < result → GaveSince (S.given store.new) mark (first + j) (slice_chunk out.new (S.size store.old) j) }
    ensures right { S.tells store.old ≡ true
        → (j : ℕ) → j < result → slice_index_or (S.content store.old) (first + j) [] ≡ slice_chunk out.new (S.size store.old) j }
    ensures own { GivesOwn S.BlockStore store.old store.new }
    ensures failed { result < count → S.failures store.old < S.failures store.new }
    ensures counted { S.reads store.new ≡ S.reads store.old + min count (result + 1) }
    ensures read { IsOnlyRead S.BlockStore store.old store.new }
{
    let size = store.block_size();
    'each: for j in 0..count {
        let at = j * size;
        if store
            .read(first + j as u64, &mut out[at..at + size])
            .is_err()
        {
            return j;
        }
    }
    count
}

/// How many of these digests are the ones that are named, up to the first that isn't.
pub fn agreeing(digests: &[Digest], names: &[Digest]) -> usize
    requires { length digests.now ≤ length names.now }
    ensures most { result ≤ length digests.now }
    ensures same { (j : ℕ) → j < result → slice_index_or digests.now j [] ≡ slice_index_or names.now j [] }
    ensures differs { result < length digests.now → slice_index_or digests.now result [] ≢ slice_index_or names.now result [] }
{
    'each: for i in 0..digests.len() {
        if digests[i].bytes() != names[i].bytes() {
            return i;
        }
    }
    digests.len()
}
