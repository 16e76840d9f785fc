//! The SHA-512 digests of four messages of one length: a salt, and then a block of each.
ghost use Rattle.std.specs.Prelude.{◌≡◌, ℕ, ◌*◌, ◌<◌, ◌++◌, [], length, slice_index_or};
ghost use Rattle.sha2.specs.Sha512.{digest_bytes, initial_hash_512, sha512};
ghost use Rattle.verity_digest_lanes.specs.Lanes.{lane};
ghost use Rattle.std.specs.Fork.{slice_chunk};

use crate::pieces::{fill_lanes, padding};
use crate::wide::constants::INITIAL;
use crate::wide::lanes::compress;
use std::simd::u64x4;

// The initial hash value in each lane (section 5.3.5).
fn initial_state() -> [u64x4; 8]
    ensures { (j : ℕ) → j < 4 → lane j result ≡ initial_hash_512 }
{
    [
        u64x4::splat(INITIAL[0]),
        u64x4::splat(INITIAL[1]),
        u64x4::splat(INITIAL[2]),
        u64x4::splat(INITIAL[3]),
        u64x4::splat(INITIAL[4]),
        u64x4::splat(INITIAL[5]),
        u64x4::splat(INITIAL[6]),
        u64x4::splat(INITIAL[7]),
    ]
}

// The words of lane j, high byte first.
fn digest_of(state: &[u64x4; 8], j: usize) -> [u8; 64]
    requires { j < 4 }
    ensures { result ≡ digest_bytes (lane j state.now) 8 }
{
    let mut out = [0u8; 64];
    'words: for i in 0..8 {
        let words = state[i].to_array();
        out[8 * i..8 * i + 8].copy_from_slice(&words[j].to_be_bytes());
    }
    out
}

/// The SHA-512 digests of the salt followed by each of four blocks of `size` bytes, which stand one after the other in `blocks`.
///
/// It takes no memory. Any salt and size will do, also none.
pub fn digest_four(salt: &[u8], blocks: &[u8], size: usize) -> [[u8; 64]; 4]
    requires { length blocks.now ≡ 4 * size }
    ensures { (j : ℕ) → j < 4 → slice_index_or result j [] ≡ sha512 (salt.now ++ slice_chunk blocks.now size j) }
{
    let total = salt.len() + size;
    let zeros = (239 - total % 128) % 128;
    let (padded, pad_len) = padding(zeros, &(total as u128).wrapping_mul(8).to_be_bytes());
    let pad = &padded[..pad_len];
    let count = (total + pad_len) / 128;
    let mut state = initial_state();
    let mut room = [0u8; 512];
    'chunks: for k in 0..count {
        let from = 128 * k;
        if from >= salt.len() && from + 128 <= total {
            compress(&mut state, blocks, size, from - salt.len());
        } else {
            fill_lanes(&mut room, 4, 128, salt, blocks, size, pad, from);
            compress(&mut state, &room, 128, 0);
        }
    }
    let mut out = [[0u8; 64]; 4];
    'lanes: for j in 0..4 {
        out[j] = digest_of(&state, j);
    }
    out
}
