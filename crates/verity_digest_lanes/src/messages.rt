//! The SHA-256 digests of eight messages of one length: a salt, and then a block of each.
ghost use Rattle.std.specs.Prelude.{◌≡◌, ℕ, ◌*◌, ◌<◌, ◌++◌, [], length, slice_index_or};
ghost use Rattle.sha2.specs.Sha256.{digest_bytes, initial_hash_256, sha256};
ghost use Rattle.verity_digest_lanes.specs.Lanes.{lane};
ghost use Rattle.std.specs.Fork.{slice_chunk};

use crate::constants::INITIAL;
use crate::lanes::compress;
use crate::pieces::{fill_lanes, padding};
use std::simd::u32x8;

// The initial hash value in each lane (section 5.3.3).
fn initial_state() -> [u32x8; 8]
    ensures { (j : ℕ) → j < 8 → lane j result ≡ initial_hash_256 }
{
    [
        u32x8::splat(INITIAL[0]),
        u32x8::splat(INITIAL[1]),
        u32x8::splat(INITIAL[2]),
        u32x8::splat(INITIAL[3]),
        u32x8::splat(INITIAL[4]),
        u32x8::splat(INITIAL[5]),
        u32x8::splat(INITIAL[6]),
        u32x8::splat(INITIAL[7]),
    ]
}

// The words of lane j, high byte first.
fn digest_of(state: &[u32x8; 8], j: usize) -> [u8; 32]
    requires { j < 8 }
    ensures { result ≡ digest_bytes (lane j state.now) 8 }
{
    let mut out = [0u8; 32];
    'words: for i in 0..8 {
        let words = state[i].to_array();
        out[4 * i..4 * i + 4].copy_from_slice(&words[j].to_be_bytes());
    }
    out
}

/// The SHA-256 digests of the salt followed by each of eight blocks of `size` bytes, which stand one after the other in `blocks`.
///
/// It takes no memory. Any salt and size will do, also none.
pub fn digest_eight(salt: &[u8], blocks: &[u8], size: usize) -> [[u8; 32]; 8]
    requires { length blocks.now ≡ 8 * size }
    ensures { (j : ℕ) → j < 8 → slice_index_or result j [] ≡ sha256 (salt.now ++ slice_chunk blocks.now size j) }
{
    let total = salt.len() + size;
    let zeros = (119 - total % 64) % 64;
    let (padded, pad_len) = padding(zeros, &(total as u64).wrapping_mul(8).to_be_bytes());
    let pad = &padded[..pad_len];
    let count = (total + pad_len) / 64;
    let mut state = initial_state();
    let mut room = [0u8; 512];
    'chunks: for k in 0..count {
        let from = 64 * k;
        if from >= salt.len() && from + 64 <= total {
            compress(&mut state, blocks, size, from - salt.len());
        } else {
            fill_lanes(&mut room, 8, 64, salt, blocks, size, pad, from);
            compress(&mut state, &room, 64, 0);
        }
    }
    let mut out = [[0u8; 32]; 8];
    'lanes: for j in 0..8 {
        out[j] = digest_of(&state, j);
    }
    out
}
