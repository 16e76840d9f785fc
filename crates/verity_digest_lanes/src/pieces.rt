//! What the messages of both hash functions are made of: their padding, and the pieces that don't lie in a block alone.
ghost use Rattle.std.specs.Prelude.{◌≡◌, ℕ, ◌+◌, ◌*◌, ◌<◌, ◌≤◌, ◌++◌, ◌∷◌, length, take, drop, replicate};
ghost use Rattle.verity_digest_lanes.specs.Lanes.{piece_at};
ghost use Rattle.std.specs.Fork.{slice_chunk};

/// A message's padding (FIPS 180-4, section 5.1): a bit 1, so many bytes of zeros behind its own, and the message's length in bits.
/// It stands at the front of the array, and is so long.
pub(crate) fn padding(zeros: usize, bits: &[u8]) -> ([u8; 144], usize)
    requires { zeros + 1 + length bits.now ≤ 144 }
    ensures value { take result.1 result.0 ≡ 0x80 ∷ replicate zeros 0 ++ bits.now }
    ensures len { result.1 ≡ zeros + 1 + length bits.now }
{
    let len = zeros + 1 + bits.len();
    let mut out = [0u8; 144];
    out[0] = 0x80;
    out[zeros + 1..len].copy_from_slice(bits);
    (out, len)
}

// Puts the bytes of `source` from `offset` on behind the first `used` bytes of `room`, as many as find room, and says how
// many bytes `room` then has.
fn pour(room: &mut [u8], used: usize, source: &[u8], offset: usize) -> usize
    requires { used ≤ length room.old }
    ensures most { result ≤ length room.old }
    ensures bytes { take result room.new ≡ take (length room.old) (take used room.old ++ drop offset source.now) }
{
    if offset >= source.len() {
        return used;
    }
    let count = (room.len() - used).min(source.len() - offset);
    room[used..used + count].copy_from_slice(&source[offset..offset + count]);
    used + count
}

// Fills `room` with the bytes at `from` of the message of `salt`, `block` and `pad`.
fn fill(room: &mut [u8], salt: &[u8], block: &[u8], pad: &[u8], from: usize)
    requires { from + length room.old ≤ length salt.now + length block.now + length pad.now }
    ensures { room.new ≡ piece_at (length room.old) (salt.now ++ (block.now ++ pad.now)) from }
{
    let after_salt = from.saturating_sub(salt.len());
    let after_block = after_salt.saturating_sub(block.len());
    let salted = pour(room, 0, salt, from);
    let blocked = pour(room, salted, block, after_salt);
    let _padded = pour(room, blocked, pad, after_block);
}

/// Fills `room` with the `piece` bytes at `from` of each lane's message, one after the other.
pub(crate) fn fill_lanes(
    room: &mut [u8; 512],
    lanes: usize,
    piece: usize,
    salt: &[u8],
    blocks: &[u8],
    size: usize,
    pad: &[u8],
    from: usize,
)
    requires room { lanes * piece ≡ 512 }
    requires blocks { length blocks.now ≡ lanes * size }
    requires within { from + piece ≤ length salt.now + size + length pad.now }
    ensures { (j : ℕ) → j < lanes
        → piece_at piece room.new (j * piece) ≡ piece_at piece (salt.now ++ (slice_chunk blocks.now size j ++ pad.now)) from }
{
    'lanes: for j in 0..lanes {
        fill(
            &mut room[j * piece..j * piece + piece],
            salt,
            &blocks[j * size..j * size + size],
            pad,
            from,
        );
    }
}
