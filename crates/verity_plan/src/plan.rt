//! What a commit makes again: the numbers of the blocks, and one hash block from what it held.
ghost use Rattle.std.specs.Prelude.{◌≡◌, ◌≢◌, ℕ, ◌+◌, ◌-◌, ◌*◌, ◌/◌, ◌^◌, ◌<◌, ◌≤◌, true, false, [], length, map, drop};
ghost use Rattle.std.specs.Prelude.{slice_index_or, slice_set, IfOk};
ghost use Rattle.verity_pending.specs.Parents.{parents};
ghost use Rattle.verity_pending.specs.Slots.{slots, child_at, AreSized, FillsSlots};
ghost use Rattle.verity_plan.specs.Remade.{IsRemade};

use std::alloc::{AllocError, Allocator};
use verity_pending::Children;

/// Whether the last of these numbers is this one.
fn is_last(numbers: &[u64], number: u64) -> bool
    ensures same { result ≡ true → (0 < length numbers.now) × (slice_index_or numbers.now (length numbers.now - 1) 0 ≡ number) }
    ensures other { result ≡ false → 0 < length numbers.now → slice_index_or numbers.now (length numbers.now - 1) 0 ≡ number → ⊥ }
{
    match numbers.last() {
        Some(last) => *last == number,
        None => false,
    }
}

/// The numbers of the blocks one level above these, which rise, in this room.
pub fn parents<A: Allocator + Copy>(
    room: Vec<u64, A>,
    children: &Children<A>,
    per_block: u64,
) -> Result<Vec<u64, A>, AllocError>
    requires some { 0 < per_block }
    requires empty { room.items ≡ [] }
    ensures { IfOk result (λ up. up.items ≡ parents per_block (map (λ child. child.number) children.now.items)) }
{
    let mut up = room;
    let count = children.len();
    for c in 0..count {
        let number = children.at(c).number / per_block;
        if !is_last(&up, number) {
            up.push(number)?;
        }
    }
    Ok(up)
}

/// Puts a digest of `size` bytes into a slot of a hash block.
pub fn set_slot(block: &mut [u8], slot: usize, size: usize, digest: &[u8])
    requires sized { length digest.now ≡ size }
    requires room { slot * size + size ≤ length block.old }
    ensures slots { (k : ℕ) → slot < k → k * size ≤ length block.old
        → slots size k block.new ≡ slice_set (slots size k block.old) slot digest.now }
    ensures tail { (k : ℕ) → slot < k → drop (k * size) block.new ≡ drop (k * size) block.old }
{
    let at = slot * size;
    block[at..at + size].copy_from_slice(digest);
}

/// Puts the digests of the children of hash block `index` into its slots, from child `start` on, and answers where the
/// children of the next block begin.
pub fn fill<A: Allocator + Copy>(
    block: &mut [u8],
    children: &Children<A>,
    start: usize,
    index: u64,
    per_block: u64,
    size: usize,
) -> usize
    requires some { 0 < per_block }
    requires sized { AreSized size children.now.items }
    requires room { per_block * size ≤ length block.old }
    requires start { start ≤ length children.now.items }
    ensures least { start ≤ result }
    ensures most { result ≤ length children.now.items }
    ensures passed { (c : ℕ) → start ≤ c → c < result → (child_at children.now.items c).number / per_block ≡ index }
    ensures stops { result < length children.now.items → (child_at children.now.items result).number / per_block ≢ index }
    ensures slots { FillsSlots per_block children.now.items start result (slots size per_block block.old) (slots size per_block block.new) }
    ensures tail { drop (per_block * size) block.new ≡ drop (per_block * size) block.old }
{
    let mut at = start;
    while at < children.len() {
        let child = children.at(at);
        if child.number / per_block != index {
            return at;
        }
        let slot = (child.number % per_block) as usize;
        set_slot(block, slot, size, child.digest.bytes());
        at += 1;
    }
    at
}

/// Makes hash block `index` again from what it held: the digests of its children in their slots, and zeros behind the
/// `len` digests that it holds.
pub fn remake<A: Allocator + Copy>(
    block: &mut [u8],
    children: &Children<A>,
    index: u64,
    per_block: u64,
    size: usize,
    len: usize,
)
    requires some { 0 < per_block }
    requires sized { AreSized size children.now.items }
    requires room { per_block * size ≤ length block.old }
    requires len { len ≤ per_block }
    requires fits { index * per_block < 2 ^ 64 }
    ensures { IsRemade size per_block index len children.now.items block.old block.new }
{
    let first = index * per_block;
    let start = children.first_from(first);
    let _end = fill(block, children, start, index, per_block, size);
    let used = len * size;
    block[used..].fill(0);
}
