//! The digests of the data blocks that were changed, of which several are made at a time.
ghost use Rattle.std.specs.Prelude.{◌≡◌, ℕ, ◌+◌, ◌*◌, ◌^◌, ◌<◌, ◌≤◌, [], length, map, slice_index_or, true, false};
ghost use Rattle.std.specs.Prelude.{OnErr, IfOk, if◌then◌else◌};
ghost use Rattle.std.specs.Fork.{slice_chunk};
ghost use Rattle.verity_pending.specs.Leaves.{unhashed, hashed_leaf, numbers_in, changed_numbers, written_or, is_written};
ghost use Rattle.verity_pending.specs.Leaves.{leaf_hashes};
ghost use Rattle.verity_digest.specs.Hash.{salted_digest};
ghost use Rattle.verity_pending.specs.Slots.{child_at};

use crate::child::Child;
use crate::children::Children;
use std::alloc::{AllocError, Allocator};
use std::collections::BTreeMap;
use verity_digest::{Digest, Hasher};
use verity_store::Block;

/// How many data blocks are hashed side by side.
const AT_A_TIME: usize = 8;

/// How many bytes of data blocks are gathered at a time, but for single blocks that are longer.
const BYTES_AT_A_TIME: usize = 524_288;

/// How many of `count` blocks are hashed at a time: eight, or fewer where eight would be more than 512 KiB.
fn blocks_at_a_time(block_size: usize, count: usize) -> usize
    ensures some { 0 < count → 0 < result }
    ensures few { result ≤ 8 }
    ensures fits { result * block_size < 2 ^ 64 }
{
    (BYTES_AT_A_TIME / block_size.max(1))
        .clamp(1, AT_A_TIME)
        .min(count)
}

/// A changed block whose digest is still to be made.
fn unhashed(number: u64) -> Child
    ensures { result ≡ unhashed number }
{
    Child {
        number,
        digest: Digest::from_bytes([0; 32]),
    }
}

/// The written blocks in order, whose digests are still to be made. It takes their room at once.
fn unhashed_leaves<A: Allocator>(
    alloc: A,
    written: &BTreeMap<u64, Block<A>, A>,
) -> Result<Vec<Child, A>, AllocError>
    ensures { IfOk result (λ leaves. leaves.items ≡ map unhashed (numbers_in written.now.entries)) }
{
    let mut leaves = Vec::with_capacity(alloc, written.len())?;
    for (n, _) in written {
        leaves.push(unhashed(*n))?;
    }
    Ok(leaves)
}

/// What was written to block `n`, or else zeros.
fn written_or<'a, A: Allocator>(
    written: &'a BTreeMap<u64, Block<A>, A>,
    n: u64,
    zero: &'a [u8],
) -> &'a [u8]
    ensures { result.now ≡ written_or written.now.entries zero.now n }
{
    match written.get(&n) {
        Some(block) => block.as_slice(),
        None => zero,
    }
}

/// Puts the blocks of these leaves one after the other into `run`.
fn gather<A: Allocator>(
    written: &BTreeMap<u64, Block<A>, A>,
    zero: &[u8],
    leaves: &[Child],
    run: &mut [u8],
)
    requires sized { (n : ℕ) → length (written_or written.now.entries zero.now n) ≡ length zero.now }
    requires room { length run.old ≡ length leaves.now * length zero.now }
    ensures { (j : ℕ) → j < length leaves.now
        → slice_chunk run.new (length zero.now) j ≡ written_or written.now.entries zero.now (child_at leaves.now j).number }
{
    let size = zero.len();
    for j in 0..leaves.len() {
        let at = j * size;
        run[at..at + size].copy_from_slice(written_or(written, leaves[j].number, zero));
    }
}

/// Gives each of these leaves its digest.
fn put_digests(leaves: &mut [Child], digests: &[Digest])
    requires { length digests.now ≡ length leaves.old }
    ensures { (j : ℕ) → j < length leaves.old
        → child_at leaves.new j ≡ record { number = (child_at leaves.old j).number; digest = slice_index_or digests.now j [] } }
{
    for j in 0..leaves.len() {
        leaves[j].digest = digests[j];
    }
}

/// Makes the digests of these leaves side by side, of which there are eight at most.
fn digest_run<A: Allocator>(
    written: &BTreeMap<u64, Block<A>, A>,
    zero: &[u8],
    hasher: &mut Hasher<A>,
    run: &mut [u8],
    leaves: &mut [Child],
)
    requires sized { (n : ℕ) → length (written_or written.now.entries zero.now n) ≡ length zero.now }
    requires few { length leaves.old ≤ 8 }
    requires room { length run.old ≡ length leaves.old * length zero.now }
    ensures made { leaves.new ≡ map (λ child. hashed_leaf hasher.old.salted written.now.entries zero.now child.number) leaves.old }
    ensures salted { hasher.new.salted ≡ hasher.old.salted }
    ensures hashed { hasher.new.hashed ≡ hasher.old.hashed + length leaves.old }
{
    gather(written, zero, leaves, run);
    let mut digests = [Digest::from_bytes([0; 32]); 8];
    let made = &mut digests[..leaves.len()];
    hasher.digest_many(run, zero.len(), made);
    put_digests(leaves, made);
}

/// Makes the digests of these leaves, of what was written to each block, `lanes` at a time, for which `room` has place.
fn digest_leaves<A: Allocator>(
    written: &BTreeMap<u64, Block<A>, A>,
    zero: &[u8],
    hasher: &mut Hasher<A>,
    lanes: usize,
    room: &mut [u8],
    leaves: &mut [Child],
)
    requires sized { (n : ℕ) → length (written_or written.now.entries zero.now n) ≡ length zero.now }
    requires some { 0 < length leaves.old → 0 < lanes }
    requires few { lanes ≤ 8 }
    requires room { length room.old ≡ lanes * length zero.now }
    ensures made { leaves.new ≡ map (λ child. hashed_leaf hasher.old.salted written.now.entries zero.now child.number) leaves.old }
    ensures salted { hasher.new.salted ≡ hasher.old.salted }
    ensures hashed { hasher.new.hashed ≡ hasher.old.hashed + length leaves.old }
{
    let mut done = 0;
    'runs: while done < leaves.len() {
        let count = lanes.min(leaves.len() - done);
        let run = &mut room[..count * zero.len()];
        digest_run(written, zero, hasher, run, &mut leaves[done..done + count]);
        done += count;
    }
}

/// The digest of a block of zeros, where it is wanted.
fn zero_digest<A: Allocator>(hasher: &mut Hasher<A>, zero: &[u8], wanted: bool) -> Digest
    ensures digest { wanted ≡ true → result ≡ salted_digest hasher.old.salted zero.now }
    ensures salted { hasher.new.salted ≡ hasher.old.salted }
    ensures hashed { hasher.new.hashed ≡ hasher.old.hashed + (if wanted then 1 else 0) }
{
    if !wanted {
        return Digest::from_bytes([0; 32]);
    }
    hasher.digest(zero)
}

/// The leaves of the changed blocks in order, of what was written to each, or else of zeros: of those before block `least` that
/// were written, and of all from there to before block `working`. It takes memory for those that were written, for one leaf behind
/// them, and for as many blocks as are hashed at a time, before it hashes the first; the others take none. It hashes each
/// written one, and one block of zeros where there are others; it answers how many blocks it hashed.
pub fn changed_leaves<A: Allocator + Copy>(
    alloc: A,
    written: &BTreeMap<u64, Block<A>, A>,
    least: u64,
    working: u64,
    zero: &[u8],
    hasher: &mut Hasher<A>,
) -> Result<(Children<A>, u64), AllocError>
    requires order { least ≤ working }
    requires few { working ≤ 2 ^ 40 }
    requires behind { (n : ℕ) → working ≤ n → is_written written.now.entries n ≡ false }
    requires sized { (n : ℕ) → length (written_or written.now.entries zero.now n) ≡ length zero.now }
    ensures leaves { IfOk result (λ made. made.0.items
        ≡ map (hashed_leaf hasher.old.salted written.now.entries zero.now) (changed_numbers written.now.entries least working)) }
    ensures salted { hasher.new.salted ≡ hasher.old.salted }
    ensures count { IfOk result (λ made. made.1
        ≡ leaf_hashes written.now.entries (changed_numbers written.now.entries least working)) }
    ensures most { IfOk result (λ made. made.1 ≤ length made.0.items) }
    ensures few { IfOk result (λ made. made.1 < 2 ^ 63) }
    ensures hashed { IfOk result (λ made. hasher.new.hashed ≡ hasher.old.hashed + made.1) }
    ensures unhashed { OnErr result (hasher.new.hashed ≡ hasher.old.hashed) }
{
    let _ordered = written.len();
    let mut leaves = unhashed_leaves(alloc, written)?;
    let behind = Vec::with_capacity(alloc, 1)?;
    let lanes = blocks_at_a_time(zero.len(), leaves.len());
    let mut room = Vec::from_elem(alloc, 0u8, lanes * zero.len())?;
    digest_leaves(written, zero, hasher, lanes, &mut room, &mut leaves);
    let hashed = leaves.len() as u64;
    let before = leaves.partition_point(|leaf| leaf.number < least);
    let others = ((leaves.len() - before) as u64) < working - least;
    let common = zero_digest(hasher, zero, others);
    let all = Children::spread(leaves, before, least, working, common, behind);
    Ok((all, if others { hashed + 1 } else { hashed }))
}
