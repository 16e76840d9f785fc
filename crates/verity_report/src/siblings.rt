//! Along the data blocks below one parent.
ghost use Rattle.std.specs.Prelude.{◌≡◌, ℕ, ◌+◌, ◌-◌, ◌*◌, ◌%◌, ◌^◌, ◌<◌, ◌≤◌, true, false, List, [], length, drop, slice_index_or};
ghost use Rattle.std.specs.Prelude.{Contains, OnOk, IfOk};
ghost use Rattle.verity_store.specs.Stores.{IsOnlyRead};
ghost use Rattle.verity_chain.specs.Table.{IsTable, hashing_of, branching, height};
ghost use Rattle.verity_report.specs.Stores.{IsDataStoreOf, GivesOwn, listed_in};
ghost use Rattle.verity_report.specs.Descent.{AreRows, AreSeenTo, IsDownTo, IsUnder, IsRun, IsSoFar, known, places, compared};

use crate::ahead::{read_ahead, run_len};
use crate::finding::Finding;
use crate::row::{Row, is_lost, name_of, note};
use std::alloc::{AllocError, Allocator};
use verity_chain::{Place, Tree};
use verity_digest::Digest;
use verity_store::BlockStore;

/// Writes down that the data blocks from `n` on weren't looked at, since their parent isn't good.
fn pass_over<A: Allocator>(
    tree: &Tree<A>,
    n: u64,
    count: usize,
    rows: &mut [Row<A>],
    unchecked: &mut u64,
) -> Result<(), AllocError>
    requires within { n + count ≤ 2 ^ 62 }
    requires rows { AreRows tree.now rows.old }
    requires under { IsUnder tree.now n count rows.old }
    requires bad { (0 < height tree.now) × ((known rows.old 1).good ≡ false) }
    requires room { unchecked.old + count ≤ 2 ^ 62 }
    ensures run { OnOk result (IsRun count rows.old rows.new) }
    ensures found { (data_gave hash_gave : List (ℕ × List ℕ)) (base now : ℕ)
        → IsSoFar tree.now (listed_in tree.now data_gave hash_gave) rows.old unchecked.old base now
        → OnOk result (IsSoFar tree.now (listed_in tree.now data_gave hash_gave) rows.new unchecked.new base now) }
    ensures counted { OnOk result (unchecked.new ≡ unchecked.old + count) }
{
    let _levels = tree.levels();
    'each: for j in 0..count {
        note(
            rows,
            0,
            Finding::Unchecked,
            Place::Data(n + j as u64),
            unchecked,
        )?;
    }
    Ok(())
}

/// What is found at a place, by the digest that is named there and the one that its block has.
fn compare(named: Option<Digest>, made: &Digest) -> Finding
    ensures { result ≡ compared named made.now }
{
    let Some(digest) = named else {
        return Finding::Unchecked;
    };
    if made.bytes() == digest.bytes() {
        Finding::Good
    } else {
        Finding::Bad
    }
}

/// Writes down what is found at the data blocks from `n` on, which have these digests and a good parent.
fn note_run<A: Allocator>(
    tree: &Tree<A>,
    n: u64,
    digests: &[Digest],
    rows: &mut [Row<A>],
    unchecked: &mut u64,
) -> Result<(), AllocError>
    requires within { n + length digests.now ≤ 2 ^ 62 }
    requires rows { AreRows tree.now rows.old }
    requires under { IsUnder tree.now n (length digests.now) rows.old }
    requires good { 0 < height tree.now → (known rows.old 1).good ≡ true }
    requires room { unchecked.old ≤ 2 ^ 62 }
    ensures run { OnOk result (IsRun (length digests.now) rows.old rows.new) }
    ensures found { (data_gave hash_gave : List (ℕ × List ℕ)) (blocks : ℕ → List ℕ)
        → ((j : ℕ) → j < length digests.now → (slice_index_or digests.now j [] ≡ (hashing_of tree.now).digest (blocks j))
        × Contains data_gave (n + j, blocks j))
        → (base now : ℕ) → IsSoFar tree.now (listed_in tree.now data_gave hash_gave) rows.old unchecked.old base now
        → OnOk result (IsSoFar tree.now (listed_in tree.now data_gave hash_gave) rows.new unchecked.new base now) }
    ensures counted { OnOk result (unchecked.new ≡ unchecked.old) }
{
    'each: for j in 0..digests.len() {
        let number = n + j as u64;
        let finding = compare(name_of(tree, 0, number, rows), &digests[j]);
        note(rows, 0, finding, Place::Data(number), unchecked)?;
    }
    Ok(())
}

/// Reads `count` data blocks from `n` on, which have one good parent, up to the first whose read fails, and writes down what is
/// found. Answers how many were looked at.
fn look_ahead<D: BlockStore, A: Allocator>(
    tree: &mut Tree<A>,
    data_store: &mut D,
    run: &mut [u8],
    n: u64,
    count: usize,
    rows: &mut [Row<A>],
    unchecked: &mut u64,
) -> Result<usize, AllocError>
    requires allowed { IsTable tree.old }
    requires store { IsDataStoreOf D.BlockStore tree.old data_store.old }
    requires some { 0 < count }
    requires few { count ≤ 8 }
    requires whole { length run.old ≡ count * tree.old.data_block_size }
    requires within { n + count ≤ tree.old.data_blocks }
    requires rows { AreRows tree.old rows.old }
    requires under { IsUnder tree.old n count rows.old }
    requires good { 0 < height tree.old → (known rows.old 1).good ≡ true }
    requires room { unchecked.old ≤ 2 ^ 62 }
    ensures some { IfOk result (λ looked. 0 < looked) }
    ensures most { IfOk result (λ looked. looked ≤ count) }
    ensures run { IfOk result (λ looked. IsRun looked rows.old rows.new) }
    ensures found { (mark : ℕ) → mark ≤ length (D.given data_store.old) → (gave : List (ℕ × List ℕ)) (base other : ℕ)
        → IsSoFar tree.old (listed_in tree.old (drop mark (D.given data_store.old)) gave) rows.old unchecked.old
        base (D.failures data_store.old + other)
        → OnOk result (IsSoFar tree.old (listed_in tree.old (drop mark (D.given data_store.new)) gave) rows.new unchecked.new
        base (D.failures data_store.new + other)) }
    ensures own { GivesOwn D.BlockStore data_store.old data_store.new }
    ensures unchecked { OnOk result (unchecked.new ≡ unchecked.old) }
    ensures counted { IfOk result (λ looked. D.reads data_store.new ≡ D.reads data_store.old + looked) }
    ensures keeps { IsOnlyRead D.BlockStore data_store.old data_store.new }
    ensures same { tree.new ≡ tree.old }
{
    let size = tree.table().data_block_size();
    let read = read_ahead(data_store, n, count, run);
    let mut room_for_digests = [tree.root(); 8];
    let digests = &mut room_for_digests[..read];
    tree.digest_run(&run[..read * size], size, digests);
    note_run(tree, n, digests, rows, unchecked)?;
    if read == count {
        return Ok(count);
    }
    note(
        rows,
        0,
        Finding::Unread,
        Place::Data(n + read as u64),
        unchecked,
    )?;
    Ok(read + 1)
}

/// Looks at the next data blocks: at those that have one parent, as many as are hashed side by side. Answers which is the next one.
pub(crate) fn look_at_run<D: BlockStore, A: Allocator>(
    tree: &mut Tree<A>,
    data_store: &mut D,
    run: &mut [u8],
    n: u64,
    rows: &mut [Row<A>],
    unchecked: &mut u64,
) -> Result<u64, AllocError>
    requires allowed { IsTable tree.old }
    requires store { IsDataStoreOf D.BlockStore tree.old data_store.old }
    requires within { n < tree.old.data_blocks }
    requires run { tree.old.data_block_size ≤ length run.old }
    requires rows { AreRows tree.old rows.old }
    requires path { IsDownTo tree.old n 0 rows.old }
    requires room { unchecked.old ≤ 2 ^ 61 }
    ensures more { IfOk result (λ next. n < next) }
    ensures within { IfOk result (λ next. next ≤ tree.old.data_blocks) }
    ensures rows { OnOk result (AreRows tree.old rows.new) }
    ensures before { IfOk result (λ next. AreSeenTo tree.old next rows.new) }
    ensures found { (mark : ℕ) → mark ≤ length (D.given data_store.old) → (gave : List (ℕ × List ℕ)) (base other : ℕ)
        → IsSoFar tree.old (listed_in tree.old (drop mark (D.given data_store.old)) gave) rows.old unchecked.old
        base (D.failures data_store.old + other)
        → OnOk result (IsSoFar tree.old (listed_in tree.old (drop mark (D.given data_store.new)) gave) rows.new unchecked.new
        base (D.failures data_store.new + other)) }
    ensures own { GivesOwn D.BlockStore data_store.old data_store.new }
    ensures counted { OnOk result (unchecked.new + D.reads data_store.new + places tree.old rows.old
        ≡ unchecked.old + D.reads data_store.old + places tree.old rows.new) }
    ensures most { IfOk result (λ next. unchecked.new + n ≤ unchecked.old + next) }
    ensures keeps { IsOnlyRead D.BlockStore data_store.old data_store.new }
    ensures same { tree.new ≡ tree.old }
{
    let size = tree.table().data_block_size();
    let blocks = tree.table().data_blocks();
    let siblings = tree.siblings(n);
    let count = run_len(size, run.len(), siblings.min(blocks - n));
    if is_lost(tree, rows) {
        pass_over(tree, n, count, rows, unchecked)?;
        return Ok(n + count as u64);
    }
    let looked = look_ahead(
        tree,
        data_store,
        &mut run[..count * size],
        n,
        count,
        rows,
        unchecked,
    )?;
    Ok(n + looked as u64)
}
