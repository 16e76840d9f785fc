//! Down to a data block: the hash blocks above it that weren't looked at.
ghost use Rattle.std.specs.Prelude.{◌≡◌, ℕ, suc, ◌+◌, ◌/◌, ◌^◌, ◌<◌, ◌≤◌, true, Bool, List, length, drop, OnOk};
ghost use Rattle.verity_store.specs.Given.{GaveSince};
ghost use Rattle.verity_store.specs.Stores.{IsOnlyRead};
ghost use Rattle.verity_chain.specs.Table.{IsTable, branching, height, row_len};
ghost use Rattle.verity_chain.specs.Stores.{IsHashStoreOf};
ghost use Rattle.verity_report.specs.Report.{unchecked_one, judged};
ghost use Rattle.verity_report.specs.Finding.{IsChecked};
ghost use Rattle.verity_report.specs.Stores.{GivesOwn, listed_in};
ghost use Rattle.verity_report.specs.Descent.{AreRows, AreSeenTo, IsDownTo, IsSoFar, seen_in, places};

use crate::finding::Finding;
use crate::row::{Row, name_of, note_block, seen_of};
use std::alloc::{AllocError, Allocator};
use verity_chain::{Place, Tree};
use verity_digest::Digest;
use verity_store::BlockStore;

/// Reads a block into `block` and checks it, if a digest is named for it.
fn look<S: BlockStore, A: Allocator>(
    tree: &mut Tree<A>,
    store: &mut S,
    number: u64,
    named: Option<Digest>,
    block: &mut [u8],
) -> Finding
    requires within { number < length (S.content store.old) }
    requires sized { length block.old ≡ S.size store.old }
    ensures judged { (failed : Bool) × (result ≡ judged tree.old named failed block.new)
        × (failed ≡ true → S.failures store.old < S.failures store.new) }
    ensures gave { IsChecked result → (mark : ℕ) → mark ≤ length (S.given store.old) → GaveSince (S.given store.new) mark number block.new }
    ensures own { GivesOwn S.BlockStore store.old store.new }
    ensures counted { S.reads store.new + unchecked_one result ≡ S.reads store.old + 1 }
    ensures keeps { IsOnlyRead S.BlockStore store.old store.new }
    ensures same { tree.new ≡ tree.old }
{
    let Some(digest) = named else {
        return Finding::Unchecked;
    };
    if store.read(number, block).is_err() {
        return Finding::Unread;
    }
    if tree.matches(block, &digest) {
        Finding::Good
    } else {
        Finding::Bad
    }
}

/// Looks at the next block of a level, and keeps it.
fn visit<H: BlockStore, A: Allocator>(
    tree: &mut Tree<A>,
    hash_store: &mut H,
    hash_block: &mut [u8],
    level: usize,
    index: u64,
    rows: &mut [Row<A>],
    unchecked: &mut u64,
) -> Result<(), AllocError>
    requires allowed { IsTable tree.old }
    requires level { level < height tree.old }
    requires index { index < row_len tree.old (suc level) }
    requires store { IsHashStoreOf H.BlockStore tree.old hash_store.old }
    requires block { length hash_block.old ≡ tree.old.hash_block_size }
    requires rows { AreRows tree.old rows.old }
    requires next { seen_in rows.old (suc level) ≡ index }
    requires parent { suc level < height tree.old → seen_in rows.old (suc (suc level)) ≡ suc (index / branching tree.old) }
    requires room { unchecked.old < 2 ^ 63 }
    ensures rows { OnOk result (AreRows tree.old rows.new) }
    ensures here { OnOk result (seen_in rows.new (suc level) ≡ suc index) }
    ensures others { OnOk result ((r : ℕ) → (r ≡ suc level → ⊥) → seen_in rows.new r ≡ seen_in rows.old r) }
    ensures found { (mark : ℕ) → mark ≤ length (H.given hash_store.old) → (gave : List (ℕ × List ℕ)) (base other : ℕ)
        → IsSoFar tree.old (listed_in tree.old gave (drop mark (H.given hash_store.old))) rows.old unchecked.old
        base (other + H.failures hash_store.old)
        → OnOk result (IsSoFar tree.old (listed_in tree.old gave (drop mark (H.given hash_store.new))) rows.new unchecked.new
        base (other + H.failures hash_store.new)) }
    ensures own { GivesOwn H.BlockStore hash_store.old hash_store.new }
    ensures counted { OnOk result (unchecked.new + H.reads hash_store.new ≡ unchecked.old + H.reads hash_store.old + 1) }
    ensures added { OnOk result (places tree.old rows.new ≡ places tree.old rows.old + 1) }
    ensures keeps { IsOnlyRead H.BlockStore hash_store.old hash_store.new }
    ensures same { tree.new ≡ tree.old }
{
    let named = name_of(tree, level + 1, index, rows);
    let number = tree.hash_place(level, index);
    let finding = look(tree, hash_store, number, named, hash_block);
    let place = Place::Hash { level, index };
    note_block(rows, level + 1, hash_block, finding, place, unchecked)
}

/// Looks at the block of a level above data block `n`, if it wasn't looked at.
fn step_down<H: BlockStore, A: Allocator>(
    tree: &mut Tree<A>,
    hash_store: &mut H,
    hash_block: &mut [u8],
    n: u64,
    level: usize,
    rows: &mut [Row<A>],
    unchecked: &mut u64,
) -> Result<(), AllocError>
    requires allowed { IsTable tree.old }
    requires within { n < tree.old.data_blocks }
    requires level { level < height tree.old }
    requires store { IsHashStoreOf H.BlockStore tree.old hash_store.old }
    requires block { length hash_block.old ≡ tree.old.hash_block_size }
    requires rows { AreRows tree.old rows.old }
    requires down { IsDownTo tree.old n (suc level) rows.old }
    requires room { unchecked.old < 2 ^ 63 }
    ensures rows { OnOk result (AreRows tree.old rows.new) }
    ensures down { OnOk result (IsDownTo tree.old n level rows.new) }
    ensures found { (mark : ℕ) → mark ≤ length (H.given hash_store.old) → (gave : List (ℕ × List ℕ)) (base other : ℕ)
        → IsSoFar tree.old (listed_in tree.old gave (drop mark (H.given hash_store.old))) rows.old unchecked.old
        base (other + H.failures hash_store.old)
        → OnOk result (IsSoFar tree.old (listed_in tree.old gave (drop mark (H.given hash_store.new))) rows.new unchecked.new
        base (other + H.failures hash_store.new)) }
    ensures own { GivesOwn H.BlockStore hash_store.old hash_store.new }
    ensures counted { OnOk result (unchecked.new + H.reads hash_store.new + places tree.old rows.old
        ≡ unchecked.old + H.reads hash_store.old + places tree.old rows.new) }
    ensures most { OnOk result (unchecked.new ≤ unchecked.old + 1) }
    ensures keeps { IsOnlyRead H.BlockStore hash_store.old hash_store.new }
    ensures same { tree.new ≡ tree.old }
{
    let index = tree.above(level, n);
    if seen_of(rows, level + 1) != index {
        return Ok(());
    }
    visit(tree, hash_store, hash_block, level, index, rows, unchecked)
}

/// Looks at the hash blocks above data block `n` that weren't looked at, from the top down.
pub(crate) fn go_down<H: BlockStore, A: Allocator>(
    tree: &mut Tree<A>,
    hash_store: &mut H,
    hash_block: &mut [u8],
    n: u64,
    rows: &mut [Row<A>],
    unchecked: &mut u64,
) -> Result<(), AllocError>
    requires allowed { IsTable tree.old }
    requires within { n < tree.old.data_blocks }
    requires store { IsHashStoreOf H.BlockStore tree.old hash_store.old }
    requires block { length hash_block.old ≡ tree.old.hash_block_size }
    requires rows { AreRows tree.old rows.old }
    requires before { AreSeenTo tree.old n rows.old }
    requires room { unchecked.old ≤ 2 ^ 61 }
    ensures rows { OnOk result (AreRows tree.old rows.new) }
    ensures path { OnOk result (IsDownTo tree.old n 0 rows.new) }
    ensures found { (mark : ℕ) → mark ≤ length (H.given hash_store.old) → (gave : List (ℕ × List ℕ)) (base other : ℕ)
        → IsSoFar tree.old (listed_in tree.old gave (drop mark (H.given hash_store.old))) rows.old unchecked.old
        base (other + H.failures hash_store.old)
        → OnOk result (IsSoFar tree.old (listed_in tree.old gave (drop mark (H.given hash_store.new))) rows.new unchecked.new
        base (other + H.failures hash_store.new)) }
    ensures own { GivesOwn H.BlockStore hash_store.old hash_store.new }
    ensures counted { OnOk result (unchecked.new + H.reads hash_store.new + places tree.old rows.old
        ≡ unchecked.old + H.reads hash_store.old + places tree.old rows.new) }
    ensures most { OnOk result (unchecked.new ≤ unchecked.old + 14) }
    ensures keeps { IsOnlyRead H.BlockStore hash_store.old hash_store.new }
    ensures same { tree.new ≡ tree.old }
{
    let mut level = tree.levels();
    while level > 0 {
        level -= 1;
        step_down(tree, hash_store, hash_block, n, level, rows, unchecked)?;
    }
    Ok(())
}
