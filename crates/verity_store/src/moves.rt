//! Runs of blocks that are moved within a store.
ghost use Rattle.std.specs.Prelude.{◌≡◌, ◌≢◌, ℕ, ◌+◌, ◌-◌, ◌^◌, ◌<◌, ◌≤◌, true, List, [], length, slice_index_or, OnOk, OnErr, IfErr};
ghost use Rattle.verity_store.specs.Given.{GoesOn};
ghost use Rattle.verity_store.specs.Moves.{IsMoved, ChangesWithin};

use crate::{BlockStore, StoreFault};

// Copies block `from` to block `to`.
fn move_block<S: BlockStore>(
    store: &mut S,
    from: u64,
    to: u64,
    buf: &mut [u8],
) -> Result<(), StoreFault>
    requires from { from < length (S.content store.old) }
    requires to { to < length (S.content store.old) }
    requires sized { length buf.old ≡ S.size store.old }
    ensures moved { OnOk result (S.tells store.old ≡ true → IsMoved from to 1 (S.content store.old) (S.content store.new)) }
    ensures others { ChangesWithin to 1 (S.content store.old) (S.content store.new) }
    ensures error { IfErr result (λ e. e ≡ StoreFault.Device) }
    ensures failed { OnErr result (S.failures store.old < S.failures store.new) }
    ensures unfailed { OnOk result (S.failures store.new ≡ S.failures store.old) }
    ensures failures { S.failures store.old ≤ S.failures store.new }
    ensures reads { S.reads store.new ≡ S.reads store.old + 1 }
    ensures changes { S.changes store.old ≤ S.changes store.new }
    ensures tells { S.tells store.new ≡ S.tells store.old }
    ensures size { S.size store.new ≡ S.size store.old }
    ensures fixed { S.fixed store.new ≡ S.fixed store.old }
    ensures room { S.room store.new ≡ S.room store.old }
    ensures gave { GoesOn (S.given store.old) (S.given store.new) }
{
    store.read(from, buf)?;
    store.write(to, buf)
}

// Moves a run toward the front, the first block first, so that no block is overwritten before it is read.
fn move_down<S: BlockStore>(
    store: &mut S,
    from: u64,
    to: u64,
    count: u64,
    buf: &mut [u8],
) -> Result<(), StoreFault>
    requires from { from + count ≤ length (S.content store.old) }
    requires to { to + count ≤ length (S.content store.old) }
    requires sized { length buf.old ≡ S.size store.old }
    requires down { to < from }
    requires fits { from + count < 2 ^ 64 }
    ensures moved { OnOk result (S.tells store.old ≡ true → IsMoved from to count (S.content store.old) (S.content store.new)) }
    ensures others { ChangesWithin to count (S.content store.old) (S.content store.new) }
    ensures error { IfErr result (λ e. e ≡ StoreFault.Device) }
    ensures failed { OnErr result (S.failures store.old < S.failures store.new) }
    ensures unfailed { OnOk result (S.failures store.new ≡ S.failures store.old) }
    ensures failures { S.failures store.old ≤ S.failures store.new }
    ensures reads { S.reads store.new ≤ S.reads store.old + count }
    ensures changes { S.changes store.old ≤ S.changes store.new }
    ensures tells { S.tells store.new ≡ S.tells store.old }
    ensures size { S.size store.new ≡ S.size store.old }
    ensures fixed { S.fixed store.new ≡ S.fixed store.old }
    ensures room { S.room store.new ≡ S.room store.old }
    ensures gave { GoesOn (S.given store.old) (S.given store.new) }
{
    for i in 0..count {
        move_block(store, from + i, to + i, buf)?;
    }
    Ok(())
}

// Moves a run toward the end, the last block first, so that no block is overwritten before it is read.
fn move_up<S: BlockStore>(
    store: &mut S,
    from: u64,
    to: u64,
    count: u64,
    buf: &mut [u8],
) -> Result<(), StoreFault>
    requires from { from + count ≤ length (S.content store.old) }
    requires to { to + count ≤ length (S.content store.old) }
    requires sized { length buf.old ≡ S.size store.old }
    requires up { from ≤ to }
    requires fits { to + count < 2 ^ 64 }
    ensures moved { OnOk result (S.tells store.old ≡ true → IsMoved from to count (S.content store.old) (S.content store.new)) }
    ensures others { ChangesWithin to count (S.content store.old) (S.content store.new) }
    ensures error { IfErr result (λ e. e ≡ StoreFault.Device) }
    ensures failed { OnErr result (S.failures store.old < S.failures store.new) }
    ensures unfailed { OnOk result (S.failures store.new ≡ S.failures store.old) }
    ensures failures { S.failures store.old ≤ S.failures store.new }
    ensures reads { S.reads store.new ≤ S.reads store.old + count }
    ensures changes { S.changes store.old ≤ S.changes store.new }
    ensures tells { S.tells store.new ≡ S.tells store.old }
    ensures size { S.size store.new ≡ S.size store.old }
    ensures fixed { S.fixed store.new ≡ S.fixed store.old }
    ensures room { S.room store.new ≡ S.room store.old }
    ensures gave { GoesOn (S.given store.old) (S.given store.new) }
{
    let mut left = count;
    while left > 0 {
        left -= 1;
        move_block(store, from + left, to + left, buf)?;
    }
    Ok(())
}

/// Moves the `count` blocks from block `from` on to the places from block `to` on. The two runs may overlap.
///
/// Where the store tells, the blocks from `to` on are then the old ones from `from` on. No block outside the run at `to`
/// changes. `buf` has the bytes of a block, and holds any after the call. It reads and writes at most `count` blocks, one
/// after the other, and takes no memory.
///
/// S1 where a read or a write failed; then only blocks of the run at `to` may have changed.
pub fn move_run<S: BlockStore>(
    store: &mut S,
    from: u64,
    to: u64,
    count: u64,
    buf: &mut [u8],
) -> Result<(), StoreFault>
    requires from { from + count ≤ length (S.content store.old) }
    requires to { to + count ≤ length (S.content store.old) }
    requires sized { length buf.old ≡ S.size store.old }
    ensures moved { OnOk result (S.tells store.old ≡ true → IsMoved from to count (S.content store.old) (S.content store.new)) }
    ensures others { ChangesWithin to count (S.content store.old) (S.content store.new) }
    ensures error { IfErr result (λ e. e ≡ StoreFault.Device) }
    ensures failed { OnErr result (S.failures store.old < S.failures store.new) }
    ensures unfailed { OnOk result (S.failures store.new ≡ S.failures store.old) }
    ensures failures { S.failures store.old ≤ S.failures store.new }
    ensures reads { S.reads store.new ≤ S.reads store.old + count }
    ensures changes { S.changes store.old ≤ S.changes store.new }
    ensures tells { S.tells store.new ≡ S.tells store.old }
    ensures size { S.size store.new ≡ S.size store.old }
    ensures fixed { S.fixed store.new ≡ S.fixed store.old }
    ensures room { S.room store.new ≡ S.room store.old }
    ensures gave { GoesOn (S.given store.old) (S.given store.new) }
{
    let _len = store.len();
    if to < from {
        move_down(store, from, to, count, buf)
    } else {
        move_up(store, from, to, count, buf)
    }
}
