//! Levels that are moved to where a tree of another count has them. Where the count rises, level 0 is moved first, and
//! where it falls, the top level, so that no run is moved over one that is still to be moved.
ghost use Rattle.std.specs.Prelude.{◌≡◌, ◌+◌, ◌^◌, ◌<◌, ◌≤◌, true, length, OnOk};
ghost use Rattle.verity_geometry.specs.Geometry.{total_of};
ghost use Rattle.verity_geometry.specs.Laws.{Grows};
ghost use Rattle.verity_store.specs.Moves.{IsMoved, ChangesWithin};
ghost use Rattle.verity_store.specs.Stores.{StaysStore, TellsFailure};
ghost use Rattle.verity_plan.specs.Levels.{LevelsMoved, BothMoved, KeepsFront, moved_blocks};

use crate::StoreFailed;
use verity_geometry::Geometry;
use verity_store::{BlockStore, move_run};

/// Moves the levels of a tree to where a tree of a greater count has them, level 0 first.
pub fn move_apart<H: BlockStore>(
    hash_store: &mut H,
    first: u64,
    old: &Geometry,
    new: &Geometry,
    block: &mut [u8],
) -> Result<(), StoreFailed>
    requires grown { Grows old.now new.now }
    requires first { first ≤ 2 ^ 40 }
    requires room { first + total_of new.now ≤ length (H.content hash_store.old) }
    requires old_room { first + total_of old.now ≤ length (H.content hash_store.old) }
    requires sized { length block.old ≡ H.size hash_store.old }
    ensures moved { OnOk result (H.tells hash_store.old ≡ true
        → LevelsMoved first old.now old.now new.now (H.content hash_store.old) (H.content hash_store.new)) }
    ensures front { KeepsFront first (H.content hash_store.old) (H.content hash_store.new) }
    ensures len { length (H.content hash_store.new) ≡ length (H.content hash_store.old) }
    ensures moved_reads { H.reads hash_store.new ≤ H.reads hash_store.old + moved_blocks old.now new.now }
    ensures fails { TellsFailure result (H.failures hash_store.old) (H.failures hash_store.new) }
    ensures store { StaysStore H.BlockStore hash_store.old hash_store.new }
{
    for level in 0..old.levels() {
        move_level(
            hash_store,
            first + old.level_start(level),
            first + new.level_start(level),
            old.level_len(level),
            block,
        )?;
    }
    Ok(())
}

/// Moves a run, where it doesn't stand there already.
fn move_level<H: BlockStore>(
    hash_store: &mut H,
    from: u64,
    to: u64,
    count: u64,
    block: &mut [u8],
) -> Result<(), StoreFailed>
    requires from { from + count ≤ length (H.content hash_store.old) }
    requires to { to + count ≤ length (H.content hash_store.old) }
    requires sized { length block.old ≡ H.size hash_store.old }
    ensures moved { OnOk result (H.tells hash_store.old ≡ true
        → IsMoved from to count (H.content hash_store.old) (H.content hash_store.new)) }
    ensures others { ChangesWithin to count (H.content hash_store.old) (H.content hash_store.new) }
    ensures stays { from ≡ to → H.reads hash_store.new ≡ H.reads hash_store.old }
    ensures moved_reads { H.reads hash_store.new ≤ H.reads hash_store.old + count }
    ensures fails { TellsFailure result (H.failures hash_store.old) (H.failures hash_store.new) }
    ensures store { StaysStore H.BlockStore hash_store.old hash_store.new }
{
    if from == to {
        return Ok(());
    }
    Ok(move_run(hash_store, from, to, count, block)?)
}

/// Moves the levels that a tree of a smaller count has to where it has them, the top one first.
pub fn move_together<H: BlockStore>(
    hash_store: &mut H,
    first: u64,
    old: &Geometry,
    new: &Geometry,
    block: &mut [u8],
) -> Result<(), StoreFailed>
    requires grown { Grows new.now old.now }
    requires first { first ≤ 2 ^ 40 }
    requires room { first + total_of old.now ≤ length (H.content hash_store.old) }
    requires new_room { first + total_of new.now ≤ length (H.content hash_store.old) }
    requires sized { length block.old ≡ H.size hash_store.old }
    ensures moved { OnOk result (H.tells hash_store.old ≡ true
        → LevelsMoved first new.now old.now new.now (H.content hash_store.old) (H.content hash_store.new)) }
    ensures front { KeepsFront first (H.content hash_store.old) (H.content hash_store.new) }
    ensures len { length (H.content hash_store.new) ≡ length (H.content hash_store.old) }
    ensures stays { new.now ≡ old.now → H.reads hash_store.new ≡ H.reads hash_store.old }
    ensures moved_reads { H.reads hash_store.new ≤ H.reads hash_store.old + moved_blocks old.now new.now }
    ensures fails { TellsFailure result (H.failures hash_store.old) (H.failures hash_store.new) }
    ensures store { StaysStore H.BlockStore hash_store.old hash_store.new }
{
    let mut left = new.levels();
    while left > 0 {
        left -= 1;
        move_level(
            hash_store,
            first + old.level_start(left),
            first + new.level_start(left),
            new.level_len(left),
            block,
        )?;
    }
    Ok(())
}

/// Gives a store the length for the new tree, and moves the levels that both trees have to where the new one has them.
pub fn move_tree<H: BlockStore>(
    hash_store: &mut H,
    first: u64,
    old: &Geometry,
    new: &Geometry,
    block: &mut [u8],
) -> Result<(), StoreFailed>
    requires hash_size { new.now.hash_size ≡ old.now.hash_size }
    requires digest_size { new.now.digest_size ≡ old.now.digest_size }
    requires first { first ≤ 2 ^ 40 }
    requires room { first + total_of old.now ≤ length (H.content hash_store.old) }
    requires reserved { first + total_of new.now ≤ H.room hash_store.old }
    requires sized { length block.old ≡ H.size hash_store.old }
    ensures moved { OnOk result (H.tells hash_store.old ≡ true
        → BothMoved first old.now new.now (H.content hash_store.old) (H.content hash_store.new)) }
    ensures front { KeepsFront first (H.content hash_store.old) (H.content hash_store.new) }
    ensures len { OnOk result (length (H.content hash_store.new) ≡ first + total_of new.now) }
    ensures stays { new.now ≡ old.now → H.reads hash_store.new ≡ H.reads hash_store.old }
    ensures moved_reads { H.reads hash_store.new ≤ H.reads hash_store.old + moved_blocks old.now new.now }
    ensures fails { TellsFailure result (H.failures hash_store.old) (H.failures hash_store.new) }
    ensures store { StaysStore H.BlockStore hash_store.old hash_store.new }
{
    let _old_levels = old.levels();
    let _new_levels = new.levels();
    let blocks = first + new.total();
    if old.blocks() < new.blocks() {
        grow_tree(hash_store, first, blocks, old, new, block)
    } else {
        cut_tree(hash_store, first, blocks, old, new, block)
    }
}

fn grow_tree<H: BlockStore>(
    hash_store: &mut H,
    first: u64,
    blocks: u64,
    old: &Geometry,
    new: &Geometry,
    block: &mut [u8],
) -> Result<(), StoreFailed>
    requires grown { Grows old.now new.now }
    requires blocks { blocks ≡ first + total_of new.now }
    requires few { blocks ≤ 2 ^ 41 }
    requires first { first ≤ 2 ^ 40 }
    requires room { first + total_of old.now ≤ length (H.content hash_store.old) }
    requires old_fits { first + total_of old.now ≤ blocks }
    requires reserved { blocks ≤ H.room hash_store.old }
    requires sized { length block.old ≡ H.size hash_store.old }
    ensures moved { OnOk result (H.tells hash_store.old ≡ true
        → BothMoved first old.now new.now (H.content hash_store.old) (H.content hash_store.new)) }
    ensures front { KeepsFront first (H.content hash_store.old) (H.content hash_store.new) }
    ensures len { OnOk result (length (H.content hash_store.new) ≡ blocks) }
    ensures moved_reads { H.reads hash_store.new ≤ H.reads hash_store.old + moved_blocks old.now new.now }
    ensures fails { TellsFailure result (H.failures hash_store.old) (H.failures hash_store.new) }
    ensures store { StaysStore H.BlockStore hash_store.old hash_store.new }
{
    hash_store.set_len(blocks)?;
    move_apart(hash_store, first, old, new, block)
}

fn cut_tree<H: BlockStore>(
    hash_store: &mut H,
    first: u64,
    blocks: u64,
    old: &Geometry,
    new: &Geometry,
    block: &mut [u8],
) -> Result<(), StoreFailed>
    requires grown { Grows new.now old.now }
    requires blocks { blocks ≡ first + total_of new.now }
    requires few { blocks ≤ 2 ^ 41 }
    requires first { first ≤ 2 ^ 40 }
    requires room { first + total_of old.now ≤ length (H.content hash_store.old) }
    requires new_fits { blocks ≤ first + total_of old.now }
    requires reserved { blocks ≤ H.room hash_store.old }
    requires sized { length block.old ≡ H.size hash_store.old }
    ensures moved { OnOk result (H.tells hash_store.old ≡ true
        → BothMoved first old.now new.now (H.content hash_store.old) (H.content hash_store.new)) }
    ensures front { KeepsFront first (H.content hash_store.old) (H.content hash_store.new) }
    ensures len { OnOk result (length (H.content hash_store.new) ≡ blocks) }
    ensures stays { new.now ≡ old.now → H.reads hash_store.new ≡ H.reads hash_store.old }
    ensures moved_reads { H.reads hash_store.new ≤ H.reads hash_store.old + moved_blocks old.now new.now }
    ensures fails { TellsFailure result (H.failures hash_store.old) (H.failures hash_store.new) }
    ensures store { StaysStore H.BlockStore hash_store.old hash_store.new }
{
    move_together(hash_store, first, old, new, block)?;
    Ok(hash_store.set_len(blocks)?)
}
