//! Builds and comparisons that are refused memory.
use crate::whole::whole;
use linked_list_allocator::LocalHeap;
use std::alloc::Global;
use std::process::Abort;
use std::test::Fail;
use test_volumes::{BuiltVolume, STEP, copy, numbered, params};
use verity_build::{BuildFault, Compared, build, compare};
use verity_digest::Digest;
use verity_store::{BlockStore, MemStore};

// With so many steps of room nothing is refused.
const ENOUGH: usize = 2000;

// A build over a heap of so many steps.
fn build_with(
    alloc: Global,
    steps: usize,
    data_store: &mut MemStore,
    hash_store: &mut MemStore,
) -> Result<Result<Digest, BuildFault>, Fail> {
    let params = params(alloc)?;
    let heap = LocalHeap::new(alloc, steps.saturating_mul(STEP))?;
    Ok(build(&heap, data_store, hash_store, &params))
}

// A comparison over a heap of so many steps.
fn compare_with(
    alloc: Global,
    steps: usize,
    data_store: &mut MemStore,
    hash_store: &mut MemStore,
) -> Result<Result<Compared, BuildFault>, Fail> {
    let params = params(alloc)?;
    let heap = LocalHeap::new(alloc, steps.saturating_mul(STEP))?;
    Ok(compare(&heap, data_store, hash_store, &params))
}

// The fewest steps of room with which a build of so many blocks is done.
fn room_for(alloc: Global, count: usize) -> Result<Option<usize>, Fail> {
    let mut data_store = numbered(alloc, count)?;
    for steps in 0..ENOUGH {
        let mut hash_store = MemStore::zeroed(alloc, 512, 0)?;
        if build_with(alloc, steps, &mut data_store, &mut hash_store)?.is_ok() {
            return Ok(Some(steps));
        }
    }
    Ok(None)
}

#[test]
fn the_count_costs_a_build_no_memory(rt: HostRuntime) -> Result<(), Fail> {
    let few = room_for(rt.alloc(), 257)?;
    let many = room_for(rt.alloc(), 4096)?;
    assert!(rt; matches!(few, Some(1..)));
    assert_eq!(rt; few, many);
    Ok(())
}

// Whether both stores hold what a volume's do.
fn are_of(volume: &BuiltVolume, data_store: &MemStore, hash_store: &MemStore) -> bool {
    data_store.bytes() == volume.data_store.bytes()
        && hash_store.bytes() == volume.hash_store.bytes()
}

// Whether a build with this room is refused, changes no store, and is done once it has memory.
fn refuses_a_build(alloc: Global, volume: &BuiltVolume, steps: usize) -> Result<bool, Fail> {
    let mut data_store = copy(alloc, &volume.data_store)?;
    let mut hash_store = numbered(alloc, 1)?;
    let before = numbered(alloc, 1)?;
    let answer = build_with(alloc, steps, &mut data_store, &mut hash_store)?;
    let stays = data_store.bytes() == volume.data_store.bytes()
        && hash_store.bytes() == before.bytes();
    let again = build_with(alloc, ENOUGH, &mut data_store, &mut hash_store)?;
    let is_built = again == Ok(volume.root) && are_of(volume, &data_store, &hash_store);
    Ok(answer == Err(BuildFault::NoMemory) && stays && is_built)
}

#[test]
fn a_build_refused_memory_changes_nothing(rt: HostRuntime) -> Result<(), Fail> {
    let room = room_for(rt.alloc(), 17)?.unwrap_or(0);
    assert!(rt; room > 0);
    let volume = whole(&rt, rt.alloc())?;
    for steps in 0..room {
        assert!(rt; refuses_a_build(rt.alloc(), &volume, steps)?, "{steps}");
    }
    Ok(())
}

// Whether a build into a store whose own heap has these bytes is refused and leaves the store.
fn refuses_room(alloc: Global, bytes: usize) -> Result<bool, Fail> {
    let heap = LocalHeap::new(alloc, bytes)?;
    let mut data_store = numbered(alloc, 17)?;
    let mut hash_store = numbered(&heap, 1)?;
    let before = numbered(alloc, 1)?;
    let params = params(alloc)?;
    let answer = build(alloc, &mut data_store, &mut hash_store, &params);
    Ok(answer == Err(BuildFault::NoMemory) && hash_store.bytes() == before.bytes())
}

// The device has four blocks; the store holds one while it asks for them.
#[test]
fn a_hash_store_without_room_stays(rt: HostRuntime) -> Result<(), Fail> {
    for bytes in [512, 1024, 1536, 2048] {
        assert!(rt; refuses_room(rt.alloc(), bytes)?, "{bytes}");
    }
    Ok(())
}

// What a comparison of the volume with this room answers, where it changes no store.
fn compared(
    alloc: Global,
    volume: &BuiltVolume,
    steps: usize,
) -> Result<Option<Result<Compared, BuildFault>>, Fail> {
    let mut data_store = copy(alloc, &volume.data_store)?;
    let mut hash_store = copy(alloc, &volume.hash_store)?;
    let answer = compare_with(alloc, steps, &mut data_store, &mut hash_store)?;
    let stays = are_of(volume, &data_store, &hash_store);
    let again = compare_with(alloc, ENOUGH, &mut data_store, &mut hash_store)?;
    Ok(if stays && again == Ok(Compared::Same(volume.root)) {
        Some(answer)
    } else {
        None
    })
}

// The fewest steps of room with which a comparison is done, where with fewer it is refused memory and changes no store.
fn room_to_compare(alloc: Global, volume: &BuiltVolume) -> Result<Option<usize>, Fail> {
    for steps in 0..ENOUGH {
        let answer = compared(alloc, volume, steps)?;
        if answer == Some(Ok(Compared::Same(volume.root))) {
            return Ok(Some(steps));
        }
        if answer != Some(Err(BuildFault::NoMemory)) {
            return Ok(None);
        }
    }
    Ok(None)
}

#[test]
fn a_comparison_refused_memory_changes_nothing(rt: HostRuntime) -> Result<(), Fail> {
    let volume = whole(&rt, rt.alloc())?;
    let room = room_to_compare(rt.alloc(), &volume)?;
    assert!(rt; matches!(room, Some(1..)));
    Ok(())
}
