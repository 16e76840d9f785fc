//! Stores that fail at one call.
use crate::whole::whole;
use std::alloc::Global;
use std::process::Abort;
use std::test::Fail;
use test_stores::FailStore;
use test_volumes::{BuiltVolume, copy, params};
use verity_build::{BuildFault, Compared, build, compare};
use verity_digest::Digest;
use verity_store::{MemStore, Which};

type Failing = FailStore<MemStore>;

// Another store of the same bytes, which fails at this call, with 0 at none.
fn failing(alloc: Global, store: &MemStore, call: u64) -> Result<Failing, Fail> {
    Ok(FailStore::at(copy(alloc, store)?, call))
}

// The bytes that a store holds.
fn held(store: &Failing) -> &[u8] {
    store.store().bytes()
}

// What came of a build whose stores fail at one call each.
#[derive(Clone, Copy)]
pub struct Built {
    pub answer: Result<Digest, BuildFault>,
    // The volume's root hash.
    root: Digest,
    // How many calls of the data store and of the hash store it made.
    calls: (u64, u64),
    // Whether the hash device is the volume's.
    is_whole: bool,
    // Whether it has the volume's length, and its first hash block of level 0.
    pub has_the_first: bool,
    // Whether the next build is done, and leaves the volume.
    is_made_again: bool,
}

// Whether two hash devices have the same length and the same first hash block of level 0.
fn have_one_first(left: &[u8], whole: &[u8]) -> bool {
    left.len() == whole.len() && left.get(1024..1536) == whole.get(1024..1536)
}

// Builds the volume over these stores, and once more.
fn build_twice(
    alloc: Global,
    volume: &BuiltVolume,
    data_store: &mut Failing,
    hash_store: &mut Failing,
) -> Result<Built, Fail> {
    let params = params(alloc)?;
    let answer = build(alloc, data_store, hash_store, &params);
    let calls = (data_store.calls(), hash_store.calls());
    let whole = volume.hash_store.bytes();
    let is_whole = held(hash_store) == whole;
    let has_the_first = have_one_first(held(hash_store), whole);
    let again = build(alloc, data_store, hash_store, &params);
    Ok(Built {
        answer,
        root: volume.root,
        calls,
        is_whole,
        has_the_first,
        is_made_again: again == Ok(volume.root) && held(hash_store) == whole,
    })
}

// Builds the volume over a data store and a hash store that fail at these calls, 0 for none.
pub fn build_failing(
    rt: &impl Abort,
    alloc: Global,
    data_call: u64,
    hash_call: u64,
) -> Result<Built, Fail> {
    let volume = whole(rt, alloc)?;
    let mut data_store = failing(alloc, &volume.data_store, data_call)?;
    let mut hash_store = failing(alloc, &MemStore::zeroed(alloc, 512, 0)?, hash_call)?;
    build_twice(alloc, &volume, &mut data_store, &mut hash_store)
}

// A read of each data block; the hash device's length, the blocks of the tree, the superblock's, the sync.
#[test]
fn a_build_makes_few_calls(rt: HostRuntime) -> Result<(), Fail> {
    let built = build_failing(&rt, rt.alloc(), 0, 0)?;
    assert_eq!(rt; (built.answer, built.calls), (Ok(built.root), (17, 6)));
    Ok(())
}

#[test]
fn a_build_names_the_data_store(rt: HostRuntime) -> Result<(), Fail> {
    for call in 1..18 {
        let built = build_failing(&rt, rt.alloc(), call, 0)?;
        let fault = BuildFault::Store(Which::Data);
        assert_eq!(rt;
            (built.answer, built.is_made_again),
            (Err(fault), true),
            "{call}"
        );
    }
    Ok(())
}

// Where the sync alone failed, all was written.
#[test]
fn a_build_names_the_hash_store(rt: HostRuntime) -> Result<(), Fail> {
    for call in 1..7 {
        let built = build_failing(&rt, rt.alloc(), 0, call)?;
        let fault = BuildFault::Store(Which::Hash);
        assert_eq!(rt;
            (built.answer, built.is_whole, built.is_made_again),
            (Err(fault), call == 6, true),
            "{call}"
        );
    }
    Ok(())
}

// What came of a comparison whose stores fail at one call each.
#[derive(Clone, Copy)]
pub struct Seen {
    pub answer: Result<Compared, BuildFault>,
    // Whether the hash device is as it was.
    stays: bool,
    // Whether the next comparison finds no difference.
    is_same: bool,
}

// Compares the volume over these stores, and once more.
fn compare_twice(
    alloc: Global,
    volume: &BuiltVolume,
    data_store: &mut Failing,
    hash_store: &mut Failing,
) -> Result<Seen, Fail> {
    let params = params(alloc)?;
    let answer = compare(alloc, data_store, hash_store, &params);
    let stays = held(hash_store) == volume.hash_store.bytes();
    let again = compare(alloc, data_store, hash_store, &params);
    Ok(Seen {
        answer,
        stays,
        is_same: again == Ok(Compared::Same(volume.root)),
    })
}

// Compares the volume over a data store and a hash store that fail at these calls, 0 for none.
pub fn compare_failing(
    rt: &impl Abort,
    alloc: Global,
    data_call: u64,
    hash_call: u64,
) -> Result<Seen, Fail> {
    let volume = whole(rt, alloc)?;
    let mut data_store = failing(alloc, &volume.data_store, data_call)?;
    let mut hash_store = failing(alloc, &volume.hash_store, hash_call)?;
    compare_twice(alloc, &volume, &mut data_store, &mut hash_store)
}

#[test]
fn a_comparison_names_the_data_store(rt: HostRuntime) -> Result<(), Fail> {
    for call in 1..18 {
        let seen = compare_failing(&rt, rt.alloc(), call, 0)?;
        let fault = BuildFault::Store(Which::Data);
        assert_eq!(rt;
            (seen.answer, seen.stays, seen.is_same),
            (Err(fault), true, true),
            "{call}"
        );
    }
    Ok(())
}

#[test]
fn a_comparison_names_the_hash_store(rt: HostRuntime) -> Result<(), Fail> {
    for call in 1..4 {
        let seen = compare_failing(&rt, rt.alloc(), 0, call)?;
        let fault = BuildFault::Store(Which::Hash);
        assert_eq!(rt;
            (seen.answer, seen.stays, seen.is_same),
            (Err(fault), true, true),
            "{call}"
        );
    }
    Ok(())
}
