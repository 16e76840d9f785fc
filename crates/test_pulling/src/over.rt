//! Pulls over the volume of an old line.
use linked_list_allocator::LocalHeap;
use std::alloc::Global;
use std::process::Abort;
use std::test::Fail;
use test_stores::FailStore;
use test_volumes::{BuiltVolume, STEP, copy, flip, make_volume, numbered, table};
use verity_chain::{Place, Tree, geometry_of};
use verity_digest::Digest;
use verity_pull::{PullFault, PulledOver, Role, pull, pull_over};
use verity_store::MemStore;

// No byte is there.
const NOWHERE: usize = 1_000_000_000;

// A pull of a volume over an old one. Each data block is filled with its number; those that differ have a bit flipped.
#[derive(Clone, Copy)]
struct Case {
    // How many data blocks the volume has.
    blocks: usize,
    // The data blocks that differ, from one on to before another.
    differ: (usize, usize),
    // The byte of the local data of which a bit is flipped, if it is there; of the local hash device; of the source's stores.
    flipped: [usize; 4],
    // Which call of a store fails.
    failing: [u64; 4],
    // The bytes of the heap from which a pull has its memory.
    room: usize,
}

fn changed(blocks: usize, from: usize, upto: usize) -> Case {
    Case {
        blocks,
        differ: (from, upto),
        flipped: [NOWHERE; 4],
        failing: [0; 4],
        room: 65536,
    }
}

// What comes of a pull.
#[derive(Clone, Copy, Debug, PartialEq, Eq)]
enum Outcome {
    NoTable,
    // It left the local stores as they were.
    Untouched(PullFault),
    // The local stores hold the new volume: so many data blocks were fetched, so many looked at, so many hash blocks fetched.
    Pulled(u64, u64, u64),
    // They hold it but for the block that had rotten, and a pull without the old line made them hold it.
    Rotten(u64, u64, u64),
    // It stopped with this fault; a second one over the same line, from a right source, made them hold it.
    Stopped(PullFault),
    Wrong,
}

#[derive(Drop)]
struct Pair {
    data: FailStore<MemStore>,
    hash: FailStore<MemStore>,
}

fn make_pair(
    alloc: Global,
    volume: &BuiltVolume,
    flipped: (usize, usize),
    failing: (u64, u64),
) -> Result<Pair, Fail> {
    let mut data = volume.data_store.bytes().to_vec(alloc)?;
    let mut hash = volume.hash_store.bytes().to_vec(alloc)?;
    flip(&mut data, flipped.0);
    flip(&mut hash, flipped.1);
    Ok(Pair {
        data: FailStore::at(MemStore::new(data, 512)?, failing.0),
        hash: FailStore::at(MemStore::new(hash, 512)?, failing.1),
    })
}

fn holds(stores: &Pair, volume: &BuiltVolume) -> bool {
    stores.data.store().bytes() == volume.data_store.bytes()
        && stores.hash.store().bytes() == volume.hash_store.bytes()
}

// A pull over the line with this root hash; None where its table line finds no room.
fn over(
    heap: &LocalHeap,
    blocks: u64,
    volume: &BuiltVolume,
    old_root: Digest,
    local: &mut Pair,
    source: &mut Pair,
) -> Option<Result<PulledOver, PullFault>> {
    let line = table(heap, blocks, volume.root).ok()?;
    let geometry = geometry_of(&line);
    let mut tree = Tree::new(heap, line, geometry).ok()?;
    let superblock = volume.hash_store.bytes().chunks(512).next()?;
    if superblock.len() != tree.table().hash_block_size() {
        return None;
    }
    Some(pull_over(
        heap,
        &mut tree,
        old_root,
        superblock,
        &mut local.data,
        &mut local.hash,
        &mut source.data,
        &mut source.hash,
    ))
}

// A pull without the old line comes to its end.
fn plain(
    alloc: Global,
    blocks: u64,
    volume: &BuiltVolume,
    local: &mut Pair,
    source: &mut Pair,
) -> bool {
    let Ok(heap) = LocalHeap::new(alloc, 65536) else {
        return false;
    };
    let Ok(line) = table(&heap, blocks, volume.root) else {
        return false;
    };
    let geometry = geometry_of(&line);
    let Ok(mut tree) = Tree::new(&heap, line, geometry) else {
        return false;
    };
    let Some(superblock) = volume.hash_store.bytes().chunks(512).next() else {
        return false;
    };
    if superblock.len() != tree.table().hash_block_size() {
        return false;
    }
    let done = pull(
        &heap,
        &mut tree,
        superblock,
        &mut local.data,
        &mut local.hash,
        &mut source.data,
        &mut source.hash,
    );
    done.is_ok()
}

// The old volume, and the new one.
fn volumes(alloc: Global, case: Case) -> Result<(BuiltVolume, BuiltVolume), Fail> {
    let old = make_volume(alloc, numbered(alloc, case.blocks)?)?;
    let same = copy(alloc, &old.data_store)?;
    let mut bytes = same.bytes().to_vec(alloc)?;
    for n in case.differ.0..case.differ.1 {
        flip(&mut bytes, n.saturating_mul(512));
    }
    let new = make_volume(alloc, MemStore::new(bytes, 512)?)?;
    Ok((old, new))
}

// What comes of a pull of the new volume over the old one.
fn try_over(
    alloc: Global,
    case: Case,
    old: &BuiltVolume,
    new: &BuiltVolume,
) -> Result<Outcome, Fail> {
    let [data_at, hash_at, source_data_at, source_hash_at] = case.flipped;
    let [data_call, hash_call, source_data_call, source_hash_call] = case.failing;
    let blocks = case.blocks as u64;
    let heap = LocalHeap::new(alloc, case.room)?;
    let mut local = make_pair(alloc, old, (data_at, hash_at), (data_call, hash_call))?;
    let mut source = make_pair(
        alloc,
        new,
        (source_data_at, source_hash_at),
        (source_data_call, source_hash_call),
    )?;
    let mut other = make_pair(alloc, new, (NOWHERE, NOWHERE), (0, 0))?;
    let fault = match over(&heap, blocks, new, old.root, &mut local, &mut source) {
        None => return Ok(Outcome::NoTable),
        Some(Ok(done)) if done.fetched.saturating_add(done.kept) != blocks => {
            return Ok(Outcome::Wrong);
        }
        Some(Ok(done)) if holds(&local, new) => {
            return Ok(Outcome::Pulled(done.fetched, done.read, done.hash_blocks));
        }
        Some(Ok(done)) if plain(alloc, blocks, new, &mut local, &mut other) && holds(&local, new) =>
            {
                return Ok(Outcome::Rotten(done.fetched, done.read, done.hash_blocks));
            }
        Some(Ok(_)) => return Ok(Outcome::Wrong),
        Some(Err(fault)) => fault,
    };
    if matches!(fault, PullFault::NoMemory | PullFault::Unsuited(_)) {
        return Ok(if holds(&local, old) {
            Outcome::Untouched(fault)
        } else {
            Outcome::Wrong
        });
    }
    let again = over(&heap, blocks, new, old.root, &mut local, &mut other);
    Ok(match again {
        Some(Ok(_)) if holds(&local, new) => Outcome::Stopped(fault),
        _ => Outcome::Wrong,
    })
}

// .. of this case.
fn outcome_of(alloc: Global, case: Case) -> Result<Outcome, Fail> {
    let (old, new) = volumes(alloc, case)?;
    try_over(alloc, case, &old, &new)
}

// A hash block has room for 16 digests. The hash blocks above what differs are fetched, and nothing else is looked at.
#[test]
fn only_what_differs_is_touched(rt: HostRuntime) -> Result<(), Fail> {
    for (blocks, from, upto, hash_blocks) in [
        (1usize, 0usize, 0usize, 0u64),
        (1, 0, 1, 0),
        (2, 0, 0, 0),
        (2, 1, 2, 1),
        (16, 15, 16, 1),
        (17, 16, 17, 2),
        (17, 15, 17, 3),
        (256, 0, 1, 2),
        (257, 256, 257, 3),
        (300, 0, 0, 0),
        (300, 17, 18, 3),
        (300, 255, 257, 5),
        (300, 0, 300, 22),
    ] {
        let fetched = upto.saturating_sub(from) as u64;
        assert_eq!(rt;
            outcome_of(rt.alloc(), changed(blocks, from, upto))?,
            Outcome::Pulled(fetched, 0, hash_blocks),
            "{blocks} {from} {upto}"
        );
    }
    Ok(())
}

// Below a local hash block that isn't the old tree's, or can't be read, all is looked at: 16 blocks below one of level 0, 256 below one
// of level 1. One that isn't looked at may be anything.
#[test]
fn below_a_rotten_hash_block_all_is_looked_at(rt: HostRuntime) -> Result<(), Fail> {
    for (hash_block, fetched, read, hash_blocks) in [
        (1usize, 1, 300, 22),
        (2, 1, 256, 18),
        (4, 1, 0, 3),
        (5, 1, 16, 3),
    ] {
        let rotten = Case {
            flipped: [NOWHERE, hash_block.saturating_mul(512), NOWHERE, NOWHERE],
            ..changed(300, 17, 18)
        };
        let wanted = if hash_block == 4 {
            Outcome::Rotten(fetched, read, hash_blocks)
        } else {
            Outcome::Pulled(fetched, read, hash_blocks)
        };
        assert_eq!(rt; outcome_of(rt.alloc(), rotten)?, wanted, "{hash_block}");
    }
    Ok(())
}

// A rotten data block: unread where both lines name it alike, or where it is fetched anyhow.
#[test]
fn a_rotten_data_block_that_is_kept_stays(rt: HostRuntime) -> Result<(), Fail> {
    for (n, is_kept) in [(16usize, true), (17, false), (200, true)] {
        let rotten = Case {
            flipped: [n.saturating_mul(512), NOWHERE, NOWHERE, NOWHERE],
            ..changed(300, 17, 18)
        };
        let wanted = if is_kept {
            Outcome::Rotten(1, 0, 3)
        } else {
            Outcome::Pulled(1, 0, 3)
        };
        assert_eq!(rt; outcome_of(rt.alloc(), rotten)?, wanted, "{n}");
    }
    Ok(())
}

// A wrong block of the source that is fetched is named, one that isn't isn't read.
#[test]
fn lies_are_found_at_each_level(rt: HostRuntime) -> Result<(), Fail> {
    for (data_at, hash_at, wanted) in [
        (17usize, NOWHERE, Some(Place::Data(17))),
        (18, NOWHERE, None),
        (NOWHERE, 1usize, Some(Place::Hash { level: 2, index: 0 })),
        (NOWHERE, 2, Some(Place::Hash { level: 1, index: 0 })),
        (NOWHERE, 5, Some(Place::Hash { level: 0, index: 1 })),
        (NOWHERE, 3, None),
        (NOWHERE, 4, None),
    ] {
        let lie = Case {
            flipped: [
                NOWHERE,
                NOWHERE,
                data_at.saturating_mul(512),
                hash_at.saturating_mul(512),
            ],
            ..changed(300, 17, 18)
        };
        let outcome = outcome_of(rt.alloc(), lie)?;
        let wanted = match wanted {
            Some(place) => Outcome::Stopped(PullFault::Wrong(place)),
            None => Outcome::Pulled(1, 0, 3),
        };
        assert_eq!(rt; outcome, wanted, "{data_at} {hash_at}");
    }
    Ok(())
}

// How many pulls stop with this store's fault, how many come to an end, where its calls 1 to `calls` fail in turn; after a stop the same
// call over the same old line makes the volume.
fn tally(
    alloc: Global,
    from: usize,
    upto: usize,
    role: Role,
    calls: u64,
) -> Result<Option<(u64, u64)>, Fail> {
    let (mut stopped, mut pulled) = (0u64, 0u64);
    let (old, new) = volumes(alloc, changed(300, from, upto))?;
    for call in 0..calls {
        let at = call + 1;
        let failing = match role {
            Role::LocalData => [at, 0, 0, 0],
            Role::LocalHash => [0, at, 0, 0],
            Role::SourceData => [0, 0, at, 0],
            Role::SourceHash => [0, 0, 0, at],
        };
        let case = Case {
            failing,
            ..changed(300, from, upto)
        };
        match try_over(alloc, case, &old, &new)? {
            Outcome::Stopped(fault) if fault == PullFault::Store(role) => {
                stopped = stopped.saturating_add(1);
            }
            Outcome::Pulled(..) => pulled = pulled.saturating_add(1),
            _ => return Ok(None),
        }
    }
    Ok(Some((stopped, pulled)))
}

// The data store: its length, two blocks written, a sync. The hash store: its length, the superblock, three blocks read and written, a
// sync; a read that fails stops nothing.
#[test]
fn a_pull_that_was_cut_short_goes_on(rt: HostRuntime) -> Result<(), Fail> {
    let alloc = rt.alloc();
    assert_eq!(rt; tally(alloc, 17, 19, Role::LocalData, 5)?, Some((4, 1)));
    assert_eq!(rt; tally(alloc, 17, 19, Role::LocalHash, 10)?, Some((6, 4)));
    assert_eq!(rt; tally(alloc, 17, 19, Role::SourceData, 3)?, Some((2, 1)));
    assert_eq!(rt; tally(alloc, 17, 19, Role::SourceHash, 4)?, Some((3, 1)));
    Ok(())
}

// What comes of pulls with one step more memory each, each outcome once.
#[test]
fn a_pull_refused_memory_changes_nothing(rt: HostRuntime) -> Result<(), Fail> {
    let mut count = 0usize;
    let mut last = Outcome::Wrong;
    let alloc = rt.alloc();
    let (old, new) = volumes(alloc, changed(17, 16, 17))?;
    for steps in 0..500usize {
        let case = Case {
            room: steps.saturating_mul(STEP),
            ..changed(17, 16, 17)
        };
        let next = try_over(alloc, case, &old, &new)?;
        if next != last {
            count = count.saturating_add(1);
            let wanted = match count {
                1 => Outcome::NoTable,
                2 => Outcome::Untouched(PullFault::NoMemory),
                _ => Outcome::Pulled(1, 0, 2),
            };
            assert_eq!(rt; next, wanted);
            last = next;
        }
    }
    assert_eq!(rt; count, 3);
    Ok(())
}
