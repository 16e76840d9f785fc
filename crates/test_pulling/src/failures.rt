//! StorePair that fail at each call in turn.
use crate::pulls::{Before, Case, Outcome, right, try_pull, volume_of};
use std::alloc::Global;
use std::process::Abort;
use std::test::Fail;
use verity_pull::{PullFault, Role};

// The call of this number fails of this store.
fn failing(role: Role, call: u64) -> [u64; 4] {
    match role {
        Role::LocalData => [call, 0, 0, 0],
        Role::LocalHash => [0, call, 0, 0],
        Role::SourceData => [0, 0, call, 0],
        Role::SourceHash => [0, 0, 0, call],
    }
}

// How many pulls of 17 data blocks stop with this store's fault, and how many come to an end, where this store's calls 1 to `calls` fail
// in turn.
fn tally(
    alloc: Global,
    before: Before,
    role: Role,
    calls: u64,
) -> Result<Option<(u64, u64)>, Fail> {
    let volume = volume_of(alloc, 17)?;
    let (mut stopped, mut pulled) = (0u64, 0u64);
    for call in 0..calls {
        let failing = failing(role, call + 1);
        let case = Case {
            failing,
            ..right(17, before)
        };
        match try_pull(alloc, &volume, case)? {
            Outcome::Stopped(fault) if fault == PullFault::Store(role) => {
                stopped = stopped.saturating_add(1);
            }
            Outcome::Pulled(..) => pulled = pulled.saturating_add(1),
            _ => return Ok(None),
        }
    }
    Ok(Some((stopped, pulled)))
}

// The local data store is given its length, then 17 blocks are read, and it is synced. A block that can't be read is fetched.
#[test]
fn a_local_block_that_cannot_be_read_is_fetched(rt: HostRuntime) -> Result<(), Fail> {
    let alloc = rt.alloc();
    assert_eq!(rt;
        tally(alloc, Before::Equal, Role::LocalData, 19)?,
        Some((2, 17))
    );
    let case = Case {
        failing: [9, 0, 0, 0],
        ..right(17, Before::Equal)
    };
    assert_eq!(rt;
        try_pull(alloc, &volume_of(alloc, 17)?, case)?,
        Outcome::Pulled(1, 16, 3)
    );
    Ok(())
}

// Of rubbish each block is written, too; of an empty store none is read, and block 0 isn't written.
#[test]
fn a_local_block_that_cannot_be_written_is_a_fault(rt: HostRuntime) -> Result<(), Fail> {
    let alloc = rt.alloc();
    assert_eq!(rt;
        tally(alloc, Before::Rubbish, Role::LocalData, 36)?,
        Some((19, 17))
    );
    assert_eq!(rt;
        tally(alloc, Before::Empty, Role::LocalData, 18)?,
        Some((18, 0))
    );
    Ok(())
}

// Its length, the superblock, three hash blocks, a sync; the next call is none.
#[test]
fn the_local_hash_store_fails(rt: HostRuntime) -> Result<(), Fail> {
    let alloc = rt.alloc();
    assert_eq!(rt;
        tally(alloc, Before::Empty, Role::LocalHash, 7)?,
        Some((6, 1))
    );
    Ok(())
}

// Each block that is needed is read once: 17 of rubbish, 16 behind the end, none where the volume is there; three hash blocks.
#[test]
fn the_sources_fail(rt: HostRuntime) -> Result<(), Fail> {
    let alloc = rt.alloc();
    assert_eq!(rt;
        tally(alloc, Before::Rubbish, Role::SourceData, 18)?,
        Some((17, 1))
    );
    assert_eq!(rt;
        tally(alloc, Before::Empty, Role::SourceData, 17)?,
        Some((16, 1))
    );
    assert_eq!(rt;
        tally(alloc, Before::Equal, Role::SourceData, 1)?,
        Some((0, 1))
    );
    assert_eq!(rt;
        tally(alloc, Before::Equal, Role::SourceHash, 4)?,
        Some((3, 1))
    );
    Ok(())
}
