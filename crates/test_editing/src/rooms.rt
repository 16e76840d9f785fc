//! The room for a commit's lists is taken before the first block is hashed or read.

use crate::editors::*;
use crate::heaps::AMPLE;
use crate::steps::Step;
use crate::volumes::{SIZE, volume_of};
use linked_list_allocator::LocalHeap;
use std::alloc::Global;
use std::test::Fail;
use verity_edit::{EditFault, Reply};

// How much more room a run has than the one before.
const STRIDE: usize = 256;

// What 17 blocks grow to: level 0 then has 256 hash blocks, of which the second has to be read.
const COUNT: u64 = 4096;

// The last reply where a volume grows to that count, and then does these steps with so much room; and the calls at the hash store.
fn calls_of(alloc: Global, room: usize, squeezed: &[Step]) -> Result<(Option<Reply>, u64), Fail> {
    let heap = LocalHeap::new(alloc, AMPLE)?;
    let work = Work {
        size: SIZE,
        kept: 2,
        before: &[Step::Grow(COUNT)],
        squeezed,
        after: &[],
    };
    let left = left_in_heap(alloc, &heap, room, volume_of(alloc, 17)?, work)?;
    Ok((left.replies.as_slice().last().copied(), left.hash_calls))
}

// How often a commit to that count called the hash store that was refused memory, with so much room. None where it is done.
fn calls_when_refused(alloc: Global, room: usize) -> Result<Option<u64>, Fail> {
    let (grown, before) = calls_of(alloc, room, &[])?;
    let (committed, calls) = calls_of(alloc, room, &[Step::Commit])?;
    match (grown, committed) {
        (Some(Reply::Done), Some(Reply::Committed(_))) => Ok(None),
        (Some(Reply::Done), Some(Reply::Refused(EditFault::NoMemory))) => {
            Ok(Some(calls.saturating_sub(before)))
        }
        (_, Some(Reply::Refused(fault))) => Err(fault.into()),
        _ => Err(Fail::from("a volume doesn't grow")),
    }
}

// The least room with which a refused commit read anything, and the least with which it is done, in strides.
fn least_rooms(alloc: Global) -> Result<(usize, usize), Fail> {
    let mut reads = usize::MAX;
    for runs in 0..256usize {
        match calls_when_refused(alloc, runs.saturating_mul(STRIDE))? {
            Some(0) => {}
            Some(_) => reads = reads.min(runs),
            None => return Ok((reads, runs)),
        }
    }
    Err(Fail::from("memory was refused at every size"))
}

#[test]
fn lists_have_their_room_before_anything_is_read(rt: HostRuntime) -> Result<(), Fail> {
    let (reads, done) = least_rooms(rt.alloc())?;
    assert!(rt; done > 32, "done with {done}");
    assert!(rt; reads > done / 2, "reads with {reads}, done with {done}");
    Ok(())
}
