//! Calls that are refused memory, with one step more room from run to run, until none is refused.

use crate::editors::*;
use crate::heaps::{AMPLE, copy_in};
use crate::steps::Step;
use crate::volumes::{SIZE, is_same, volume_of};
use linked_list_allocator::LocalHeap;
use std::alloc::{Allocator, Global};
use std::test::Fail;
use test_volumes::{BuiltVolume, STEP, image, make_volume};
use verity_edit::{EditFault, Reply};
use verity_store::MemStore;

// What came of opening in a heap of so many bytes.
fn open_in(alloc: Global, bytes: usize, volume: BuiltVolume) -> Result<Left<MemStore>, Fail> {
    let heap = LocalHeap::new(alloc, bytes)?;
    left_in_heap(alloc, &heap, 0, volume, steps(&[]))
}

// Whether an open was refused for memory, and gave both stores back as they were.
fn is_given_back(left: &Left<MemStore>, kept: &BuiltVolume) -> bool {
    left.opened.err() == Some(EditFault::NoMemory)
        && is_same(&left.data_store, &left.hash_store, kept)
}

// How many steps of room an open had that wasn't refused, and whether it found the volume's root hash. Each one before gave both
// stores back.
fn steps_of_an_open(alloc: Global) -> Result<(usize, bool), Fail> {
    let kept = volume_of(alloc, 17)?;
    let mut volume = volume_of(alloc, 17)?;
    for steps in 0..2000usize {
        let left = open_in(alloc, steps.saturating_mul(STEP), volume)?;
        let opened = left.opened;
        if let Ok(seen) = opened {
            return Ok((steps, seen.root == kept.root));
        }
        if !is_given_back(&left, &kept) {
            return Err(Fail::from("a refused open changes a store, or has another fault"));
        }
        volume = BuiltVolume {
            data_store: left.data_store,
            hash_store: left.hash_store,
            root: kept.root,
        };
    }
    Err(Fail::from("memory was refused at every size"))
}

#[test]
fn an_open_gives_both_stores_back(rt: HostRuntime) -> Result<(), Fail> {
    let (steps, is_right) = steps_of_an_open(rt.alloc())?;
    assert!(rt; is_right);
    assert!(rt; steps > 64, "{steps} steps");
    Ok(())
}

// A volume, and what it becomes: block 3 is filled with 0x5a, and it grows to `count` blocks.
#[derive(Drop)]
struct Case {
    old: BuiltVolume,
    new: BuiltVolume,
    count: u64,
}

fn make_case(alloc: Global, old: usize, count: usize) -> Result<Case, Fail> {
    let mut bytes = image(alloc, old)?;
    for (n, block) in bytes.chunks_mut(SIZE).enumerate() {
        if n == 3 {
            block.fill(0x5a);
        }
    }
    bytes.resize(count.saturating_mul(SIZE), 0)?;
    Ok(Case {
        old: volume_of(alloc, old)?,
        new: make_volume(alloc, MemStore::new(bytes, SIZE)?)?,
        count: count as u64,
    })
}

// A call that is refused memory.
#[derive(Clone, Copy, Debug)]
enum Call {
    Write,
    Commit,
}

// What came of a call that had so little room, and of what was then asked with ample room.
#[derive(Clone, Copy)]
struct Came {
    // Why the call was refused.
    fault: Option<EditFault>,
    // Whether all other steps were done.
    is_done: bool,
    blocks: u64,
    is_old: bool,
    is_new: bool,
}

// Why the step of this number was refused, and whether the others were done.
fn refusal_at(replies: &[Reply], at: usize) -> (Option<EditFault>, bool) {
    let mut fault = None;
    let mut is_done = true;
    for (n, reply) in replies.iter().enumerate() {
        match reply {
            Reply::Refused(refused) if n == at => fault = Some(*refused),
            Reply::Refused(_) => is_done = false,
            Reply::Done | Reply::Committed(_) => {}
        }
    }
    (fault, is_done)
}

// What came of an editor over a copy of the case's volume, the call being the step of this number.
fn came_of<S: Allocator + Copy + Drop, A: Allocator + Copy>(
    alloc: Global,
    stores_in: S,
    edits_in: A,
    case: &Case,
    short: Short,
    work: Work,
) -> Result<Came, Fail> {
    let data_store = copy_in(stores_in, &case.old.data_store, SIZE)?;
    let hash_store = copy_in(stores_in, &case.old.hash_store, SIZE)?;
    let left = left_in(
        alloc,
        edits_in,
        data_store,
        hash_store,
        NO_FAILURES,
        Some(short),
        work,
    )?;
    let (fault, is_done) = refusal_at(&left.replies, work.before.len());
    Ok(Came {
        fault,
        is_done: is_done && left.replies.len() == work.len(),
        blocks: left.opened.map_or(0, |seen| seen.blocks),
        is_old: is_left(&left, &case.old),
        is_new: is_left(&left, &case.new),
    })
}

// What takes memory of the heap with little room.
#[derive(Clone, Copy, Debug)]
enum Memory {
    Edits,
    Stores,
}

// A call over a volume of `old` blocks that is to have `new`, by how much its room grows from run to run, and how often it
// is refused at least.
#[derive(Clone, Copy, Debug)]
struct Row {
    call: Call,
    memory: Memory,
    old: usize,
    new: usize,
    step: usize,
    least: usize,
}

// The stores' 17 data blocks take 8,704 bytes beside the 16.
const ROWS: [Row; 3] = [
    Row {
        call: Call::Write,
        memory: Memory::Edits,
        old: 17,
        new: 17,
        step: STEP,
        least: 16,
    },
    Row {
        call: Call::Commit,
        memory: Memory::Edits,
        old: 256,
        new: 257,
        step: STEP,
        least: 64,
    },
    Row {
        call: Call::Commit,
        memory: Memory::Stores,
        old: 16,
        new: 17,
        step: SIZE,
        least: 17,
    },
];

// What came of an editor where a heap, of which stores or edits take memory, has so many bytes left.
fn came_in_heap(
    alloc: Global,
    memory: Memory,
    room: usize,
    case: &Case,
    work: Work,
) -> Result<Came, Fail> {
    let heap = LocalHeap::new(alloc, AMPLE)?;
    let short = Short { heap: &heap, room };
    match memory {
        Memory::Edits => came_of(alloc, alloc, &heap, case, short, work),
        Memory::Stores => came_of(alloc, &heap, alloc, case, short, work),
    }
}

// The same of the row's call, after which this is asked: a write of block 3, or a commit of that write and added blocks.
fn came_after(
    alloc: Global,
    row: Row,
    room: usize,
    case: &Case,
    after_write: &[Step],
    after_commit: &[Step],
) -> Result<Came, Fail> {
    match row.call {
        Call::Write => {
            let work = Work {
                size: SIZE,
                kept: 1,
                before: &[],
                squeezed: &[Step::Write(3, 0x5a)],
                after: after_write,
            };
            came_in_heap(alloc, row.memory, room, case, work)
        }
        Call::Commit => {
            let edits = [Step::Write(3, 0x5a), Step::Grow(case.count)];
            let work = Work {
                size: SIZE,
                kept: 3,
                before: &edits,
                squeezed: &[Step::Commit],
                after: after_commit,
            };
            came_in_heap(alloc, row.memory, room, case, work)
        }
    }
}

// Whether a call was refused for memory, and nothing is edited by a refused write, and both stores are as before a refused commit,
// whose edits are still pending. None where it wasn't refused.
fn stays(alloc: Global, row: Row, room: usize, case: &Case) -> Result<Option<bool>, Fail> {
    let came = came_after(alloc, row, room, case, &[Step::Commit], &[])?;
    let is_right = came.is_done && came.is_old && came.blocks == case.count;
    Ok(
        came.fault
            .map(|fault| fault == EditFault::NoMemory && is_right),
    )
}

// Whether the refused call is done with ample room.
fn goes_on(alloc: Global, row: Row, room: usize, case: &Case) -> Result<bool, Fail> {
    let written = [Step::Write(3, 0x5a), Step::Commit];
    let came = came_after(alloc, row, room, case, &written, &[Step::Commit])?;
    Ok(came.is_done && came.is_new)
}

// How many runs are refused, one after the other, before one is done.
fn refusals(alloc: Global, row: Row) -> Result<usize, Fail> {
    let case = make_case(alloc, row.old, row.new)?;
    for runs in 0..1000usize {
        let room = runs.saturating_mul(row.step);
        let Some(stays) = stays(alloc, row, room, &case)? else {
            return Ok(runs);
        };
        if !(stays && goes_on(alloc, row, room, &case)?) {
            return Err(Fail::from("a refused call is wrong"));
        }
    }
    Err(Fail::from("memory was refused at every size"))
}

#[test]
fn a_refused_call_changes_nothing(rt: HostRuntime) -> Result<(), Fail> {
    for row in ROWS {
        let refused = refusals(rt.alloc(), row)?;
        assert!(rt; refused > row.least, "{row:?}: {refused}");
    }
    Ok(())
}
