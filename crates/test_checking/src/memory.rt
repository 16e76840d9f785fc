//! Verifiers that are refused memory.
use crate::asking::{Ask, Failure, NEVER, answered_within};
use crate::verifiers::salted;
use std::alloc::Global;
use std::process::Abort;
use std::test::Fail;
use test_volumes::{BuiltVolume, STEP};
use verity_check::CheckFault;

// How a verifier over a heap with little room came out.
#[derive(Clone, Copy, Debug, PartialEq, Eq)]
enum Outcome {
    // Its table line found no room.
    NoTable,
    // It was refused with V4.
    NoMemory,
    // It answers as it should.
    Right,
    // It does not, or was refused with another fault.
    Wrong,
}

// All data blocks are served, and then the first again.
const ALL_AND_AGAIN: [Ask; 2] = [Ask::ServesBlocks(0, 17), Ask::ServesBlocks(0, 1)];

// What comes of a verifier over a heap of so many steps.
fn try_room(alloc: Global, volume: &BuiltVolume, steps: usize) -> Result<Outcome, Fail> {
    let room = steps.saturating_mul(STEP);
    Ok(
        match answered_within(alloc, volume, room, NEVER, &ALL_AND_AGAIN)? {
            None => Outcome::NoTable,
            Some(Ok(2)) => Outcome::Right,
            Some(Err(CheckFault::NoMemory)) => Outcome::NoMemory,
            Some(_) => Outcome::Wrong,
        },
    )
}

// With how many steps, from so many on, the outcome is first another than this, and which; at the end of `most`, it itself.
fn next_outcome(
    alloc: Global,
    volume: &BuiltVolume,
    from: usize,
    most: usize,
    kind: Outcome,
) -> Result<(usize, Outcome), Fail> {
    for steps in from..from.saturating_add(most) {
        let next = try_room(alloc, volume, steps)?;
        if next != kind {
            return Ok((steps, next));
        }
    }
    Ok((from, kind))
}

// What comes after no table line, after that outcome, and after that one.
fn outcomes(alloc: Global) -> Result<[Outcome; 3], Fail> {
    let volume = salted(alloc)?;
    let (from, first) = next_outcome(alloc, &volume, 0, 600, Outcome::NoTable)?;
    let (from, second) = next_outcome(alloc, &volume, from, 1500, Outcome::NoMemory)?;
    let (_, third) = next_outcome(alloc, &volume, from, 600, Outcome::Right)?;
    Ok([first, second, third])
}

// First the table line is refused, then the verifier. From then on no answer depends on the room for its cache, which the
// three hash blocks of the tree fill.
#[test]
fn a_verifier_refused_memory_is_not_made(rt: HostRuntime) -> Result<(), Fail> {
    let wanted = [Outcome::NoMemory, Outcome::Right, Outcome::Right];
    assert_eq!(rt; outcomes(rt.alloc())?, wanted);
    Ok(())
}

// How often, at most three times, a verifier over a heap of so many steps serves data block 0 from four reads of hash blocks,
// where there is one.
fn served(alloc: Global, volume: &BuiltVolume, steps: usize) -> Result<Option<usize>, Fail> {
    let (room, four_reads) = (steps.saturating_mul(STEP), Failure::ReadsAfter(4));
    let asks = [Ask::ServesBlocks(0, 1); 3];
    Ok(
        match answered_within(alloc, volume, room, four_reads, &asks)? {
            Some(Ok(times)) => Some(times),
            _ => None,
        },
    )
}

// How often the first verifier that is made serves it, and one with much room.
fn served_by_two(alloc: Global) -> Result<Option<(usize, Option<usize>)>, Fail> {
    let volume = salted(alloc)?;
    for steps in 0..1000 {
        if let Some(times) = served(alloc, &volume, steps)? {
            return Ok(Some((times, served(alloc, &volume, 4096)?)));
        }
    }
    Ok(None)
}

// Each read needs two hash blocks where none is cached.
#[test]
fn a_cache_without_memory_stays_empty(rt: HostRuntime) -> Result<(), Fail> {
    assert_eq!(rt; served_by_two(rt.alloc())?, Some((2, Some(3))));
    Ok(())
}
