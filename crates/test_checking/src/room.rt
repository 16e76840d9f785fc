//! Reads into lists with little room, and reports of verifiers whose heaps have little room.
use linked_list_allocator::LocalHeap;
use std::alloc::{AllocError, Allocator, Global};
use test_volumes::{STEP, fill};
use verity_check::{CheckFault, Place, Report, Verdict, Verifier};
use verity_store::BlockStore;

// Whether these are the bytes of the data blocks 4 to 6.
fn are_three_blocks(bytes: &[u8]) -> bool {
    bytes.len() == 1536
        && bytes
            .iter()
            .zip(2048usize..3584)
            .all(|(byte, at)| *byte as usize == at / 512)
}

// What a read of three blocks into a list over a heap of so many steps answers, where the list is then as it should be.
fn read_into<D: BlockStore, H: BlockStore, A: Allocator + Copy + Drop>(
    alloc: Global,
    verifier: &mut Verifier<D, H, A>,
    steps: usize,
) -> Option<Result<(), CheckFault>> {
    let heap = LocalHeap::new(alloc, steps.saturating_mul(STEP)).ok()?;
    let mut out = Vec::from_slice(&heap, b"ab").ok()?;
    if verifier.size() != 8704 {
        return None;
    }
    let answer = verifier.read_at(2048, 1536, &mut out);
    let (front, appended) = out.split_at(out.len().min(2));
    let is_appended = if answer.is_ok() {
        are_three_blocks(appended)
    } else {
        appended.is_empty()
    };
    if front == b"ab".as_slice() && is_appended {
        Some(answer)
    } else {
        None
    }
}

/// With how many steps of room such a read is first served. None where it isn't, or an answer before that is no V4.
pub fn steps_to_read<D: BlockStore, H: BlockStore, A: Allocator + Copy + Drop>(
    alloc: Global,
    verifier: &mut Verifier<D, H, A>,
) -> Option<usize> {
    for steps in 1..1000 {
        match read_into(alloc, verifier, steps) {
            Some(Ok(())) => return Some(steps),
            Some(Err(CheckFault::NoMemory)) => {}
            _ => return None,
        }
    }
    None
}

/// What a report lists where a bit of data block 5 is flipped.
pub const BAD: [(Place, Verdict); 1] = [(Place::Data(5), Verdict::Bad)];

fn lists_bad<A: Allocator>(report: &Report<A>) -> bool {
    report.faults.as_slice() == BAD.as_slice() && report.unchecked == 0
}

// What a report that finds so much room answers.
fn report_with<D: BlockStore, H: BlockStore, A: Allocator + Copy + Drop>(
    alloc: Global,
    heap: &LocalHeap,
    verifier: &mut Verifier<D, H, A>,
    steps: usize,
) -> Result<Result<Report<A>, AllocError>, AllocError> {
    let gap = Vec::from_elem(heap, 0u8, steps.saturating_mul(STEP))?;
    let rest = fill(alloc, heap)?;
    drop(gap);
    let report = verifier.report();
    drop(rest);
    Ok(report)
}

/// Whether a report that finds so much room is given, where it is then right.
pub fn is_report_given<D: BlockStore, H: BlockStore, A: Allocator + Copy + Drop>(
    alloc: Global,
    heap: &LocalHeap,
    verifier: &mut Verifier<D, H, A>,
    steps: usize,
) -> Option<bool> {
    match report_with(alloc, heap, verifier, steps).ok()? {
        Ok(report) if lists_bad(&report) => Some(true),
        Ok(_) => None,
        Err(AllocError) => Some(false),
    }
}
