//! What is a journal by its first bytes, and what a start makes of each: it ends the making of a head, and leaves all else as it is.
use crate::commits::CLOSED;
use std::alloc::{AllocError, Allocator};
use std::test::Fail;
use verity_disks::{Device, DiskFault, TearingDisks};
use verity_journal::start;

/// What a start answers over two devices of a byte each and a journal of these bytes; and whether the journal is a closed one then, or
/// is what it was.
fn started<A: Allocator + Copy>(
    alloc: A,
    journal: &[u8],
) -> Result<(Result<(), DiskFault>, bool, bool), AllocError> {
    let data = vec![in alloc; 1; 1]?;
    let hash = vec![in alloc; 2; 1]?;
    let mut disks = TearingDisks::new(alloc, data, hash, journal.to_vec(alloc)?, 1000)?;
    let answer = start(alloc, &mut disks);
    let left = disks.device(Device::Journal).durable();
    Ok((answer, left == CLOSED, left == journal))
}

#[test]
fn a_beginning_of_a_head_becomes_a_closed_journal(rt: HostRuntime) -> Result<(), Fail> {
    for len in 0..13 {
        let (answer, is_closed, _) = started(rt.alloc(), &CLOSED[..len])?;
        assert!(rt; answer.is_ok() && is_closed);
    }
    Ok(())
}

#[test]
fn a_closed_journal_stays(rt: HostRuntime) -> Result<(), Fail> {
    for journal in [
        CLOSED,
        b"dalgjrnl\x01\0\0\0\0and what an earlier commit left",
    ] {
        let (answer, _, is_same) = started(rt.alloc(), journal)?;
        assert!(rt; answer.is_ok() && is_same);
    }
    Ok(())
}

// A zero byte first, one of another kind, another version, another magic, an open gate with no whole plan behind it.
#[test]
fn what_is_no_journal_stays(rt: HostRuntime) -> Result<(), Fail> {
    let others: [&[u8]; 6] = [
        b"\0",
        b"a shopping list",
        b"dalgjrnl\x02\0\0\0\0",
        b"Dalgjrnl\x01\0\0\0\0",
        b"dalgjrn\0",
        b"dalgjrnl\x01\0\0\0\x01\x08\0\0\0\0\0\0\0short",
    ];
    for other in others {
        let (answer, _, is_same) = started(rt.alloc(), other)?;
        assert!(rt; answer == Err(DiskFault::Foreign) && is_same);
    }
    Ok(())
}
