//! Streams that are left, and writers that take no more. Streams that end in the middle of a message are in `tests/program`.

use crate::clients::{GREETING, WELCOME_17, add_reply, client};
use crate::hubs::{NO_FAILURE, Served, serve};
use std::alloc::{AllocError, Global};
use std::test::Fail;
use verity_hub::{HubFault, ServeFault};

/// Client flags; option 8; GO without a name; READ of the last byte.
const INPUT: &[u8] = b"\x00\x00\x00\x03\
    IHAVEOPT\x00\x00\x00\x08\x00\x00\x00\x00\
    IHAVEOPT\x00\x00\x00\x07\x00\x00\x00\x06\x00\x00\x00\x00\x00\x00\
    \x25\x60\x95\x13\x00\x00\x00\x00\x01\x02\x03\x04\x05\x06\x07\x08\x00\x00\x00\x00\x00\x00\x21\xff\x00\x00\x00\x01";

/// All that is said to it.
const SAID: &[u8] = b"NBDMAGICIHAVEOPT\x00\x03\
    \x00\x03\xe8\x89\x04\x55\x65\xa9\x00\x00\x00\x08\x80\x00\x00\x01\x00\x00\x00\x00\
    \x00\x03\xe8\x89\x04\x55\x65\xa9\x00\x00\x00\x07\x00\x00\x00\x03\x00\x00\x00\x0c\x00\x00\x00\x00\x00\x00\x00\x00\x22\x00\x00\x03\
    \x00\x03\xe8\x89\x04\x55\x65\xa9\x00\x00\x00\x07\x00\x00\x00\x01\x00\x00\x00\x00\
    \x67\x44\x66\x98\x00\x00\x00\x00\x01\x02\x03\x04\x05\x06\x07\x08\x10";

/// How a stream was left.
#[derive(Clone, Copy, Debug, PartialEq, Eq)]
struct Left {
    fault: Option<ServeFault>,
    /// How many bytes were said, and whether they are the first of what is to be said.
    count: usize,
    is_beginning: bool,
    /// How many bytes of the input were not read.
    left: usize,
}

/// How it was left where these are the first bytes that are to be said.
fn left_of(served: &Served, wanted: &[u8]) -> Left {
    Left {
        fault: served.fault,
        count: served.said.len(),
        is_beginning: wanted.starts_with(&served.said),
        left: served.left,
    }
}

/// What a client is to be told that asks for the first blocks and is left after two.
fn two_blocks(alloc: Global) -> Result<Vec<u8>, AllocError> {
    let mut said = Vec::from_slice(alloc, WELCOME_17)?;
    add_reply(&mut said, 0, 0, &[0; 512])?;
    add_reply(&mut said, 512, 0, &[1; 512])?;
    Ok(said)
}

/// How the stream of a client that asks for four blocks is left after three turns, how many bytes are to be said, and how many bytes
/// it sent.
fn left_at_its_limit(alloc: Global) -> Result<(Left, usize, usize), Fail> {
    let input = client(alloc, &[(0, 512), (512, 512), (1024, 512), (1536, 512)])?;
    let wanted = two_blocks(alloc)?;
    let served = serve(alloc, NO_FAILURE, 0, &input, usize::MAX, 3)?;
    Ok((left_of(&served, &wanted), wanted.len(), input.len()))
}

#[test]
fn a_stream_is_left_at_its_limit(rt: HostRuntime) -> Result<(), Fail> {
    let (left, count, sent) = left_at_its_limit(rt.alloc())?;
    let wanted = Left {
        fault: Some(ServeFault::Turns),
        count,
        is_beginning: true,
        left: sent.saturating_sub(84),
    };
    assert_eq!(rt; left, wanted);
    Ok(())
}

/// How the stream of the input is left after so many sessions, by a writer of this room.
fn left_after(alloc: Global, sessions: usize, room: usize) -> Result<Left, Fail> {
    let served = serve(alloc, NO_FAILURE, sessions, INPUT, room, 100)?;
    Ok(left_of(&served, SAID))
}

#[test]
fn a_full_hub_serves_nobody(rt: HostRuntime) -> Result<(), Fail> {
    let alloc = rt.alloc();
    for (sessions, fault) in [(63, None), (64, Some(ServeFault::Hub(HubFault::Full)))] {
        let left = left_after(alloc, sessions, usize::MAX)?;
        let (is_silent, is_unread) = (left.count == 0, left.left == INPUT.len());
        let is_full = fault.is_some();
        assert_eq!(rt;
            (left.fault, is_silent, is_unread),
            (fault, is_full, is_full)
        );
    }
    Ok(())
}

#[test]
fn a_writer_that_takes_no_more(rt: HostRuntime) -> Result<(), Fail> {
    let alloc = rt.alloc();
    for room in 0..=SAID.len() {
        let left = left_after(alloc, 0, room)?;
        let is_whole = room == SAID.len();
        let fault = if is_whole {
            None
        } else {
            Some(ServeFault::Write)
        };
        // All is read where all is said, and nothing where the greeting has no room.
        let is_read = (!is_whole || left.left == 0)
            && (GREETING.len() <= room || left.left == INPUT.len());
        assert_eq!(rt;
            (left.fault, left.count, left.is_beginning, is_read),
            (fault, room, true, true),
            "room for {room}"
        );
    }
    Ok(())
}
