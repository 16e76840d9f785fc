//! Which sessions are opened, and which are refused.

use crate::clients::kind;
use crate::hubs::replies_in;
use linked_list_allocator::LocalHeap;
use std::alloc::{AllocError, Global};
use std::test::Fail;
use verity_hub::{Event, HubReply, Piece};

/// 65 sessions are opened, one is ended, the next is opened, and the ended one is fed and ended again.
fn crowd(alloc: Global) -> Result<Vec<Event>, AllocError> {
    let mut events = Vec::new(alloc);
    for _ in 0..65 {
        events.push(Event::Open)?;
    }
    events.push(Event::End(3))?;
    events.push(Event::Open)?;
    events.push(Event::Feed(3, Piece::new(Vec::new(alloc))))?;
    events.push(Event::End(3))?;
    events.push(Event::Open)?;
    Ok(events)
}

/// The kinds of the replies to what comes after the first 64.
static LAST_KINDS: [(&str, u64); 6] = [
    ("H1", 0),
    ("closed", 0),
    ("opened", 64),
    ("H3", 0),
    ("H3", 0),
    ("H1", 0),
];

/// The kind of the reply with this number, from 0 on.
fn wanted(at: usize) -> (&'static str, u64) {
    if at < 64 {
        ("opened", at as u64)
    } else {
        LAST_KINDS.get(at - 64).copied().unwrap_or(("none", 0))
    }
}

/// The number and kind of the first reply that is of another kind.
fn first_wrong(replies: &[HubReply]) -> Option<(usize, (&'static str, u64))> {
    for (at, reply) in replies.iter().enumerate() {
        if kind(reply) != wanted(at) {
            return Some((at, kind(reply)));
        }
    }
    None
}

/// How many replies a hub makes, and the first that is of another kind.
fn replies_to_a_crowd(
    alloc: Global,
) -> Result<(usize, Option<(usize, (&'static str, u64))>), Fail> {
    let events = crowd(alloc)?;
    let heap = LocalHeap::new(alloc, 65_536)?;
    let replies = replies_in(alloc, &heap, &events)?;
    Ok((replies.within.len(), first_wrong(&replies.within)))
}

#[test]
fn a_65th_session_is_refused(rt: HostRuntime) -> Result<(), Fail> {
    assert_eq!(rt; replies_to_a_crowd(rt.alloc())?, (70, None));
    Ok(())
}
