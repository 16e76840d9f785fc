//! Many sessions over one export, opened, fed and ended.

use crate::hubs::{INPUT, end, expected, feed, make_sessions, open};
use crate::image::Image;
use nbd_hub::{Event, HubFault, HubReply, Piece, Sessions};
use nbd_session::Status;
use std::alloc::{AllocError, Global};
use std::test::Fail;

/// The reply's kind and number, for a table.
fn kind(reply: &HubReply) -> (&'static str, u64) {
    match reply {
        HubReply::Opened(id, _) => ("opened", *id),
        HubReply::Fed(_, _) => ("fed", 0),
        HubReply::Closed => ("closed", 0),
        HubReply::Refused(HubFault::Full) => ("full", 0),
        HubReply::Refused(HubFault::Unknown) => ("unknown", 0),
        HubReply::Refused(HubFault::Spent | HubFault::NoMemory) => ("refused", 0),
    }
}

/// Opens one session more than may be open, ends the fourth and opens another, then feeds and ends the fourth once more.
fn make_events(alloc: Global) -> Result<Vec<Event>, AllocError> {
    let mut events = Vec::new(alloc);
    for _ in 0..65 {
        events.push(Event::Open)?;
    }
    events.push(Event::End(3))?;
    events.push(Event::Open)?;
    events.push(Event::Feed(3, Piece::new(Vec::new(alloc))))?;
    events.push(Event::End(3))?;
    Ok(events)
}

/// The kinds of the replies to what comes after the first 64.
static LAST_KINDS: [(&str, u64); 5] = [
    ("full", 0),
    ("closed", 0),
    ("opened", 64),
    ("unknown", 0),
    ("unknown", 0),
];

/// The number and kind of the first reply behind the first 64 that is of another kind.
fn first_wrong(replies: &[HubReply]) -> Option<(usize, (&'static str, u64))> {
    for (at, reply) in replies.iter().enumerate() {
        if 64 <= at && LAST_KINDS.get(at - 64) != Some(&kind(reply)) {
            return Some((at, kind(reply)));
        }
    }
    None
}

/// How many replies a hub makes to them, and the first that is of another kind.
fn replies_to_a_crowd(
    alloc: Global,
) -> Result<(usize, Option<(usize, (&'static str, u64))>), Fail> {
    let events = make_events(alloc)?;
    let mut hub = make_sessions(alloc)?;
    let mut replies = Vec::new(alloc);
    hub.run(&events, &mut replies)?;
    Ok((replies.len(), first_wrong(&replies)))
}

#[test]
fn a_65th_session_is_refused(rt: HostRuntime) -> Result<(), Fail> {
    assert_eq!(rt; replies_to_a_crowd(rt.alloc())?, (69, None));
    Ok(())
}

/// What came of two sessions.
#[derive(Clone, Copy, Debug, PartialEq, Eq)]
struct Two {
    opened: [Result<u64, HubFault>; 2],
    /// Whether each feed of each left it open.
    stay_open: bool,
    /// Whether each said what is to be said.
    are_said: [bool; 2],
    /// What came of the first one's end, and of its end once more.
    ended: [Result<(), HubFault>; 2],
}

/// Feeds the sessions 0 and 1 each byte of the input in turn, and tells whether each feed left its session open.
fn feed_in_turn(hub: &mut Sessions<Image>, first: &mut Vec<u8>, second: &mut Vec<u8>) -> bool {
    let mut stay_open = true;
    for &byte in INPUT {
        stay_open &= feed(hub, 0, &[byte], first) == Ok(Status::Open);
        stay_open &= feed(hub, 1, &[byte], second) == Ok(Status::Open);
    }
    stay_open
}

/// What comes of two sessions that are fed in turn.
fn two_in_turn(alloc: Global) -> Result<Two, Fail> {
    let want = expected(alloc, INPUT.len())?;
    let mut hub = make_sessions(alloc)?;
    let mut first = Vec::new(alloc);
    let mut second = Vec::new(alloc);
    let opened = [open(&mut hub, &mut first), open(&mut hub, &mut second)];
    let stay_open = feed_in_turn(&mut hub, &mut first, &mut second);
    Ok(Two {
        opened,
        stay_open,
        are_said: [first == want, second == want],
        ended: [end(&mut hub, 0), end(&mut hub, 0)],
    })
}

#[test]
fn two_sessions_are_fed_in_turn(rt: HostRuntime) -> Result<(), Fail> {
    let wanted = Two {
        opened: [Ok(0), Ok(1)],
        stay_open: true,
        are_said: [true, true],
        ended: [Ok(()), Err(HubFault::Unknown)],
    };
    assert_eq!(rt; two_in_turn(rt.alloc())?, wanted);
    Ok(())
}

/// How many sessions were opened with the next number and ended, one after the other, at most so many.
fn count_ended(alloc: Global, most: u64) -> Result<u64, Fail> {
    let mut hub = make_sessions(alloc)?;
    let mut said = Vec::new(alloc);
    for number in 0..most {
        said.clear();
        if open(&mut hub, &mut said) != Ok(number) || end(&mut hub, number) != Ok(()) {
            return Ok(number);
        }
    }
    Ok(most)
}

#[test]
fn no_memory_is_kept_of_ended_sessions(rt: HostRuntime) -> Result<(), Fail> {
    assert_eq!(rt; count_ended(rt.alloc(), 100_000)?, 100_000);
    Ok(())
}
