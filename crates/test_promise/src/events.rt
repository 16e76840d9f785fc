//! Events over a volume that was made from scratch.

use crate::volumes::*;
use nbd_session::ExportName;
use std::alloc::{Allocator, Global};
use std::test::Fail;
use verity_check::CheckFault;
use verity_hub::{Event, HubReply, Piece};
use verity_promise::{AnswerFault, answer_events};

fn words<A: Allocator>(reply: &HubReply<A>) -> &[u8] {
    match reply {
        HubReply::Opened(_, piece) | HubReply::Fed(_, piece) => piece.as_slice(),
        HubReply::Closed | HubReply::Refused(_) => &[],
    }
}

fn client(alloc: Global) -> Result<Vec<Event>, Fail> {
    let mut events = Vec::new(alloc);
    events.push(Event::Open)?;
    events.push(Event::Feed(0, Piece::new(Vec::from_slice(alloc, CLIENT)?)))?;
    events.push(Event::End(0))?;
    Ok(events)
}

// What came of events: how they ended, how many replies there are, and where the words of the first two aren't the greeting, and what
// is said behind it.
#[derive(Clone, Copy, Debug, PartialEq, Eq)]
struct Heard {
    done: Result<(), AnswerFault>,
    count: usize,
    first: Option<usize>,
    second: Option<usize>,
}

// The words of a reply, none where there is no such reply.
fn words_at(replies: &[HubReply], at: usize) -> &[u8] {
    match replies.get(at) {
        Some(reply) => words(reply),
        None => &[],
    }
}

fn heard_of(done: Result<(), AnswerFault>, replies: &[HubReply]) -> Heard {
    Heard {
        done,
        count: replies.len(),
        first: difference(words_at(replies, 0), &[GREETING]),
        second: difference(words_at(replies, 1), &[SAID, &[0x11; 512]]),
    }
}

// What came of these events, over a cache of so many blocks.
fn answered(alloc: Global, cache: usize, events: &[Event]) -> Result<Heard, Fail> {
    let name = ExportName::new(b"vol")?;
    let line = line(alloc, ROOT, 17)?;
    let (data, hash) = stores_of(alloc, seventeen(alloc)?)?;
    let mut replies = Vec::new(alloc);
    let done = answer_events(alloc, line, data, hash, cache, name, events, &mut replies);
    Ok(heard_of(done, &replies))
}

#[test]
fn events_are_answered(rt: HostRuntime) -> Result<(), Fail> {
    let alloc = rt.alloc();
    let heard = answered(alloc, 8, &client(alloc)?)?;
    let want = Heard {
        done: Ok(()),
        count: 3,
        first: None,
        second: None,
    };
    assert_eq!(rt; heard, want);
    Ok(())
}

#[test]
fn no_cache_is_refused(rt: HostRuntime) -> Result<(), Fail> {
    let alloc = rt.alloc();
    let heard = answered(alloc, 0, &client(alloc)?)?;
    let fault = AnswerFault::Check(CheckFault::CacheSize);
    assert_eq!(rt; (heard.done, heard.count), (Err(fault), 0));
    Ok(())
}
