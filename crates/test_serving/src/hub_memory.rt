//! Memory refused to a hub of two sessions, in turn at each request that needs more than the ones before.

use crate::clients::{
    GREETING, Want, data_17, events, hash_17, hub_within, is_wanted, kind, run_once, wants, words,
};
use linked_list_allocator::LocalHeap;
use std::alloc::{AllocError, Allocator, Global};
use std::test::Fail;
use test_volumes::STEP;
use verity_hub::{Event, Hub, HubReply};
use verity_store::BlockStore;

/// What lacked memory.
#[derive(Clone, Copy, Debug, PartialEq, Eq)]
enum Lack {
    /// A new session.
    Session,
    /// A session's input, or the framing of what it says.
    Feed,
    /// A READ's bytes.
    Bytes,
}

/// What lacked memory, where a reply is the want of it in place of what is to come.
fn lack_of<A: Allocator>(reply: &HubReply<A>, want: &Want) -> Option<Lack> {
    let said = words(reply);
    match kind(reply).0 {
        "H2" if want.kind == "opened" => Some(Lack::Session),
        "starved" if want.kind == "open" && said.is_empty() => Some(Lack::Feed),
        "open" => match &want.lacking {
            Some(lacking) if said == lacking.as_slice() => Some(Lack::Bytes),
            _ => None,
        },
        _ => None,
    }
}

/// What was seen to lack memory.
#[derive(Clone, Copy, Debug, PartialEq, Eq)]
struct Seen {
    session: bool,
    feed: bool,
    bytes: bool,
}

const NOTHING: Seen = Seen {
    session: false,
    feed: false,
    bytes: false,
};

impl Seen {
    fn note(&mut self, lack: Lack) {
        match lack {
            Lack::Session => self.session = true,
            Lack::Feed => self.feed = true,
            Lack::Bytes => self.bytes = true,
        }
    }

    fn join(&mut self, other: Seen) {
        self.session |= other.session;
        self.feed |= other.feed;
        self.bytes |= other.bytes;
    }
}

/// Whether this may be a reply once a session was refused: the next one has its number, and its own number is unknown.
fn follows_refusal<A: Allocator>(reply: &HubReply<A>) -> bool {
    match kind(reply) {
        ("H3", _) => words(reply).is_empty(),
        ("opened", 0) => words(reply) == GREETING,
        _ => false,
    }
}

/// What lacked memory, where all replies are what is to come up to that, and say nothing else after it.
fn judge<A: Allocator>(replies: &[HubReply<A>], wants: &[Want]) -> Option<Seen> {
    let mut seen = NOTHING;
    for (reply, want) in replies.iter().zip(wants) {
        match lack_of(reply, want) {
            Some(lack) => seen.note(lack),
            None => {
                if !is_wanted(reply, want) && !(seen.session && follows_refusal(reply)) {
                    return None;
                }
            }
        }
    }
    Some(seen)
}

/// Whether a session that starved says so at each later feed.
fn stays_starved<A: Allocator>(events: &[Event], replies: &[HubReply<A>], id: u64) -> bool {
    let mut is_starved = false;
    for (event, reply) in events.iter().zip(replies) {
        if let Event::Feed(number, _) = event {
            if *number == id {
                let starves = kind(reply).0 == "starved";
                if is_starved && !starves {
                    return false;
                }
                is_starved = starves;
            }
        }
    }
    true
}

/// How a run within a heap goes.
#[derive(Clone, Copy, Debug, PartialEq, Eq)]
enum Outcome {
    /// There is no room for the verifier.
    None,
    /// There is room for it, and what lacked memory is this.
    Ran(Seen),
    /// Something is said that isn't to be said.
    Wrong,
}

/// How a run goes by these replies.
fn outcome_of<A: Allocator>(events: &[Event], replies: &[HubReply<A>], wants: &[Want]) -> Outcome {
    let stays = stays_starved(events, replies, 0) && stays_starved(events, replies, 1);
    match judge(replies, wants) {
        Some(seen) if stays && replies.len() == wants.len() => Outcome::Ran(seen),
        _ => Outcome::Wrong,
    }
}

/// How a run of a hub goes, whose end it is.
fn outcome_by<D: BlockStore + Drop, H: BlockStore + Drop, A: Allocator + Copy + Drop>(
    alloc: Global,
    hub: Hub<D, H, A>,
    events: &[Event],
    wants: &[Want],
) -> Result<Outcome, AllocError> {
    let mut replies = Vec::new(alloc);
    run_once(hub, events, &mut replies)?;
    Ok(outcome_of(events, &replies, wants))
}

/// How a run goes where the hub's memory, and what sessions say, have so much room.
fn run_within(
    alloc: Global,
    room: usize,
    events: &[Event],
    wants: &[Want],
) -> Result<Outcome, Fail> {
    let data = data_17(alloc)?;
    let hash = hash_17(alloc)?;
    let heap = LocalHeap::new(alloc, room)?;
    match hub_within(&heap, data, hash) {
        Some(hub) => Ok(outcome_by(alloc, hub, events, wants)?),
        None => Ok(Outcome::None),
    }
}

#[test]
fn a_hub_without_memory_says_so_and_nothing_wrong(rt: HostRuntime) -> Result<(), Fail> {
    let alloc = rt.alloc();
    let events = events(alloc)?;
    let wants = wants(alloc)?;
    let mut all = NOTHING;
    for steps in 1..1000 {
        match run_within(alloc, steps * STEP, &events, &wants)? {
            Outcome::None => {}
            Outcome::Ran(NOTHING) => {
                assert!(rt; all.session && all.feed && all.bytes, "{all:?}");
                return Ok(());
            }
            Outcome::Ran(seen) => all.join(seen),
            Outcome::Wrong => assert!(rt; false, "wrong at {steps} steps"),
        }
    }
    Err(Fail::from("memory was refused at every size"))
}
