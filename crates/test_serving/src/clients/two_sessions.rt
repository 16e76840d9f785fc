//! Two sessions of a hub, and what is to come of them.

use crate::clients::talking::*;
use std::alloc::{AllocError, Allocator, Global};
use verity_hub::{Event, HubReply};

/// Two sessions: each asks for a block, of which the first session's request comes in two pieces.
pub fn events(alloc: Global) -> Result<Vec<Event>, AllocError> {
    let mut events = Vec::new(alloc);
    add_events(&mut events)?;
    Ok(events)
}

/// Puts all the events of the two sessions behind others.
fn add_events(events: &mut Vec<Event>) -> Result<(), AllocError> {
    for _ in 0..2 {
        events.push(Event::Open)?;
    }
    feed_each(events, &[(0, GO), (1, GO)])?;
    feed_reads(events)?;
    for session in 0..2 {
        events.push(Event::End(session))?;
    }
    Ok(())
}

/// Puts behind other events that the first session's request comes in two pieces, and the second's between them.
fn feed_reads(events: &mut Vec<Event>) -> Result<(), AllocError> {
    let alloc = *events.allocator();
    let first = read(alloc, 1536, 512)?;
    let second = read(alloc, 8192, 512)?;
    let (head, rest) = first.split_at(first.len().min(10));
    feed_each(events, &[(0, head), (1, &second), (0, rest)])
}

/// Puts behind other events that these sessions are fed these bytes.
fn feed_each(events: &mut Vec<Event>, rows: &[(u64, &[u8])]) -> Result<(), AllocError> {
    for (session, bytes) in rows {
        feed(events, *session, bytes)?;
    }
    Ok(())
}

/// What is to come of an event: the reply's kind and number, what the session says, and what it says where there is no
/// memory for a READ's bytes.
#[derive(Drop)]
pub struct Want {
    pub kind: &'static str,
    number: u64,
    pub words: Vec<u8>,
    pub lacking: Option<Vec<u8>>,
}

/// A row of the table of what is to come.
#[derive(Clone, Copy)]
enum Row {
    /// An event that reads no block: the reply's kind and number, and what the session says.
    Words(&'static str, u64, &'static [u8]),
    /// The READ of this block.
    Block(u8),
}

/// What is to come of the events, in their order.
const ROWS: [Row; 9] = [
    Row::Words("opened", 0, GREETING),
    Row::Words("opened", 1, GREETING),
    Row::Words("open", 0, GO_REPLY),
    Row::Words("open", 0, GO_REPLY),
    Row::Words("open", 0, b""),
    Row::Block(16),
    Row::Block(3),
    Row::Words("closed", 0, b""),
    Row::Words("closed", 0, b""),
];

/// What is to come of an event that reads no block.
fn want_words(
    alloc: Global,
    kind: &'static str,
    number: u64,
    words: &[u8],
) -> Result<Want, AllocError> {
    Ok(Want {
        kind,
        number,
        words: Vec::from_slice(alloc, words)?,
        lacking: None,
    })
}

/// What is to come of the READ of a block.
fn want_block(alloc: Global, n: u8) -> Result<Want, AllocError> {
    let offset = n as u64 * 512;
    Ok(Want {
        kind: "open",
        number: 0,
        words: reply(alloc, offset, 0, &[n; 512])?,
        lacking: Some(reply(alloc, offset, ENOMEM, b"")?),
    })
}

/// What is to come as a row says.
fn want_of(alloc: Global, row: Row) -> Result<Want, AllocError> {
    match row {
        Row::Words(kind, number, words) => want_words(alloc, kind, number, words),
        Row::Block(n) => want_block(alloc, n),
    }
}

/// What is to come of the events.
pub fn wants(alloc: Global) -> Result<Vec<Want>, AllocError> {
    let mut wants = Vec::new(alloc);
    for row in &ROWS {
        wants.push(want_of(alloc, *row)?)?;
    }
    Ok(wants)
}

/// Whether a reply is what is to come.
pub fn is_wanted<A: Allocator>(reply: &HubReply<A>, want: &Want) -> bool {
    kind(reply) == (want.kind, want.number) && words(reply) == want.words.as_slice()
}
