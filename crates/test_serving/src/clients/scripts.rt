//! Stores that do as scripted, and two sessions that are fed in turn. A READ that is served carries the image's block, and
//! any other is EIO.

use crate::clients::talking::*;
use crate::clients::volumes::*;
use std::alloc::{AllocError, Global};
use std::test::Fail;
use test_stores::{Answer, ScriptStore};
use test_volumes::image;
use verity_hub::{Event, HubReply};
use verity_store::Block;

/// What a store gives for its reads, in turn: the block of this number of those that it has to give, or a fault.
pub type Script = &'static [Option<usize>];

/// READs of one block each, by sessions 0 and 1 in turn: the block, and whether it is served.
pub type Reads = &'static [(u8, bool)];

/// A store that does as scripted.
pub fn scripted(
    alloc: Global,
    blocks: u64,
    gives: &[u8],
    script: Script,
) -> Result<ScriptStore, Fail> {
    let mut answers = Vec::new(alloc);
    for one in script {
        answers.push(answer(alloc, gives, *one)?)?;
    }
    Ok(ScriptStore::new(alloc, 512, blocks, answers)?)
}

/// The block of this number of those that a store has to give, or a fault.
fn answer(alloc: Global, gives: &[u8], one: Option<usize>) -> Result<Answer, AllocError> {
    let Some(n) = one else {
        return Ok(Answer::Fault);
    };
    let block = gives.chunks(512).nth(n).unwrap_or(&[]);
    Ok(Answer::Block(Block::new(Vec::from_slice(alloc, block)?)))
}

/// The image of another volume of the same sizes: each block is filled with 128 more than its number.
pub fn other_image(alloc: Global) -> Result<Vec<u8>, Fail> {
    let mut bytes = image(alloc, 17)?;
    for byte in bytes.iter_mut() {
        *byte ^= 128;
    }
    Ok(bytes)
}

/// Feeds bytes to both sessions, byte by byte in turn.
fn feed_both(events: &mut Vec<Event>, first: &[u8], second: &[u8]) -> Result<(), AllocError> {
    for (one, other) in first.iter().zip(second) {
        feed(events, 0, &[*one])?;
        feed(events, 1, &[*other])?;
    }
    Ok(())
}

/// The READ of a block.
fn read_block(alloc: Global, n: u8) -> Result<Vec<u8>, AllocError> {
    read(alloc, n as u64 * 512, 512)
}

/// Feeds to both sessions the READ of a block each.
fn feed_reads(events: &mut Vec<Event>, one: u8, other: u8) -> Result<(), AllocError> {
    let alloc = *events.allocator();
    let first = read_block(alloc, one)?;
    let second = read_block(alloc, other)?;
    feed_both(events, &first, &second)
}

/// Two sessions that greet, and then ask for the blocks in turn.
pub fn events_of(alloc: Global, reads: Reads) -> Result<Vec<Event>, AllocError> {
    let mut events = Vec::new(alloc);
    add_events(&mut events, reads)?;
    Ok(events)
}

/// Opens both sessions, which greet and then ask for the blocks in turn.
fn add_events(events: &mut Vec<Event>, reads: Reads) -> Result<(), AllocError> {
    for _ in 0..2 {
        events.push(Event::Open)?;
    }
    feed_both(events, HELLO, HELLO)?;
    for pair in reads.chunks(2) {
        if let [(one, _), (other, _)] = pair {
            feed_reads(events, *one, *other)?;
        }
    }
    Ok(())
}

/// Adds what is said to the READ of a block.
fn add_told(said: &mut Vec<u8>, n: u8, is_served: bool) -> Result<(), AllocError> {
    let offset = n as u64 * 512;
    if is_served {
        add_reply(said, offset, 0, &[n; 512])
    } else {
        add_reply(said, offset, EIO, b"")
    }
}

/// What one of the sessions is told.
fn told(alloc: Global, reads: Reads, session: usize) -> Result<Vec<u8>, AllocError> {
    let mut said = Vec::from_slice(alloc, WELCOME_17)?;
    for (n, is_served) in reads.iter().skip(session).step_by(2) {
        add_told(&mut said, *n, *is_served)?;
    }
    Ok(said)
}

/// Whether one of the sessions is told what it should.
fn is_told(
    alloc: Global,
    reads: Reads,
    events: &[Event],
    replies: &[HubReply],
    session: usize,
) -> Result<bool, AllocError> {
    let mut said = Vec::new(alloc);
    said_by(session as u64, events, replies, &mut said)?;
    Ok(said == told(alloc, reads, session)?)
}

/// Whether both sessions are told what they should by the replies to the events.
pub fn are_told(
    alloc: Global,
    reads: Reads,
    events: &[Event],
    replies: &[HubReply],
) -> Result<bool, AllocError> {
    Ok(is_told(alloc, reads, events, replies, 0)? && is_told(alloc, reads, events, replies, 1)?)
}
