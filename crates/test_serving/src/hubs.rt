//! Hubs over the volume of 17 blocks, streams that they serve and events that they do.

use crate::clients::{
    Reads, are_told, data_17, events_of, hash_17, hub_17, run_by, run_once, serve_by,
};
use linked_list_allocator::LocalHeap;
use std::alloc::{AllocError, Allocator, Global};
use std::io::{self, Write};
use std::test::Fail;
use test_stores::FailStore;
use verity_hub::{Event, Hub, HubFault, HubReply, ServeFault};
use verity_store::BlockStore;

/// No call of the data store fails, and none of the hash store.
pub const NO_FAILURE: (u64, u64) = (0, 0);

/// A writer that takes so many bytes, and then none.
#[derive(Drop)]
struct Narrow {
    taken: Vec<u8>,
    room: usize,
}

impl Write for Narrow {
    fn write(&mut self, buf: &[u8]) -> io::Result<usize> {
        let taken = buf.len().min(self.room);
        if self.taken.extend_from_slice(&buf[..taken]).is_err() {
            return Ok(0);
        }
        self.room -= taken;
        Ok(taken)
    }

    fn flush(&mut self) -> io::Result<()> {
        Ok(())
    }
}

/// How one client was served.
#[derive(Drop)]
pub struct Served {
    /// What was written.
    pub said: Vec<u8>,
    /// Why the stream was left before the session's end, if it was.
    pub fault: Option<ServeFault>,
    /// How many bytes of the input were not read.
    pub left: usize,
}

/// Opens so many sessions.
fn open_all<D: BlockStore + Drop, H: BlockStore + Drop>(
    hub: &mut Hub<D, H>,
    sessions: usize,
    alloc: Global,
) -> Result<(), HubFault> {
    let mut greetings = Vec::new(alloc);
    for _ in 0..sessions {
        hub.open(&mut greetings)?;
    }
    Ok(())
}

/// Opens sessions, and then serves one more over a reader and a writer by a hub.
fn serve_after<D: BlockStore + Drop, H: BlockStore + Drop, W: Write>(
    alloc: Global,
    hub: &mut Hub<D, H>,
    sessions: usize,
    reader: &mut &[u8],
    writer: &mut W,
    limit: u64,
) -> Result<(), ServeFault> {
    match open_all(hub, sessions, alloc) {
        Ok(()) => serve_by(hub, reader, writer, limit),
        Err(fault) => Err(ServeFault::Hub(fault)),
    }
}

/// Serves one client as [`serve`] does, over these stores.
fn serve_over<S: BlockStore + Drop>(
    alloc: Global,
    data: S,
    hash: S,
    sessions: usize,
    input: &[u8],
    room: usize,
    limit: u64,
) -> Result<Served, Fail> {
    let mut hub = hub_17(alloc, data, hash, [1, 0])?;
    let mut writer = Narrow {
        taken: Vec::new(alloc),
        room,
    };
    let mut reader = input;
    let fault = serve_after(alloc, &mut hub, sessions, &mut reader, &mut writer, limit).err();
    Ok(Served {
        said: writer.taken,
        fault,
        left: reader.len(),
    })
}

/// Serves one client by a hub that has opened so many sessions before, into a writer of so much room, for so many turns at most. The
/// hub has room for one cached block, and its data store and its hash store fail at their calls of these numbers; of number 0, none
/// does.
pub fn serve(
    alloc: Global,
    failing: (u64, u64),
    sessions: usize,
    input: &[u8],
    room: usize,
    limit: u64,
) -> Result<Served, Fail> {
    let data = FailStore::at(data_17(alloc)?, failing.0);
    let hash = FailStore::at(hash_17(alloc)?, failing.1);
    serve_over(alloc, data, hash, sessions, input, room, limit)
}

/// Does events with a hub, and where memory is refused for a reply, all that have none with other memory
/// for replies. It tells whether that was so.
fn run_on<D: BlockStore + Drop, H: BlockStore + Drop, C: Allocator>(
    hub: &mut Hub<D, H>,
    events: &[Event],
    replies: &mut Vec<HubReply, C>,
    others: &mut Vec<HubReply>,
) -> Result<bool, AllocError> {
    let is_refused = run_by(hub, events, replies).is_err();
    if is_refused {
        let rest = events.get(replies.len()..).unwrap_or(&[]);
        run_by(hub, rest, others)?;
    }
    Ok(is_refused)
}

/// What a sound hub replies to events.
#[derive(Drop)]
pub struct Replies<'a> {
    /// As far as the heap has the room.
    pub within: Vec<HubReply, &'a LocalHeap>,
    /// The others.
    pub others: Vec<HubReply>,
    /// Whether the heap refused memory for a reply.
    pub is_refused: bool,
}

/// What a sound hub replies to events, where the list of its replies is over a heap.
pub fn replies_in<'a>(
    alloc: Global,
    heap: &'a LocalHeap,
    events: &[Event],
) -> Result<Replies<'a>, Fail> {
    let data = data_17(alloc)?;
    let hash = hash_17(alloc)?;
    let mut replies = Replies {
        within: Vec::new(heap),
        others: Vec::new(alloc),
        is_refused: false,
    };
    add_replies(alloc, data, hash, events, &mut replies)?;
    Ok(replies)
}

/// Adds what a hub over these stores, with room for one cached block, replies to events.
fn add_replies<S: BlockStore + Drop>(
    alloc: Global,
    data: S,
    hash: S,
    events: &[Event],
    replies: &mut Replies,
) -> Result<(), Fail> {
    let mut hub = hub_17(alloc, data, hash, [1, 0])?;
    replies.is_refused = run_on(&mut hub, events, &mut replies.within, &mut replies.others)?;
    Ok(())
}

/// Whether both sessions of a hub over these stores are told what they should.
pub fn tells_over<D: BlockStore + Drop, H: BlockStore + Drop>(
    alloc: Global,
    data: D,
    hash: H,
    caches: [usize; 2],
    reads: Reads,
) -> Result<bool, Fail> {
    let events = events_of(alloc, reads)?;
    let replies = replies_over(alloc, data, hash, caches, &events)?;
    Ok(are_told(alloc, reads, &events, &replies)?)
}

/// What a hub over these stores replies to events.
fn replies_over<D: BlockStore + Drop, H: BlockStore + Drop>(
    alloc: Global,
    data: D,
    hash: H,
    caches: [usize; 2],
    events: &[Event],
) -> Result<Vec<HubReply>, Fail> {
    let hub = hub_17(alloc, data, hash, caches)?;
    let mut replies = Vec::new(alloc);
    run_once(hub, events, &mut replies)?;
    Ok(replies)
}
