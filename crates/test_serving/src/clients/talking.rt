//! What clients send and are told, in the bytes of the protocol's tables, and the calls that end with their hub.

use nbd_session::Status;
use std::alloc::{AllocError, Allocator, Global};
use std::io::Write;
use verity_hub::{
    CountedReader, CountedWriter, Event, Hub, HubFault, HubReply, Notices, Piece, ServeFault,
    serve_stream,
};
use verity_store::BlockStore;

/// Client flags, and EXPORT_NAME with the empty name.
pub const HELLO: &[u8] = b"\x00\x00\x00\x03IHAVEOPT\x00\x00\x00\x01\x00\x00\x00\x00";

/// The greeting.
pub const GREETING: &[u8] = b"NBDMAGICIHAVEOPT\x00\x03";

/// The greeting, the size of 17 blocks, and the transmission flags.
pub const WELCOME_17: &[u8] = b"NBDMAGICIHAVEOPT\x00\x03\x00\x00\x00\x00\x00\x00\x22\x00\x00\x03";

/// Client flags, and GO for the export's name and its block sizes.
pub const GO: &[u8] = b"\x00\x00\x00\x03\
    IHAVEOPT\x00\x00\x00\x07\x00\x00\x00\x0b\x00\x00\x00\x03vol\x00\x01\x00\x03";

/// What GO is answered for 17 blocks of 512 bytes.
pub const GO_REPLY: &[u8] =
    b"\x00\x03\xe8\x89\x04\x55\x65\xa9\x00\x00\x00\x07\x00\x00\x00\x03\x00\x00\x00\x0c\x00\x00\x00\x00\x00\x00\x00\x00\x22\x00\x00\x03\
    \x00\x03\xe8\x89\x04\x55\x65\xa9\x00\x00\x00\x07\x00\x00\x00\x03\x00\x00\x00\x0e\x00\x03\x00\x00\x00\x01\x00\x00\x02\x00\x02\
        \x00\x00\x00\
    \x00\x03\xe8\x89\x04\x55\x65\xa9\x00\x00\x00\x07\x00\x00\x00\x01\x00\x00\x00\x00";

pub const EIO: u32 = 5;

pub const ENOMEM: u32 = 12;

/// Adds a READ whose cookie is its offset.
pub fn add_read(bytes: &mut Vec<u8>, offset: u64, len: u32) -> Result<(), AllocError> {
    bytes.extend_from_slice(b"\x25\x60\x95\x13\x00\x00\x00\x00")?;
    bytes.extend_from_slice(&offset.to_be_bytes())?;
    bytes.extend_from_slice(&offset.to_be_bytes())?;
    bytes.extend_from_slice(&len.to_be_bytes())
}

/// The READ of a range.
pub fn read(alloc: Global, offset: u64, len: u32) -> Result<Vec<u8>, AllocError> {
    let mut bytes = Vec::new(alloc);
    add_read(&mut bytes, offset, len)?;
    Ok(bytes)
}

/// A client that greets and asks for these ranges.
pub fn client(alloc: Global, ranges: &[(u64, u32)]) -> Result<Vec<u8>, AllocError> {
    let mut bytes = Vec::from_slice(alloc, HELLO)?;
    for (offset, len) in ranges {
        add_read(&mut bytes, *offset, *len)?;
    }
    Ok(bytes)
}

/// Adds a reply to the READ at an offset.
pub fn add_reply(
    said: &mut Vec<u8>,
    offset: u64,
    error: u32,
    data: &[u8],
) -> Result<(), AllocError> {
    said.extend_from_slice(b"\x67\x44\x66\x98")?;
    said.extend_from_slice(&error.to_be_bytes())?;
    said.extend_from_slice(&offset.to_be_bytes())?;
    said.extend_from_slice(data)
}

/// The reply to the READ at an offset.
pub fn reply(alloc: Global, offset: u64, error: u32, data: &[u8]) -> Result<Vec<u8>, AllocError> {
    let mut said = Vec::new(alloc);
    add_reply(&mut said, offset, error, data)?;
    Ok(said)
}

/// A piece of these bytes.
pub fn piece(alloc: Global, bytes: &[u8]) -> Result<Piece, AllocError> {
    Ok(Piece::new(Vec::from_slice(alloc, bytes)?))
}

/// Puts behind other events that a session is fed these bytes.
pub fn feed(events: &mut Vec<Event>, session: u64, bytes: &[u8]) -> Result<(), AllocError> {
    let piece = piece(*events.allocator(), bytes)?;
    events.push(Event::Feed(session, piece))?;
    Ok(())
}

/// Serves one client by a hub, for so many turns at most.
pub fn serve_by<
    D: BlockStore + Drop,
    H: BlockStore + Drop,
    A: Allocator + Copy + Drop,
    N: Notices,
    W: Write,
>(
    hub: &mut Hub<D, H, A, N>,
    reader: &mut &[u8],
    writer: &mut W,
    limit: u64,
) -> Result<(), ServeFault> {
    let mut reader = CountedReader::new(reader);
    let mut writer = CountedWriter::new(writer);
    serve_stream(hub, &mut reader, &mut writer, limit)
}

/// Serves one client by a hub, whose end it is.
pub fn serve_once<
    D: BlockStore + Drop,
    H: BlockStore + Drop,
    A: Allocator + Copy + Drop,
    N: Notices + Drop,
>(mut hub: Hub<D, H, A, N>, mut input: &[u8], said: &mut Vec<u8>) -> Result<(), ServeFault> {
    serve_by(&mut hub, &mut input, said, 1000)
}

/// Does events with a hub.
pub fn run_by<D: BlockStore + Drop, H: BlockStore + Drop, A: Allocator + Copy + Drop, C: Allocator>(
    hub: &mut Hub<D, H, A>,
    events: &[Event],
    replies: &mut Vec<HubReply<A>, C>,
) -> Result<(), AllocError> {
    hub.run(events, replies)
}

/// Does events with a hub, whose end it is.
pub fn run_once<D: BlockStore + Drop, H: BlockStore + Drop, A: Allocator + Copy + Drop>(
    mut hub: Hub<D, H, A>,
    events: &[Event],
    replies: &mut Vec<HubReply<A>>,
) -> Result<(), AllocError> {
    run_by(&mut hub, events, replies)
}

/// The kind of a reply, or a refusal's number, and the number that it carries.
pub fn kind<A: Allocator>(reply: &HubReply<A>) -> (&'static str, u64) {
    match reply {
        HubReply::Opened(id, _) => ("opened", *id),
        HubReply::Fed(Status::Open, _) => ("open", 0),
        HubReply::Fed(Status::Ended, _) => ("ended", 0),
        HubReply::Fed(Status::Starved, _) => ("starved", 0),
        HubReply::Closed => ("closed", 0),
        HubReply::Refused(HubFault::Full) => ("H1", 0),
        HubReply::Refused(HubFault::NoMemory) => ("H2", 0),
        HubReply::Refused(HubFault::Unknown) => ("H3", 0),
        HubReply::Refused(HubFault::Spent) => ("H4", 0),
    }
}

/// What a session says by a reply.
pub fn words<A: Allocator>(reply: &HubReply<A>) -> &[u8] {
    match reply {
        HubReply::Opened(_, piece) | HubReply::Fed(_, piece) => piece.as_slice(),
        HubReply::Closed | HubReply::Refused(_) => &[],
    }
}

/// Which session says something by the reply to an event.
fn speaker(event: &Event, reply: &HubReply) -> Option<u64> {
    match (event, reply) {
        (Event::Open, HubReply::Opened(id, _)) => Some(*id),
        (Event::Feed(id, _), HubReply::Fed(_, _)) => Some(*id),
        _ => None,
    }
}

/// Adds what a session said.
pub fn said_by(
    session: u64,
    events: &[Event],
    replies: &[HubReply],
    said: &mut Vec<u8>,
) -> Result<(), AllocError> {
    for (event, reply) in events.iter().zip(replies) {
        if speaker(event, reply) == Some(session) {
            said.extend_from_slice(words(reply))?;
        }
    }
    Ok(())
}
