//! What waiting requests will ask for is told to the export beforehand; they are answered as they are without.

use crate::logged::{Call, Logged, make_logged};
use crate::talk::Talk;
use crate::waiting::{BEGUN, HELLO, LONG_HELLO, ROWS, Request, Row, bytes_of, reads};
use nbd_hub::Sessions;
use nbd_relay::{Asks, Client, Pair, Turn};
use nbd_session::ExportName;
use std::alloc::{AllocError, Global};
use std::io::{self, Read};
use std::test::Fail;

/// A reader of some bytes, and then of others: no read gives bytes of both.
#[derive(Drop)]
struct Parts<'a> {
    first: &'a [u8],
    last: &'a [u8],
}

impl Read for Parts<'_> {
    fn read(&mut self, buf: &mut [u8]) -> io::Result<usize> {
        if self.first.is_empty() {
            self.last.read(buf)
        } else {
            self.first.read(buf)
        }
    }
}

type Pipe<'a> = Pair<Parts<'a>, Vec<u8>>;

/// What a client is sent, and what the export was told and asked for it.
#[derive(Drop)]
struct Served {
    said: Vec<u8>,
    calls: Vec<Call>,
}

fn make_hub(alloc: Global) -> Result<Sessions<Logged>, Fail> {
    let export = make_logged(alloc)?;
    Ok(Sessions::new(alloc, export, ExportName::new(b"vol")?))
}

fn open<'a>(
    alloc: Global,
    hub: &mut Sessions<Logged>,
    first: &'a [u8],
    last: &'a [u8],
) -> Result<Client<Pipe<'a>>, Fail> {
    let pipe = Pair {
        reader: Parts { first, last },
        writer: Vec::new(alloc),
        asks: Asks::new(),
    };
    match Client::open(alloc, pipe, hub) {
        Ok(client) => Ok(client),
        Err((fault, _)) => Err(fault.into()),
    }
}

/// Serves a client that sends some bytes, and then others, in turns up to its end.
fn serve(alloc: Global, first: &[u8], last: &[u8]) -> Result<Served, Fail> {
    let mut hub = make_hub(alloc)?;
    let mut client = open(alloc, &mut hub, first, last)?;
    for _ in 0..10_000u64 {
        if let Turn::Done = client.turn(&mut hub) {
            break;
        }
    }
    Ok(Served {
        said: client.stream().writer.clone()?,
        calls: hub.export().calls.clone()?,
    })
}

/// What a session is sent that is fed all of it at once, by no relay.
fn feed(alloc: Global, first: &[u8], last: &[u8]) -> Result<Served, Fail> {
    let mut hub = make_hub(alloc)?;
    let mut said = Vec::new(alloc);
    let id = hub.open(&mut said)?;
    hub.feed(id, first, &mut said)?;
    hub.feed(id, last, &mut said)?;
    Ok(Served {
        said,
        calls: hub.export().calls.clone()?,
    })
}

/// Whether the export is told and asked what the row says, and whether the client is sent what it is sent without a relay.
fn is_served(alloc: Global, row: &Row) -> Result<(bool, bool), Fail> {
    let bytes = bytes_of(alloc, row.requests)?;
    let served = serve(alloc, row.hello, &bytes)?;
    let fed = feed(alloc, row.hello, &bytes)?;
    Ok((
        served.calls.as_slice() == row.calls,
        served.said.as_slice() == fed.said.as_slice(),
    ))
}

#[test]
fn waiting_reads_are_announced(rt: HostRuntime) -> Result<(), Fail> {
    for row in &ROWS {
        assert_eq!(rt; is_served(rt.alloc(), row)?, (true, true), "{}", row.name);
    }
    Ok(())
}

/// Adds what an export is told of some READs.
fn add_told(calls: &mut Vec<Call>, requests: &[Request]) -> Result<(), AllocError> {
    for request in requests {
        if let Request::Read(offset, len) = *request {
            calls.push(Call::Told(offset, len))?;
        }
    }
    Ok(())
}

/// Adds what it is asked for them.
fn add_asked(calls: &mut Vec<Call>, requests: &[Request]) -> Result<(), AllocError> {
    for request in requests {
        if let Request::Read(offset, len) = *request {
            calls.push(Call::Read(offset, len as usize))?;
        }
    }
    Ok(())
}

/// Whether 16 READs are announced by eights, and whether their replies are those without a relay.
fn is_announced_by_eights(alloc: Global) -> Result<(bool, bool), Fail> {
    let requests = reads(alloc, 16)?;
    let mut calls = Vec::new(alloc);
    for eight in requests.chunks(8) {
        add_told(&mut calls, eight)?;
        add_asked(&mut calls, eight)?;
    }
    let bytes = bytes_of(alloc, &requests)?;
    let served = serve(alloc, HELLO, &bytes)?;
    let fed = feed(alloc, HELLO, &bytes)?;
    Ok((
        served.calls.as_slice() == calls.as_slice(),
        served.said.as_slice() == fed.said.as_slice(),
    ))
}

#[test]
fn sixteen_reads_are_announced_by_eights(rt: HostRuntime) -> Result<(), Fail> {
    assert_eq!(rt; is_announced_by_eights(rt.alloc())?, (true, true));
    Ok(())
}

/// What the export was asked, without what it was told.
fn asked(alloc: Global, calls: &[Call]) -> Result<Vec<Call>, AllocError> {
    let mut asked = Vec::new(alloc);
    for call in calls {
        if let Call::Read(_, _) = call {
            asked.push(*call)?;
        }
    }
    Ok(asked)
}

/// Whether a client is sent the same, and the export is asked the same, where what it sends is cut at a byte.
fn is_served_cut(alloc: Global, bytes: &[u8], at: usize) -> Result<bool, Fail> {
    let (first, last) = bytes.split_at(at.min(bytes.len()));
    let served = serve(alloc, first, last)?;
    let fed = feed(alloc, first, last)?;
    let asked = asked(alloc, &served.calls)?;
    Ok(asked.as_slice() == fed.calls.as_slice() && served.said.as_slice() == fed.said.as_slice())
}

/// A handshake and four READs.
fn five_messages(alloc: Global) -> Result<Vec<u8>, AllocError> {
    let mut bytes = Vec::from_slice(alloc, HELLO)?;
    let requests = reads(alloc, 4)?;
    bytes.extend_from_slice(&bytes_of(alloc, &requests)?)?;
    Ok(bytes)
}

#[test]
fn requests_cut_at_each_byte_are_answered_alike(rt: HostRuntime) -> Result<(), Fail> {
    let bytes = five_messages(rt.alloc())?;
    for at in 0..=bytes.len() {
        let is_alike = is_served_cut(rt.alloc(), &bytes, at)?;
        assert!(rt; is_alike, "cut at {at}");
    }
    Ok(())
}

/// What a session notes in three places of so many bytes of four READs that wait, behind what it was fed.
fn noted(alloc: Global, fed: &[u8], waiting: usize) -> Result<(usize, [(u64, u32); 3]), Fail> {
    let mut said = Vec::new(alloc);
    let mut talk = Talk::open(alloc, None, &mut said)?;
    talk.feed(fed, &mut said);
    let bytes = bytes_of(alloc, &reads(alloc, 4)?)?;
    let mut ranges = [(9, 9); 3];
    let noted = talk.ahead(bytes.get(..waiting).unwrap_or(&bytes), &mut ranges);
    Ok((noted, ranges))
}

#[test]
fn whole_headers_are_noted_where_a_request_begins(rt: HostRuntime) -> Result<(), Fail> {
    let none = (0, [(9, 9); 3]);
    let all = (3, [(1536, 512), (1024, 512), (512, 512)]);
    let one = (1, [(1536, 512), (9, 9), (9, 9)]);
    assert_eq!(rt; noted(rt.alloc(), HELLO, 112)?, all);
    assert_eq!(rt; noted(rt.alloc(), HELLO, 84)?, all);
    assert_eq!(rt; noted(rt.alloc(), HELLO, 55)?, one);
    assert_eq!(rt; noted(rt.alloc(), HELLO, 27)?, none);
    assert_eq!(rt; noted(rt.alloc(), b"", 112)?, none);
    assert_eq!(rt; noted(rt.alloc(), LONG_HELLO, 112)?, all);
    assert_eq!(rt; noted(rt.alloc(), BEGUN, 112)?, none);
    Ok(())
}
