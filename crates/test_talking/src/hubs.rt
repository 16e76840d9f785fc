//! Hubs over exports in memory, and what is done with them.

use crate::image::{Image, make_image};
use nbd_hub::{CountedReader, CountedWriter, HubFault, ServeFault, Sessions, serve};
use nbd_session::{ExportName, Status};
use std::alloc::{AllocError, Global};
use std::io::{self, ErrorKind, Read, Write};
use std::test::Fail;

/// A hub over this export.
pub fn make_sessions_over(alloc: Global, image: Image) -> Result<Sessions<Image>, Fail> {
    Ok(Sessions::new(alloc, image, ExportName::new(b"vol")?))
}

/// A hub over 8,704 bytes.
pub fn make_sessions(alloc: Global) -> Result<Sessions<Image>, Fail> {
    make_sessions_over(alloc, make_image(alloc, None)?)
}

/// Opens a session.
pub fn open(hub: &mut Sessions<Image>, said: &mut Vec<u8>) -> Result<u64, HubFault> {
    hub.open(said)
}

/// Feeds a session a piece.
pub fn feed(
    hub: &mut Sessions<Image>,
    id: u64,
    piece: &[u8],
    said: &mut Vec<u8>,
) -> Result<Status, HubFault> {
    hub.feed(id, piece, said)
}

/// Ends a session.
pub fn end(hub: &mut Sessions<Image>, id: u64) -> Result<(), HubFault> {
    hub.end(id)
}

/// How the two ends of a stream are.
#[derive(Clone, Copy, Debug, PartialEq, Eq)]
pub enum Ends {
    /// The reader ends, and the writer takes all.
    Open,
    /// The writer takes no byte.
    FullWriter,
    /// A read behind the last byte fails.
    CutReader,
}

/// A reader of these bytes, behind which a read fails or there are no more.
#[derive(Drop)]
struct Source<'a> {
    rest: &'a [u8],
    is_cut: bool,
}

impl Read for Source<'_> {
    fn read(&mut self, buf: &mut [u8]) -> io::Result<usize> {
        if self.is_cut && self.rest.is_empty() {
            return Err(io::Error::from(ErrorKind::ConnectionReset));
        }
        self.rest.read(buf)
    }
}

/// A writer that keeps what it was given, or takes no byte where it is full.
#[derive(Drop)]
struct Keeper {
    kept: Vec<u8>,
    is_full: bool,
    /// How many bytes it had been given when it was last flushed.
    flushed: usize,
}

impl Write for Keeper {
    fn write(&mut self, buf: &[u8]) -> io::Result<usize> {
        if self.is_full {
            return Ok(0);
        }
        self.kept.extend_from_slice(buf)?;
        Ok(buf.len())
    }

    fn flush(&mut self) -> io::Result<()> {
        self.flushed = self.kept.len();
        Ok(())
    }
}

/// How a stream was served.
#[derive(Clone, Copy, Debug, PartialEq, Eq)]
pub struct Served {
    pub result: Result<(), ServeFault>,
    /// Whether what was said is what was to be said.
    pub is_said: bool,
    /// Whether all of it was flushed.
    pub is_flushed: bool,
    /// How many bytes of the input were not read.
    pub left: usize,
}

/// Serves one client whose input this is, for so many turns at most, over such ends.
pub fn serve_one(
    alloc: Global,
    hub: &mut Sessions<Image>,
    input: &[u8],
    limit: u64,
    ends: Ends,
    wanted: &[u8],
) -> Served {
    let mut writer = CountedWriter::new(Keeper {
        kept: Vec::new(alloc),
        is_full: ends == Ends::FullWriter,
        flushed: 0,
    });
    let mut reader = CountedReader::new(Source {
        rest: input,
        is_cut: ends == Ends::CutReader,
    });
    let result = serve(hub, &mut reader, &mut writer, limit);
    let kept = writer.writer.kept.as_slice();
    Served {
        result,
        is_said: kept == wanted,
        is_flushed: writer.writer.flushed == kept.len(),
        left: reader.reader.rest.len(),
    }
}

/// Serves one client of a new hub.
pub fn serve_alone(alloc: Global, input: &[u8], limit: u64, wanted: &[u8]) -> Result<Served, Fail> {
    let mut hub = make_sessions(alloc)?;
    Ok(serve_one(alloc, &mut hub, input, limit, Ends::Open, wanted))
}

const GREETING: &[u8] = b"NBDMAGICIHAVEOPT\x00\x03";

/// Client flags; option 8; GO without a name; READ of the last byte.
pub const INPUT: &[u8] = b"\x00\x00\x00\x03\
    IHAVEOPT\x00\x00\x00\x08\x00\x00\x00\x00\
    IHAVEOPT\x00\x00\x00\x07\x00\x00\x00\x06\x00\x00\x00\x00\x00\x00\
    \x25\x60\x95\x13\x00\x00\x00\x00\x01\x02\x03\x04\x05\x06\x07\x08\x00\x00\x00\x00\x00\x00\x21\xff\x00\x00\x00\x01";

/// Where each message of the input is whole, and what is then said.
const REPLIES: [(usize, &[u8]); 3] = [
    (
        20,
        b"\x00\x03\xe8\x89\x04\x55\x65\xa9\x00\x00\x00\x08\x80\x00\x00\x01\x00\x00\x00\x00",
    ),
    (
        42,
        b"\x00\x03\xe8\x89\x04\x55\x65\xa9\x00\x00\x00\x07\x00\x00\x00\x03\x00\x00\x00\x0c\x00\x00\x00\x00\x00\x00\x00\x00\x22\x00\x00\x03\
        \x00\x03\xe8\x89\x04\x55\x65\xa9\x00\x00\x00\x07\x00\x00\x00\x01\x00\x00\x00\x00",
    ),
    (
        70,
        b"\x67\x44\x66\x98\x00\x00\x00\x00\x01\x02\x03\x04\x05\x06\x07\x08\x5a",
    ),
];

/// What is to be said to so many bytes of the input.
pub fn expected(alloc: Global, len: usize) -> Result<Vec<u8>, AllocError> {
    let mut said = Vec::from_slice(alloc, GREETING)?;
    for (end, reply) in REPLIES {
        if end <= len {
            said.extend_from_slice(reply)?;
        }
    }
    Ok(said)
}
