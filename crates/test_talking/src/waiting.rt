//! Requests that wait, and what an export is told and asked for them.

use crate::logged::Call;
use std::alloc::{AllocError, Global};

/// Client flags, and EXPORT_NAME with the empty name.
pub const HELLO: &[u8] = b"\x00\x00\x00\x03IHAVEOPT\x00\x00\x00\x01\x00\x00\x00\x00";

/// The same with an option 10 before, whose data are the headers of two READs.
pub const LONG_HELLO: &[u8] = b"\x00\x00\x00\x03IHAVEOPT\x00\x00\x00\x0a\x00\x00\x00\x38\
    \x25\x60\x95\x13\x00\x00\x00\x00\x01\x02\x03\x04\x05\x06\x07\x08\x00\x00\x00\x00\x00\x00\x00\x00\x00\x00\x00\x01\
    \x25\x60\x95\x13\x00\x00\x00\x00\x01\x02\x03\x04\x05\x06\x07\x08\x00\x00\x00\x00\x00\x00\x00\x01\x00\x00\x00\x01\
    IHAVEOPT\x00\x00\x00\x01\x00\x00\x00\x00";

/// Client flags, EXPORT_NAME, and the first byte of a request.
pub const BEGUN: &[u8] = b"\x00\x00\x00\x03IHAVEOPT\x00\x00\x00\x01\x00\x00\x00\x00\x25";

/// A request.
#[derive(Clone, Copy)]
pub enum Request {
    /// A READ of a range.
    Read(u64, u32),
    /// A READ of a byte with a flag.
    Flagged,
    /// A WRITE of 28 bytes.
    Write,
    /// A header that has another magic.
    Strange,
}

/// Adds a request's header: its magic, flags and type as one number, and the offset for its cookie too.
fn add_header(
    bytes: &mut Vec<u8>,
    magic: u32,
    kind: u32,
    offset: u64,
    len: u32,
) -> Result<(), AllocError> {
    bytes.extend_from_slice(&magic.to_be_bytes())?;
    bytes.extend_from_slice(&kind.to_be_bytes())?;
    bytes.extend_from_slice(&offset.to_be_bytes())?;
    bytes.extend_from_slice(&offset.to_be_bytes())?;
    bytes.extend_from_slice(&len.to_be_bytes())
}

/// The bytes of requests.
pub fn bytes_of(alloc: Global, requests: &[Request]) -> Result<Vec<u8>, AllocError> {
    let mut bytes = Vec::new(alloc);
    for request in requests {
        match *request {
            Request::Read(offset, len) => add_header(&mut bytes, 0x2560_9513, 0, offset, len)?,
            Request::Flagged => add_header(&mut bytes, 0x2560_9513, 1 << 16, 7, 1)?,
            Request::Write => {
                add_header(&mut bytes, 0x2560_9513, 1, 7, 28)?;
                bytes.extend_from_slice(&[0x25; 28])?;
            }
            Request::Strange => add_header(&mut bytes, 0x2560_9514, 0, 7, 1)?,
        }
    }
    Ok(bytes)
}

/// READs of the blocks from one number on, the last of which comes first.
pub fn reads(alloc: Global, blocks: u8) -> Result<Vec<Request>, AllocError> {
    let mut reads = Vec::new(alloc);
    for block in (0..blocks).rev() {
        reads.push(Request::Read(u64::from(block) * 512, 512))?;
    }
    Ok(reads)
}

/// What a client sends behind a handshake, and what the export is told and asked for it.
pub struct Row {
    pub name: &'static str,
    pub hello: &'static [u8],
    pub requests: &'static [Request],
    pub calls: &'static [Call],
}

pub static ROWS: [Row; 9] = [
    Row {
        name: "a lone READ isn't announced",
        hello: HELLO,
        requests: &[Request::Read(512, 512)],
        calls: &[Call::Read(512, 512)],
    },
    Row {
        name: "two are",
        hello: HELLO,
        requests: &[Request::Read(512, 512), Request::Read(0, 8704)],
        calls: &[
            Call::Told(512, 512),
            Call::Told(0, 8704),
            Call::Read(512, 512),
            Call::Read(0, 8704),
        ],
    },
    Row {
        name: "a handshake isn't",
        hello: LONG_HELLO,
        requests: &[Request::Read(1, 1), Request::Read(2, 1)],
        calls: &[
            Call::Told(1, 1),
            Call::Told(2, 1),
            Call::Read(1, 1),
            Call::Read(2, 1),
        ],
    },
    Row {
        name: "nor one before another request",
        hello: HELLO,
        requests: &[
            Request::Read(1, 1),
            Request::Flagged,
            Request::Read(2, 1),
            Request::Read(3, 1),
        ],
        calls: &[Call::Read(1, 1), Call::Read(2, 1), Call::Read(3, 1)],
    },
    Row {
        name: "a WRITE ends what is announced",
        hello: HELLO,
        requests: &[
            Request::Read(1, 1),
            Request::Read(2, 1),
            Request::Write,
            Request::Read(3, 1),
            Request::Read(4, 1),
        ],
        calls: &[
            Call::Told(1, 1),
            Call::Told(2, 1),
            Call::Read(1, 1),
            Call::Read(2, 1),
            Call::Read(3, 1),
            Call::Read(4, 1),
        ],
    },
    Row {
        name: "and so does another magic",
        hello: HELLO,
        requests: &[
            Request::Read(1, 1),
            Request::Read(2, 1),
            Request::Strange,
            Request::Read(3, 1),
        ],
        calls: &[
            Call::Told(1, 1),
            Call::Told(2, 1),
            Call::Read(1, 1),
            Call::Read(2, 1),
        ],
    },
    Row {
        name: "and a READ past the end",
        hello: HELLO,
        requests: &[
            Request::Read(8703, 1),
            Request::Read(0, 8704),
            Request::Read(8703, 2),
            Request::Read(3, 1),
        ],
        calls: &[
            Call::Told(8703, 1),
            Call::Told(0, 8704),
            Call::Read(8703, 1),
            Call::Read(0, 8704),
            Call::Read(3, 1),
        ],
    },
    Row {
        name: "and an empty one",
        hello: HELLO,
        requests: &[
            Request::Read(1, 1),
            Request::Read(2, 1),
            Request::Read(3, 0),
            Request::Read(4, 1),
        ],
        calls: &[
            Call::Told(1, 1),
            Call::Told(2, 1),
            Call::Read(1, 1),
            Call::Read(2, 1),
            Call::Read(4, 1),
        ],
    },
    Row {
        name: "and one with flags",
        hello: HELLO,
        requests: &[
            Request::Read(1, 1),
            Request::Read(2, 1),
            Request::Flagged,
            Request::Read(4, 1),
        ],
        calls: &[
            Call::Told(1, 1),
            Call::Told(2, 1),
            Call::Read(1, 1),
            Call::Read(2, 1),
            Call::Read(4, 1),
        ],
    },
];
