//! What is said to an input, and bytes spelled in digits.

ghost use Rattle.std.specs.Prelude.{◌<◌, ◌≡◌, length};

use crate::image::{Image, make_image};
use nbd_session::{ExportFault, ExportName, Session, Status};
use std::alloc::{AllocError, Global};
use std::test::Fail;

/// A session and what it reads from.
#[derive(Drop)]
pub struct Talk {
    session: Session,
    image: Image,
    ghost same: { session.offer.size ≡ length image.bytes.items },
}

impl Talk {
    /// A session that has greeted.
    pub fn open(
        alloc: Global,
        refusal: Option<ExportFault>,
        out: &mut Vec<u8>,
    ) -> Result<Talk, Fail> {
        let image = make_image(alloc, refusal)?;
        let session = Session::open(alloc, ExportName::new(b"vol")?, 8_704, 512, out)?;
        Ok(Talk { session, image })
    }

    /// Feeds it a piece.
    pub fn feed(&mut self, piece: &[u8], out: &mut Vec<u8>) -> Status {
        self.session.feed(piece, &mut self.image, out)
    }

    /// Notes what the READs that wait ask for, and tells how many it noted.
    pub fn ahead(&self, waiting: &[u8], ranges: &mut [(u64, u32)]) -> usize {
        self.session.ahead(waiting, ranges)
    }
}

/// What is said to an input that comes in a first piece of `first` bytes and then in pieces of `step` bytes, and how
/// the session stands in the end.
pub fn said(
    alloc: Global,
    input: &[u8],
    first: usize,
    step: usize,
    refusal: Option<ExportFault>,
) -> Result<(Vec<u8>, Status), Fail>
    requires { 0 < step }
{
    let mut out = Vec::new(alloc);
    let mut talk = Talk::open(alloc, refusal, &mut out)?;
    let (front, rest) = input.split_at(first.min(input.len()));
    let mut status = talk.feed(front, &mut out);
    for piece in rest.chunks(step) {
        status = talk.feed(piece, &mut out);
    }
    Ok((out, status))
}

/// Whether this is said, and how the session stands in the end.
pub fn is_said(
    alloc: Global,
    input: &[u8],
    pieces: (usize, usize),
    refusal: Option<ExportFault>,
    output: &[u8],
) -> Result<(bool, Status), Fail>
    requires { 0 < pieces.1 }
{
    let (out, status) = said(alloc, input, pieces.0, pieces.1, refusal)?;
    Ok((out.as_slice() == output, status))
}

/// The value of a hexadecimal digit, or none of a blank.
fn digit(byte: u8) -> Option<u8> {
    let value = char::from(byte).to_digit(16)?;
    u8::try_from(value).ok()
}

/// The bytes that a text spells in hexadecimal digits, blanks apart.
pub fn spelled(alloc: Global, text: &str) -> Result<Vec<u8>, AllocError> {
    let mut bytes = Vec::new(alloc);
    let mut high = None;
    for &byte in text.as_bytes() {
        let Some(value) = digit(byte) else {
            continue;
        };
        match high {
            None => high = Some(value),
            Some(first) => {
                bytes.push(first << 4 | value)?;
                high = None;
            }
        }
    }
    Ok(bytes)
}

/// The bytes that texts spell, one after the other.
pub fn all_spelled(alloc: Global, texts: &[&str]) -> Result<Vec<u8>, AllocError> {
    let mut bytes = Vec::new(alloc);
    for text in texts {
        bytes.extend_from_slice(&spelled(alloc, text)?)?;
    }
    Ok(bytes)
}
