//! A range of a resource.

ghost use Rattle.std.specs.Prelude.{◌≡◌, ◌+◌, ◌-◌, ◌≤◌, ◌<◌, ◌^◌, length, IfOk, OnOk};
ghost use Rattle.std.specs.Io.KnownBytes.{Appends, Keeps};
ghost use Rattle.remote_http.specs.Ranges.{GivesRange};
ghost use Rattle.remote_http.specs.Requests.{range_request};

use crate::body::read_body;
use crate::checks::{check_length, check_plain, check_range, check_status, check_whole, closes};
use crate::fault::RangeFault;
use crate::head::read_head;
use crate::texts::put_request;
use httparse::spans::EMPTY_HEADER_SPAN;
use remote_wire::{Wire, send_all};
use std::alloc::{AllocError, Global};

/// The most bytes of a head, with what comes of the body in the same pieces.
const HEAD_BYTES: usize = 16_384;

/// The most fields of a head.
const FIELDS: usize = 64;

/// What a resource is called at its server.
#[derive(Clone, Copy, Debug)]
pub struct Place<'a> {
    /// The host and, where it isn't 80, the port.
    pub host: &'a str,
    /// The path, and the query where there is one.
    pub target: &'a str,
}

/// Memory for heads and texts, used again for each request: 16 KiB, and what a request's text takes.
#[derive(Drop)]
pub struct Scratch {
    alloc: Global,
    head: Vec<u8>,
    text: Vec<u8>,
}

impl Scratch {
    pub fn new(alloc: Global) -> Result<Scratch, AllocError> {
        Ok(Scratch {
            alloc,
            head: vec![in alloc; 0; HEAD_BYTES]?,
            text: Vec::with_capacity(alloc, 256)?,
        })
    }
}

/// What a response states beside the bytes.
#[derive(Clone, Copy, Debug)]
pub struct Given {
    /// How many bytes the resource has.
    pub total: u64,
    /// Whether the connection can be used again.
    pub is_kept: bool,
}

/// Reads as many bytes as `out` has, at least one, from offset `first` on: one request, and its response.
///
/// # Errors
///
/// `RangeFault` says which. The connection is of no use then.
pub fn get_range<W: Wire>(
    wire: &mut W,
    scratch: &mut Scratch,
    place: &Place<'_>,
    first: u64,
    out: &mut [u8],
) -> Result<Given, RangeFault>
    requires some { 0 < length out.old }
    requires fits { first + length out.old ≤ 2 ^ 64 }
    ensures given { IfOk result (λ g. GivesRange (W.remaining wire.old) (W.remaining wire.new) first out.new g.total) }
    ensures asked { OnOk result (Appends (W.contents wire.old) (W.contents wire.new)
        (range_request place.now.host.now place.now.target.now first (first + (length out.new - 1)))) }
{
    let last = first + (out.len() as u64 - 1);
    put_request(&mut scratch.text, place.host, place.target, first, last)?;
    send_all(wire, &scratch.text)?;
    take_response(
        wire,
        &mut scratch.head,
        &mut scratch.text,
        scratch.alloc,
        first,
        out,
    )
}

/// Takes the response to the request for a range.
fn take_response<W: Wire>(
    wire: &mut W,
    buf: &mut [u8],
    text: &mut Vec<u8>,
    alloc: Global,
    first: u64,
    out: &mut [u8],
) -> Result<Given, RangeFault>
    requires some { 0 < length out.old }
    requires fits { first + length out.old ≤ 2 ^ 64 }
    ensures given { IfOk result (λ g. GivesRange (W.remaining wire.old) (W.remaining wire.new) first out.new g.total) }
    ensures unwritten { OnOk result (Keeps (W.contents wire.old) (W.contents wire.new)) }
{
    let last = first + (out.len() as u64 - 1);
    let mut fields = [EMPTY_HEADER_SPAN; FIELDS];
    let head = read_head(wire, buf, &mut fields)?;
    let said = &buf[..head.filled];
    let fields = &fields[..head.spans.headers];
    check_status(said, fields, alloc, head.spans.code)?;
    let total = check_range(said, fields, text, first, last)?;
    check_length(said, fields, text, out.len())?;
    check_whole(said, fields)?;
    check_plain(said, fields)?;
    let is_kept = head.spans.version == 1 && !closes(said, fields);
    read_body(wire, &said[head.spans.len..], out)?;
    Ok(Given { total, is_kept })
}
