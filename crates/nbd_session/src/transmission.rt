//! "Transmission phase": what the server says to a request.
//!
//! | Request | Answer |
//! |---|---|
//! | READ 0, no flags, at most 33,554,432 bytes, not past the end | the bytes, or EIO, or ENOMEM |
//! | any other READ | EINVAL |
//! | WRITE 1 | EPERM after its payload; longer than 33,554,432 it ends the session |
//! | DISC 2 | no reply, and the session ends |
//! | TRIM 4, WRITE_ZEROES 6 | EPERM |
//! | all others | EINVAL |

ghost use Rattle.std.specs.Prelude.{◌≡◌, ◌≤◌, ◌+◌, ◌++◌, length, take, IfOk, IfSome, OnOk, OnErr};
ghost use Rattle.nbd_session.specs.Messages.{request_body};
ghost use Rattle.nbd_session.specs.Transmission.{may_read, phase_after_request, read_answer, request_answer, request_of, simple_reply};
ghost use Rattle.nbd_session.specs.Short.{header_asks};
ghost use Rattle.nbd_session.specs.Announcing.{IsReadOf};
ghost use Rattle.nbd_session.specs.Export.{Keeps, error_number};
ghost use Rattle.nbd_session.specs.Conversation.{AppendsAnswer, Grows};

use crate::export::{Export, ExportFault};
use crate::phase::Phase;
use crate::wire::{u16_at, u32_at, u64_at};
use byteorder::{BigEndian, ByteOrder};
use std::alloc::{AllocError, Allocator};

const NBD_REQUEST_MAGIC: u32 = 0x2560_9513;

const NBD_SIMPLE_REPLY_MAGIC: u32 = 0x6744_6698;

const NBD_CMD_READ: u16 = 0;

const NBD_CMD_WRITE: u16 = 1;

const NBD_CMD_DISC: u16 = 2;

const NBD_CMD_TRIM: u16 = 4;

const NBD_CMD_WRITE_ZEROES: u16 = 6;

const NBD_EPERM: u32 = 1;

const NBD_EIO: u32 = 5;

const NBD_ENOMEM: u32 = 12;

const NBD_EINVAL: u32 = 22;

/// The longest READ, and the longest payload of a WRITE, in bytes.
pub const MAX_LENGTH: u32 = 33_554_432;

/// The bytes of a request's header.
pub const HEADER_BYTES: usize = 28;

/// The fields of a request's header, behind its magic ("Request message").
#[derive(Clone, Copy, Debug)]
pub struct Request {
    pub flags: u16,
    pub kind: u16,
    pub cookie: [u8; 8],
    pub offset: u64,
    pub len: u32,
}

/// The size of a request's payload: a WRITE's, else none. A wrong magic and too long a payload end the session.
pub fn body_size(header: &[u8]) -> Option<u32>
    requires { 28 ≤ length header.now }
    ensures { result ≡ request_body header.now }
{
    if u32_at(header, 0) != NBD_REQUEST_MAGIC {
        return None;
    }
    if u16_at(header, 6) != NBD_CMD_WRITE {
        return Some(0);
    }
    let len = u32_at(header, 24);
    if len <= MAX_LENGTH { Some(len) } else { None }
}

impl Request {
    /// Reads the fields of a header.
    fn of(header: &[u8]) -> Request
        requires { 28 ≤ length header.now }
        ensures { result ≡ request_of header.now }
    {
        let mut cookie = [0u8; 8];
        cookie.copy_from_slice(&header[8..16]);
        Request {
            flags: u16_at(header, 4),
            kind: u16_at(header, 6),
            cookie,
            offset: u64_at(header, 16),
            len: u32_at(header, 24),
        }
    }

    /// Whether a READ's flags, length and range are allowed on an export of this size.
    fn may_read(&self, size: u64) -> bool
        ensures { result ≡ may_read size self.now }
    {
        let end = u128::from(self.offset) + u128::from(self.len);
        self.flags == 0 && self.len <= MAX_LENGTH && end <= u128::from(size)
    }
}

/// How many bytes a request asks of an export of this size: those of a READ that is allowed.
pub fn asked(size: u64, header: &[u8]) -> u32
    requires { 28 ≤ length header.now }
    ensures { result ≡ header_asks size header.now (request_body header.now) }
{
    if body_size(header).is_none() {
        return 0;
    }
    let request = Request::of(header);
    if request.kind == NBD_CMD_READ && request.may_read(size) {
        request.len
    } else {
        0
    }
}

/// The range of a READ, its offset and its length, where a request is one that is allowed and not empty.
pub fn range_of(size: u64, header: &[u8]) -> Option<(u64, u32)>
    requires { 28 ≤ length header.now }
    ensures { IfSome result (IsReadOf size header.now) }
{
    let Some(0) = body_size(header) else {
        return None;
    };
    let request = Request::of(header);
    if request.kind == NBD_CMD_READ && request.len > 0 && request.may_read(size) {
        Some((request.offset, request.len))
    } else {
        None
    }
}

/// The reply to a request, before any bytes ("Simple reply message").
fn simple_reply(error: u32, request: &Request) -> [u8; 16]
    ensures { result ≡ simple_reply error request.now.cookie }
{
    let mut reply = [0u8; 16];
    BigEndian::write_u32(&mut reply, NBD_SIMPLE_REPLY_MAGIC);
    BigEndian::write_u32(&mut reply[4..], error);
    reply[8..].copy_from_slice(&request.cookie);
    reply
}

/// The error that a reply names ("Error values").
fn error_number(fault: ExportFault) -> u32
    ensures { result ≡ error_number fault }
{
    match fault {
        ExportFault::Io => NBD_EIO,
        ExportFault::NoMemory => NBD_ENOMEM,
    }
}

/// Writes a reply's head over the one that was appended from `start` on.
fn overwrite_end(out: &mut [u8], start: usize, head: &[u8; 16])
    requires { start + 16 ≡ length out.old }
    ensures { out.new ≡ take start out.old ++ head.now }
{
    out[start..].copy_from_slice(head);
}

/// Answers a READ. The export appends its bytes behind the reply's head; where it refuses, the head alone is left,
/// with the error. Memory is refused only before the export is asked.
fn read<E: Export, A: Allocator>(
    size: u64,
    request: &Request,
    export: &mut E,
    out: &mut Vec<u8, A>,
) -> Result<(), AllocError>
    requires { size ≡ (E.facts export.old).size }
    ensures keeps { Keeps (E.facts export.old) (E.facts export.new) }
    ensures later { E.later export.old export.new }
    ensures ok { OnOk result (AppendsAnswer (E.facts export.old) (E.facts export.new)
        (read_answer size request.now) out.old.items out.new.items) }
    ensures err { OnErr result (Grows out.old.items out.new.items) }
    ensures unasked { OnErr result (export.new ≡ export.old) }
{
    if !request.may_read(size) {
        out.extend_from_slice(&simple_reply(NBD_EINVAL, request))?;
        return Ok(());
    }
    let start = out.len();
    out.extend_from_slice(&simple_reply(0, request))?;
    if request.len == 0 {
        return Ok(());
    }
    match export.read_at(request.offset, request.len as usize, out) {
        Ok(()) => Ok(()),
        Err(fault) => {
            let head = simple_reply(error_number(fault), request);
            overwrite_end(out, start, &head);
            Ok(())
        }
    }
}

/// Answers a request, and tells the phase after it.
pub fn answer_request<E: Export, A: Allocator>(
    size: u64,
    header: &[u8],
    export: &mut E,
    out: &mut Vec<u8, A>,
) -> Result<Phase, AllocError>
    requires header { 28 ≤ length header.now }
    requires size { size ≡ (E.facts export.old).size }
    ensures keeps { Keeps (E.facts export.old) (E.facts export.new) }
    ensures later { E.later export.old export.new }
    ensures phase { IfOk result (λ next. next ≡ phase_after_request (request_of header.now)) }
    ensures ok { OnOk result (AppendsAnswer (E.facts export.old) (E.facts export.new)
        (request_answer size (request_of header.now)) out.old.items out.new.items) }
    ensures err { OnErr result (Grows out.old.items out.new.items) }
    ensures unasked { OnErr result (export.new ≡ export.old) }
{
    let request = Request::of(header);
    match request.kind {
        NBD_CMD_READ => {
            read(size, &request, export, out)?;
            Ok(Phase::Transmission)
        }
        NBD_CMD_DISC => Ok(Phase::Ended),
        NBD_CMD_WRITE | NBD_CMD_TRIM | NBD_CMD_WRITE_ZEROES => {
            out.extend_from_slice(&simple_reply(NBD_EPERM, &request))?;
            Ok(Phase::Transmission)
        }
        _ => {
            out.extend_from_slice(&simple_reply(NBD_EINVAL, &request))?;
            Ok(Phase::Transmission)
        }
    }
}
