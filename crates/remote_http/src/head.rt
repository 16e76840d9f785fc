//! The head of a response.

ghost use Rattle.std.specs.Prelude.{◌≡◌, ◌≤◌, length, take, IfOk, OnOk};
ghost use Rattle.std.specs.Io.KnownBytes.{Consumes, Keeps};
ghost use Rattle.httparse.specs.Spans.{IsResponseOf, IsResponseWithin};

use crate::fault::RangeFault;
use httparse::Status;
use httparse::spans::{HeaderSpan, ResponseSpans, parse_response};
use remote_wire::Wire;
use std::io::{self, ErrorKind};

/// A head that was read, and how many bytes were read with it: bytes of the body may have come behind it.
#[derive(Clone, Copy, Debug)]
pub struct Head {
    pub spans: ResponseSpans,
    pub filled: usize,
}

/// Reads until a head is whole, and writes where its fields are to the front of `fields`.
///
/// # Errors
///
/// `Connection` with what the connection answers, and with `UnexpectedEof` where the server ends it before; `NotHttp` where it is no head,
/// or has more bytes than `buf` or more fields than `fields`.
pub fn read_head<W: Wire>(
    wire: &mut W,
    buf: &mut [u8],
    fields: &mut [HeaderSpan],
) -> Result<Head, RangeFault>
    ensures given { IfOk result (λ h. Consumes (W.remaining wire.old) (W.remaining wire.new) (take h.filled buf.new)) }
    ensures unwritten { OnOk result (Keeps (W.contents wire.old) (W.contents wire.new)) }
    ensures filled { IfOk result (λ h. h.filled ≤ length buf.new) }
    ensures head { IfOk result (λ h. IsResponseOf (take h.filled buf.new) fields.new h.spans) }
    ensures within { IfOk result (λ h. IsResponseWithin (take h.filled buf.new) fields.new h.spans) }
{
    let mut filled = 0;
    'turns: for _turn in 0..u64::MAX {
        if filled >= buf.len() {
            return Err(RangeFault::NotHttp);
        }
        match wire.receive(&mut buf[filled..]) {
            Ok(0) => return Err(ended(ErrorKind::UnexpectedEof)),
            Ok(n) => {
                filled += n;
                match parse_response(&buf[..filled], fields) {
                    Ok(Status::Complete(spans)) => return Ok(Head { spans, filled }),
                    Ok(Status::Partial) => {}
                    Err(_) => return Err(RangeFault::NotHttp),
                }
            }
            Err(e) => {
                if e.kind() != ErrorKind::Interrupted {
                    return Err(RangeFault::Connection(e));
                }
            }
        }
    }
    Err(ended(ErrorKind::TimedOut))
}

/// The connection ended early.
fn ended(kind: ErrorKind) -> RangeFault {
    RangeFault::Connection(io::Error::from(kind))
}
