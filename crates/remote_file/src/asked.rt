//! A range that an NBD server was asked for, and whose reply wasn't taken yet.

ghost use Rattle.std.specs.Prelude.{◌≡◌, ◌++◌, ◌≤◌, length, IfOk, OnOk, IsTrue};
ghost use Rattle.std.specs.Io.KnownBytes.{Appends, Consumes, Keeps};
ghost use Rattle.remote_nbd.specs.Messages.{read_request, simple_reply};

use crate::dial::Dial;
use crate::source::Miss;
use remote_nbd::{Answer, ask_at, skip_reply, take_reply};
use remote_wire::Wire;
use std::io::{self, ErrorKind};
use std::time::Duration;

/// A connection over which a range was asked for; the reply wasn't taken yet.
#[derive(Drop)]
pub(crate) struct Asked<D: Dial> {
    wire: D::Wire,
    cookie: u64,
    at: u64,
    len: usize,
}

impl<D: Dial> Asked<D> {
    /// Asks for a range under a cookie of its own.
    ///
    /// # Errors
    ///
    /// What the connection answers, which is dropped.
    pub(crate) fn new(mut wire: D::Wire, cookie: u64, at: u64, len: usize) -> io::Result<Asked<D>>
        requires { len ≤ 33554432 }
        ensures asked { IfOk result (λ asked. Appends (D.Wire.contents wire) (D.Wire.contents asked.wire)
            (read_request asked.cookie asked.at asked.len)) }
        ensures cookie { IfOk result (λ asked. asked.cookie ≡ cookie) }
        ensures at { IfOk result (λ asked. asked.at ≡ at) }
        ensures len { IfOk result (λ asked. asked.len ≡ len) }
    {
        ask_at(&mut wire, cookie, at, len as u32)?;
        Ok(Asked {
            wire,
            cookie,
            at,
            len,
        })
    }

    /// Whether this range was asked for.
    pub(crate) fn is_of(&self, at: u64, len: usize) -> bool
        ensures at { IsTrue result → self.now.at ≡ at }
        ensures len { IsTrue result → self.now.len ≡ len }
    {
        self.at == at && self.len == len
    }

    /// How many bytes were asked for.
    pub(crate) fn len(&self) -> usize
        ensures { result ≡ self.now.len }
    {
        self.len
    }

    /// Takes the bytes of just this range by then, and the connection.
    ///
    /// # Errors
    ///
    /// `Refused` where the server answered otherwise, and `Lost` where the connection failed. It is dropped.
    pub(crate) fn take(
        self,
        dial: &D,
        until: Duration,
        at: u64,
        out: &mut [u8],
    ) -> Result<D::Wire, Miss>
        requires at { self.at ≡ at }
        requires len { self.len ≡ length out.old }
        ensures { IfOk result (λ wire. Consumes (D.Wire.remaining self.wire) (D.Wire.remaining wire)
            (simple_reply 0 self.cookie ++ out.new)) }
    {
        let mut wire = self.wire;
        dial.extend(&mut wire, until);
        take_bytes(&mut wire, self.cookie, out)?;
        Ok(wire)
    }

    /// Takes the reply by then and drops it; the connection, where it can be used again.
    pub(crate) fn skip(self, dial: &D, until: Duration) -> Option<D::Wire> {
        let mut wire = self.wire;
        dial.extend(&mut wire, until);
        match skip_reply(&mut wire, self.cookie, self.len) {
            Ok(()) => Some(wire),
            Err(_) => None,
        }
    }
}

/// Takes the bytes that a request of this cookie asked for.
pub(crate) fn take_bytes<W: Wire>(wire: &mut W, cookie: u64, out: &mut [u8]) -> Result<(), Miss>
    ensures given { OnOk result (Consumes (W.remaining wire.old) (W.remaining wire.new) (simple_reply 0 cookie ++ out.new)) }
    ensures unwritten { OnOk result (Keeps (W.contents wire.old) (W.contents wire.new)) }
{
    match take_reply(wire, cookie, out) {
        Ok(Answer::Given) => Ok(()),
        Ok(Answer::Refused(_)) => Err(Miss::Refused(ErrorKind::Other)),
        Err(e) => Err(lost_or_lied(e)),
    }
}

/// A reply to no request of ours is an answer; every other error is the connection's.
fn lost_or_lied(error: io::Error) -> Miss {
    match error.kind() {
        ErrorKind::InvalidData => Miss::Refused(ErrorKind::InvalidData),
        kind => Miss::Lost(kind),
    }
}
