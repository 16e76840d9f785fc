//! A resource of an HTTP server.

ghost use Rattle.std.specs.Prelude.{◌≡◌, ◌+◌, ◌-◌, ◌<◌, ◌≤◌, ◌^◌, length, IfOk, OnOk, string_bytes};
ghost use Rattle.std.specs.Io.KnownBytes.{Appends};
ghost use Rattle.remote_http.specs.Ranges.{GivesRange};
ghost use Rattle.remote_http.specs.Requests.{range_request};
ghost use Rattle.verity_store.specs.RawFile.{HasLength, Reads};

use crate::dial::Dial;
use crate::fault::RemoteFault;
use crate::patience::Patience;
use crate::source::{Miss, Source};
use remote_http::{Given, Place, RangeFault, Scratch, get_range};
use std::alloc::Global;
use std::io::{self, ErrorKind};
use std::time::Duration;

/// A resource of an HTTP server, which has as many bytes as it had when it was opened.
#[derive(Drop)]
pub struct HttpSource<D: Dial> {
    dial: D,
    /// What the server and the resource are called there.
    host: String,
    target: String,
    scratch: Scratch,
    kept: Option<D::Wire>,
    len: u64,
}

impl<D: Dial + Drop> HttpSource<D> {
    /// Opens a resource, whose first byte is read: one connection, one request.
    ///
    /// # Errors
    ///
    /// `Unreachable`, `Http` and `NoMemory`.
    pub fn open(
        alloc: Global,
        dial: D,
        host: &str,
        target: &str,
        patience: Patience,
    ) -> Result<HttpSource<D>, RemoteFault>
        ensures dial { IfOk result (λ s. s.dial ≡ dial) }
        ensures host { IfOk result (λ s. string_bytes s.host ≡ host.now) }
        ensures target { IfOk result (λ s. string_bytes s.target ≡ target.now) }
    {
        let mut source = HttpSource {
            dial,
            host: String::from_str(alloc, host)?,
            target: String::from_str(alloc, target)?,
            scratch: Scratch::new(alloc)?,
            kept: None,
            len: 0,
        };
        let mut wire = source.connect(patience)?;
        let mut first = [0u8; 1];
        let given = source.get(&mut wire, 0, &mut first, patience)?;
        source.len = given.total;
        if given.is_kept {
            source.kept = Some(wire);
        }
        Ok(source)
    }

    /// A new connection.
    fn connect(&self, patience: Patience) -> io::Result<D::Wire> {
        let until = self.dial.now()?.saturating_add(patience.timeout);
        self.dial.dial(until)
    }

    /// Asks for a range over a connection, and takes the response.
    fn get(
        &mut self,
        wire: &mut D::Wire,
        at: u64,
        out: &mut [u8],
        patience: Patience,
    ) -> Result<Given, RangeFault>
        requires some { 0 < length out.old }
        requires fits { at + length out.old ≤ 2 ^ 64 }
        ensures dial { self.new.dial ≡ self.old.dial }
        ensures host { self.new.host ≡ self.old.host }
        ensures target { self.new.target ≡ self.old.target }
        ensures given { IfOk result (λ g. GivesRange (D.Wire.remaining wire.old) (D.Wire.remaining wire.new) at out.new g.total) }
        ensures asked { OnOk result (Appends (D.Wire.contents wire.old) (D.Wire.contents wire.new)
            (range_request (string_bytes self.old.host) (string_bytes self.old.target) at (at + (length out.new - 1)))) }
    {
        let until = self
            .dial
            .now()?
            .saturating_add(patience.for_request(out.len()));
        self.dial.extend(wire, until);
        let place = Place {
            host: self.host.as_str(),
            target: self.target.as_str(),
        };
        get_range(wire, &mut self.scratch, &place, at, out)
    }
}

/// What a fault is to a read. What a server has too little memory for is never told as a want of memory here.
fn miss(fault: RangeFault) -> Miss {
    match fault {
        RangeFault::Connection(e) => Miss::Lost(e.kind()),
        RangeFault::NoMemory(_) => Miss::Refused(ErrorKind::OutOfMemory),
        RangeFault::NotHttp | RangeFault::OtherRange | RangeFault::OtherBody => Miss::Refused(
            ErrorKind::InvalidData,
        ),
        _ => Miss::Refused(ErrorKind::Other),
    }
}

// Nothing is known of the bytes of a server.
impl<D: Dial + Drop> Source for HttpSource<D> {
    fn byte_len(&self) -> u64 {
        self.len
    }

    fn now(&self) -> io::Result<Duration> {
        self.dial.now()
    }

    fn read_once(&mut self, at: u64, out: &mut [u8], patience: Patience) -> Result<(), Miss> {
        let mut wire = match self.kept.take() {
            Some(wire) => wire,
            None => self.connect(patience).map_err(|e| Miss::Lost(e.kind()))?,
        };
        let given = self.get(&mut wire, at, out, patience).map_err(miss)?;
        if given.total != self.len {
            return Err(Miss::Refused(ErrorKind::InvalidData));
        }
        if given.is_kept {
            self.kept = Some(wire);
        }
        Ok(())
    }
}
