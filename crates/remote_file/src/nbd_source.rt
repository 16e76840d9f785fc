//! An export of an NBD server.

ghost use Rattle.std.specs.Prelude.{◌≡◌, ◌+◌, ◌++◌, ◌<◌, ◌≤◌, ◌^◌, length, IfOk, OnOk, IfSome, string_bytes};
ghost use Rattle.remote_nbd.specs.Opening.{Opens, Asks};
ghost use Rattle.std.specs.Io.KnownBytes.{Appends, Consumes};
ghost use Rattle.remote_nbd.specs.Messages.{read_request, simple_reply};
ghost use Rattle.verity_store.specs.RawFile.{HasLength, Reads};

use crate::asked::{Asked, take_bytes};
use crate::dial::Dial;
use crate::fault::RemoteFault;
use crate::last_read::LastRead;
use crate::patience::Patience;
use crate::source::{Miss, Source};
use remote_nbd::{Export, MAX_LENGTH, OpenFault, ask_at, open_export};
use std::alloc::Global;
use std::io::{self, ErrorKind};
use std::time::Duration;

/// An export of an NBD server, which has as many bytes as it had when it was opened.
#[derive(Drop)]
pub struct NbdSource<D: Dial> {
    alloc: Global,
    dial: D,
    name: String,
    kept: Option<D::Wire>,
    /// The connection, where a range was asked for that wasn't taken yet.
    asked: Option<Asked<D>>,
    last: LastRead,
    /// Which request comes next.
    cookie: u64,
    len: u64,
}

impl<D: Dial + Drop> NbdSource<D> {
    /// Opens an export: one connection.
    ///
    /// # Errors
    ///
    /// `Unreachable`, `Nbd` and `NoMemory`.
    pub fn open(
        alloc: Global,
        dial: D,
        name: &str,
        patience: Patience,
    ) -> Result<NbdSource<D>, RemoteFault>
        ensures dial { IfOk result (λ s. s.dial ≡ dial) }
        ensures name { IfOk result (λ s. string_bytes s.name ≡ name.now) }
    {
        let mut source = NbdSource {
            alloc,
            dial,
            name: String::from_str(alloc, name)?,
            kept: None,
            asked: None,
            last: LastRead::none(),
            cookie: 0,
            len: 0,
        };
        let mut wire = source.connect(patience)?;
        source.len = source.greet(&mut wire)?.size;
        source.kept = Some(wire);
        Ok(source)
    }

    /// A new connection; the time of the whole handshake runs from here.
    fn connect(&self, patience: Patience) -> io::Result<D::Wire> {
        let until = self.dial.now()?.saturating_add(patience.timeout);
        self.dial.dial(until)
    }

    /// The handshake; what the server states of the export.
    fn greet(&self, wire: &mut D::Wire) -> Result<Export, OpenFault>
        ensures opened { IfOk result (λ export. Opens (D.Wire.remaining wire.old) (D.Wire.remaining wire.new) export) }
        ensures asked { OnOk result (Asks (D.Wire.contents wire.old) (D.Wire.contents wire.new) (string_bytes self.now.name)) }
    {
        open_export(wire, self.alloc, self.name.as_bytes())
    }

    /// A new connection to the same export, of the same length.
    fn reopen(&self, patience: Patience) -> Result<D::Wire, Miss> {
        let mut wire = self.connect(patience).map_err(|e| Miss::Lost(e.kind()))?;
        match self.greet(&mut wire) {
            Ok(export) if export.size == self.len => Ok(wire),
            Ok(_) => Err(Miss::Refused(ErrorKind::InvalidData)),
            Err(OpenFault::Connection(e)) => Err(Miss::Lost(e.kind())),
            Err(OpenFault::NoMemory(_)) => Err(Miss::Refused(ErrorKind::OutOfMemory)),
            Err(_) => Err(Miss::Refused(ErrorKind::Other)),
        }
    }

    /// Asks for at most as many bytes as one request may over a connection, and takes the reply.
    fn get(
        &mut self,
        wire: &mut D::Wire,
        at: u64,
        out: &mut [u8],
        patience: Patience,
    ) -> Result<(), Miss>
        requires { length out.old ≤ 33554432 }
        ensures given { OnOk result (Consumes (D.Wire.remaining wire.old) (D.Wire.remaining wire.new)
            (simple_reply 0 self.old.cookie ++ out.new)) }
        ensures asked { OnOk result (Appends (D.Wire.contents wire.old) (D.Wire.contents wire.new)
            (read_request self.old.cookie at (length out.new))) }
    {
        let until = self
            .until(out.len(), patience)
            .map_err(|e| Miss::Lost(e.kind()))?;
        self.dial.extend(wire, until);
        let cookie = self.next_cookie();
        if let Err(e) = ask_at(wire, cookie, at, out.len() as u32) {
            return Err(Miss::Lost(e.kind()));
        }
        take_bytes(wire, cookie, out)
    }

    /// A cookie of its own for each request.
    fn next_cookie(&mut self) -> u64
        ensures { result ≡ self.old.cookie }
    {
        let cookie = self.cookie;
        self.cookie = cookie.wrapping_add(1);
        cookie
    }

    /// The time by which a request of so many bytes is answered.
    fn until(&self, bytes: usize, patience: Patience) -> io::Result<Duration> {
        Ok(self.dial.now()?.saturating_add(patience.for_request(bytes)))
    }

    /// Takes the bytes that were asked for, where they are those of this range; whether it did. Those of another range are dropped.
    fn take_asked(&mut self, at: u64, out: &mut [u8], patience: Patience) -> Result<bool, Miss> {
        let Some(asked) = self.asked.take() else {
            return Ok(false);
        };
        let until = self
            .until(asked.len(), patience)
            .map_err(|e| Miss::Lost(e.kind()))?;
        if !asked.is_of(at, out.len()) {
            self.kept = asked.skip(&self.dial, until);
            return Ok(false);
        }
        self.kept = Some(asked.take(&self.dial, until, at, out)?);
        Ok(true)
    }

    /// Asks for a range, in as many requests as it takes.
    fn get_all(&mut self, at: u64, out: &mut [u8], patience: Patience) -> Result<(), Miss> {
        let mut place = at;
        'pieces: for piece in out.chunks_mut(MAX_LENGTH) {
            let mut wire = match self.kept.take() {
                Some(wire) => wire,
                None => self.reopen(patience)?,
            };
            self.get(&mut wire, place, piece, patience)?;
            self.kept = Some(wire);
            place = place.saturating_add(piece.len() as u64);
        }
        Ok(())
    }

    /// Asks for at most so many bytes from here on, as far as the export goes, over the connection that is kept, and doesn't wait for them.
    /// Where one request may not ask for as many, none does.
    fn ask_ahead(&mut self, at: u64, count: usize, patience: Patience) -> Option<Asked<D>>
        ensures at { IfSome result (λ asked. asked.at ≡ at) }
        ensures within { IfSome result (λ asked. at + asked.len ≤ self.old.len) }
    {
        let count = self.len.saturating_sub(at).min(count as u64) as usize;
        if count == 0 || count > MAX_LENGTH {
            return None;
        }
        let until = self.until(count, patience).ok()?;
        let mut wire = self.kept.take()?;
        self.dial.extend(&mut wire, until);
        let cookie = self.next_cookie();
        Asked::new(wire, cookie, at, count).ok()
    }
}

// Nothing is known of the bytes of a server.
impl<D: Dial + Drop> Source for NbdSource<D> {
    fn byte_len(&self) -> u64 {
        self.len
    }

    fn now(&self) -> io::Result<Duration> {
        self.dial.now()
    }

    /// Where a read follows one of the same length, as many bytes again are asked for before they are read.
    fn read_once(&mut self, at: u64, out: &mut [u8], patience: Patience) -> Result<(), Miss> {
        if !self.take_asked(at, out, patience)? {
            self.get_all(at, out, patience)?;
        }
        if self.last.repeats(at, out.len()) {
            let next = at.saturating_add(out.len() as u64);
            self.asked = self.ask_ahead(next, out.len(), patience);
        }
        Ok(())
    }
}
