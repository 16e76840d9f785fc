//! How connections are let in.

ghost use Rattle.std.specs.Prelude.{◌≡◌, ◌+◌, ◌<◌, length, OnOk};
ghost use Rattle.nbd_serve.specs.Lines.{standing, Tells};
ghost use Rattle.nbd_serve.specs.Serving.{GoesOn};
ghost use Rattle.nbd_connection.specs.Connections.{Visits, nothing};
ghost use Rattle.nbd_serve.specs.Sockets.{AreKept};

use crate::line::tell_end;
use crate::room::{MOST, Room};
use crate::stop::Stop;
use mio::Registry;
use nbd_connection::{Connection, Door};
use nbd_hub::Sessions;
use nbd_session::Export;
use std::io::{self, ErrorKind, Write};
use std::time::Duration;

/// `accept` answers these where one connection, or the system for a moment, is at fault: want of descriptors, of buffers or
/// memory, a connection that went away, a network that did.
const PASSING: [i32; 17] = [
    1, 11, 12, 23, 24, 64, 71, 92, 95, 100, 101, 103, 104, 105, 110, 112, 113,
];

impl<C: Connection + Drop> Room<C> {
    /// Accepts connections while there are seats, up to so many as are to be let in.
    ///
    /// # Errors
    ///
    /// [`Stop::Socket`] where no connection can be accepted any more; where a line can't be printed, as [`tell_end`].
    pub fn accept_all<E: Export, L: Door<Connection = C>, W: Write>(
        &mut self,
        hub: &mut Sessions<E>,
        door: &mut L,
        registry: &Registry,
        output: &mut W,
    ) -> Result<(), Stop>
        ensures goes_on { GoesOn E.later hub.old hub.new }
        ensures sessions { self.new.sessions ≡ self.old.sessions }
        ensures told { OnOk result (Tells (W.contents output.old) (W.contents output.new)
            (standing self.old.ended self.old.accepted self.old.connected.numbers.items self.old.faulty)
            (standing self.new.ended self.new.accepted self.new.connected.numbers.items self.new.faulty)) }
        ensures kept { (begun : Visits) → AreKept E.facts E.later C.log begun hub.old self.old.connected.clients.items
            self.old.partings.leaving.items (L.visits door.old) → AreKept E.facts E.later C.log begun hub.new
            self.new.connected.clients.items self.new.partings.leaving.items (L.visits door.new) }
    {
        self.retries = false;
        for _ in 0..MOST {
            if !self.may_accept() {
                break;
            }
            if !self.accept_one(hub, door, registry, output)? {
                break;
            }
        }
        Ok(())
    }

    /// Accepts a connection for which there is a seat, and tells whether another one may wait.
    fn accept_one<E: Export, L: Door<Connection = C>, W: Write>(
        &mut self,
        hub: &mut Sessions<E>,
        door: &mut L,
        registry: &Registry,
        output: &mut W,
    ) -> Result<bool, Stop>
        requires sessions { self.old.accepted < self.old.sessions }
        requires seat { length self.old.connected.clients.items + length self.old.partings.leaving.items < 64 }
        ensures goes_on { GoesOn E.later hub.old hub.new }
        ensures sessions { self.new.sessions ≡ self.old.sessions }
        ensures told { OnOk result (Tells (W.contents output.old) (W.contents output.new)
            (standing self.old.ended self.old.accepted self.old.connected.numbers.items self.old.faulty)
            (standing self.new.ended self.new.accepted self.new.connected.numbers.items self.new.faulty)) }
        ensures kept { (begun : Visits) → AreKept E.facts E.later C.log begun hub.old self.old.connected.clients.items
            self.old.partings.leaving.items (L.visits door.old) → AreKept E.facts E.later C.log begun hub.new
            self.new.connected.clients.items self.new.partings.leaving.items (L.visits door.new) }
    {
        match door.accept() {
            Ok(connection) => {
                self.let_in(hub, door, connection, registry, output)?;
                Ok(true)
            }
            Err(e) => {
                if e.kind() == ErrorKind::WouldBlock {
                    self.knocks = false;
                    return Ok(false);
                }
                if passes(&e) {
                    self.retries = true;
                    return Ok(false);
                }
                if e.kind() == ErrorKind::Interrupted {
                    Ok(true)
                } else {
                    Err(Stop::Socket)
                }
            }
        }
    }

    /// Gives a connection a seat, or prints why it gets none.
    fn let_in<E: Export, L: Door<Connection = C>, W: Write>(
        &mut self,
        hub: &mut Sessions<E>,
        door: &mut L,
        connection: C,
        registry: &Registry,
        output: &mut W,
    ) -> Result<(), Stop>
        requires fresh { C.log connection ≡ nothing }
        requires sessions { self.old.accepted < self.old.sessions }
        requires seat { length self.old.connected.clients.items + length self.old.partings.leaving.items < 64 }
        ensures goes_on { GoesOn E.later hub.old hub.new }
        ensures sessions { self.new.sessions ≡ self.old.sessions }
        ensures told { OnOk result (Tells (W.contents output.old) (W.contents output.new)
            (standing self.old.ended self.old.accepted self.old.connected.numbers.items self.old.faulty)
            (standing self.new.ended self.new.accepted self.new.connected.numbers.items self.new.faulty)) }
        ensures kept { (begun before : Visits) → C.log connection ≡ nothing
            → L.visits door.old ≡ record { accepted = before.accepted + 1; closed = before.closed }
            → AreKept E.facts E.later C.log begun hub.old self.old.connected.clients.items self.old.partings.leaving.items before
            → AreKept E.facts E.later C.log begun hub.new self.new.connected.clients.items self.new.partings.leaving.items
            (L.visits door.new) }
    {
        let number = self.accepted + 1;
        let now = door.now();
        let seated = self.connected.seat(hub, connection, number, now, registry);
        self.accepted = number;
        match seated {
            Ok(()) => Ok(()),
            Err((fault, connection)) => {
                self.ended += 1;
                self.faulty = true;
                door.close(connection);
                tell_end(output, number, Some(fault))
            }
        }
    }
}

/// Whether another `accept` may succeed.
fn passes(error: &io::Error) -> bool {
    match error.raw_os_error() {
        Some(code) => PASSING.contains(&code),
        None => false,
    }
}
