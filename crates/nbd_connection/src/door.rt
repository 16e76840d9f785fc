//! Where clients come from, and what they may take.

ghost use Rattle.std.specs.Prelude.{◌≡◌, ◌+◌, [], ◌∷◌, ◌++◌, IfOk, OnOk, OnErr};
ghost use Rattle.nbd_connection.specs.Connections.{Visits, nothing};

use crate::carried::Visited;
use crate::connection::{Connection, Logged, SystemSocket};
use crate::limits::Limits;
use std::io;
use std::net::{TcpListener, TcpStream};
use std::os::fd::{AsRawFd, RawFd};
use std::os::unix::net::{UnixListener, UnixStream};
use std::time::{Clock, Duration};

/// Where clients come from.
///
/// Contracts see how many connections were accepted, and what those carried that were given back.
pub trait Door: AsRawFd {
    type Connection: Connection + Drop;

    ghost visits: { Self → Visits };

    /// The next connection, which has carried nothing.
    fn accept(&mut self) -> io::Result<Self::Connection>
        ensures accepted { OnOk result (visits self.new
            ≡ record { accepted = (visits self.old).accepted + 1; closed = (visits self.old).closed }) }
        ensures empty { IfOk result (λ connection. Self.Connection.log connection ≡ nothing) }
        ensures refused { OnErr result (visits self.new ≡ visits self.old) };

    /// Closes a connection, which carries nothing more.
    fn close(&mut self, connection: Self::Connection)
        ensures { visits self.new ≡ record {
          accepted = (visits self.old).accepted;
          closed = (visits self.old).closed ++ Self.Connection.log connection ∷ [];
        } };

    /// Whether `accept` answers `WouldBlock` where no connection waits.
    fn set_nonblocking(&self, nonblocking: bool) -> io::Result<()>;

    /// What the clients may take.
    fn limits(&self) -> Limits {
        Limits::usual()
    }

    /// The time since an arbitrary start, where there is a clock.
    fn now(&self) -> Option<Duration> {
        None
    }
}

/// A listener of the system.
pub trait Listener: AsRawFd {
    type Socket: SystemSocket + Drop;

    /// The next connection.
    fn accept(&self) -> io::Result<Self::Socket>;

    /// Whether `accept` answers `WouldBlock` where no connection waits.
    fn set_nonblocking(&self, nonblocking: bool) -> io::Result<()>;
}

impl Listener for TcpListener {
    type Socket = TcpStream;

    fn accept(&self) -> io::Result<TcpStream> {
        let (stream, _) = TcpListener::accept(self)?;
        Ok(stream)
    }

    fn set_nonblocking(&self, nonblocking: bool) -> io::Result<()> {
        TcpListener::set_nonblocking(self, nonblocking)
    }
}

impl Listener for UnixListener {
    type Socket = UnixStream;

    fn accept(&self) -> io::Result<UnixStream> {
        let (stream, _) = UnixListener::accept(self)?;
        Ok(stream)
    }

    fn set_nonblocking(&self, nonblocking: bool) -> io::Result<()> {
        UnixListener::set_nonblocking(self, nonblocking)
    }
}

/// A listener of the system with limits of its own, a clock, and what its connections carried, which takes no bytes.
#[derive(Drop)]
pub struct Watched<'a, L: Listener, R: Clock> {
    listener: L,
    limits: Limits,
    clock: &'a R,
    visited: Visited,
}

impl<'a, L: Listener, R: Clock> Watched<'a, L, R> {
    /// Nobody was accepted.
    pub fn new(listener: L, limits: Limits, clock: &'a R) -> Watched<'a, L, R> {
        Watched {
            listener,
            limits,
            clock,
            visited: Visited::new(),
        }
    }
}

impl<L: Listener, R: Clock> AsRawFd for Watched<'_, L, R> {
    fn as_raw_fd(&self) -> RawFd {
        self.listener.as_raw_fd()
    }
}

impl<L: Listener, R: Clock> Door for Watched<'_, L, R> {
    type Connection = Logged<L::Socket>;

    ghost visits = { λ d. d.visited.visits };

    fn accept(&mut self) -> io::Result<Logged<L::Socket>> {
        let socket = self.listener.accept()?;
        self.visited.accept();
        Ok(Logged::new(socket))
    }

    fn close(&mut self, connection: Logged<L::Socket>) {
        self.visited.close(&connection);
    }

    fn set_nonblocking(&self, nonblocking: bool) -> io::Result<()> {
        self.listener.set_nonblocking(nonblocking)
    }

    fn limits(&self) -> Limits {
        self.limits
    }

    fn now(&self) -> Option<Duration> {
        self.clock.monotonic().ok()
    }
}
