//! A client's socket as a stream of a relay, which sends the replies to several waiting requests in one call.

ghost use Rattle.std.specs.Prelude.{◌≡◌, ◌≤◌, ◌==◌, [], length, Some, IfOk, IfErr, OnOk, IsTrue};
ghost use Rattle.std.specs.Io.{ReadsAtMost, WritesAtMost};
ghost use Rattle.nbd_connection.specs.Connections.{Hears, Says, nothing};
ghost use Rattle.nbd_serve.specs.Sockets.{log_of};

use nbd_connection::Connection;
use nbd_relay::{Asks, Stream};
use std::alloc::{Allocator, Global};
use std::cell::Cell;
use std::io::{self, ErrorKind};
use std::marker::Model;

/// The most bytes that wait to be sent in one call.
const HELD_BYTES: usize = 131_072;

/// A client's socket. Short replies wait in it until it is flushed, or asked to read: a relay reads once nothing else is to be
/// answered. It isn't asked again for what it hasn't got: a read that fills less than its buffer has taken all there is. It counts the
/// bytes that its connection takes.
#[derive(Drop)]
pub struct Socket<C: Connection, A: Allocator = Global> {
    connection: C,
    taken: u64,
    held: Vec<u8, A>,
    sent: usize,
    is_read: Cell<bool>,
    has_ended: Cell<bool>,
    asks: Asks,
}

impl<C: Connection, A: Allocator> Model for Socket<C, A> {
    ghost use Rattle.std.specs.Prelude.{◌≡◌, ◌≤◌, drop, length};
    ghost use Rattle.nbd_serve.specs.Sockets.{SocketState};

    ghost Value = { SocketState C };

    ghost view = { λ s. record { connection = s.connection; held = drop s.sent s.held.items; asked = s.asks } };

    ghost invariant = { λ s. (s.sent ≤ length s.held.items) × (s.taken ≡ length (C.log s.connection).wrote) };
}

impl<C: Connection + Drop, A: Allocator> Socket<C, A> {
    /// Takes over a connection that was prepared, and has carried nothing.
    ///
    /// # Errors
    ///
    /// The connection, where memory was refused for what it holds.
    pub fn new(alloc: A, connection: C) -> Result<Socket<C, A>, C>
        requires { C.log connection ≡ nothing }
        ensures connection { IfOk result (λ socket. socket.connection ≡ connection) }
        ensures held { IfOk result (λ socket. socket.held ≡ []) }
        ensures refused { IfErr result (λ handed_back. handed_back ≡ connection) }
    {
        match Vec::with_capacity(alloc, HELD_BYTES) {
            Ok(held) => Ok(Socket {
                connection,
                taken: 0,
                held,
                sent: 0,
                is_read: Cell::new(false),
                has_ended: Cell::new(false),
                asks: Asks::new(),
            }),
            Err(_) => Err(connection),
        }
    }

    /// Its connection.
    pub fn connection(&self) -> &C
        ensures { result.now ≡ self.now.connection }
    {
        &self.connection
    }

    /// Its connection; what it holds is dropped.
    pub fn into_connection(self) -> C
        ensures { result ≡ self.connection }
    {
        self.connection
    }

    /// How many bytes its connection has taken.
    pub fn taken(&self) -> u64
        ensures { result ≡ length (C.log self.now.connection).wrote }
    {
        self.taken
    }

    /// The system says that it may be ready, and whether its client says no more.
    pub fn wake(&self, has_ended: bool) {
        self.is_read.set(false);
        if has_ended {
            self.has_ended.set(true);
        }
    }

    /// Sends all that it holds. After an error it still holds what wasn't sent.
    fn empty(&mut self) -> io::Result<()>
        ensures asks { self.new.asked ≡ self.old.asked }
        ensures log { log_of C.log self.new ≡ log_of C.log self.old }
        ensures empty { OnOk result (self.new.held ≡ []) }
    {
        for _ in 0..HELD_BYTES {
            if self.is_empty() {
                break;
            }
            self.send_held()?;
        }
        if !self.is_empty() {
            return Err(io::Error::from(ErrorKind::WouldBlock));
        }
        self.forget();
        Ok(())
    }

    /// Whether it holds nothing.
    fn is_empty(&self) -> bool
        ensures { IsTrue result → self.now.held ≡ [] }
    {
        self.sent >= self.held.len()
    }

    /// Sends a beginning of what it holds, or nothing where it was interrupted.
    fn send_held(&mut self) -> io::Result<()>
        ensures asks { self.new.asked ≡ self.old.asked }
        ensures log { log_of C.log self.new ≡ log_of C.log self.old }
    {
        match send_counted(
            &mut self.connection,
            &mut self.taken,
            &self.held[self.sent..],
        ) {
            Ok(0) => Err(io::Error::from(ErrorKind::WriteZero)),
            Ok(taken) => {
                self.sent += taken;
                Ok(())
            }
            Err(e) => {
                if e.kind() == ErrorKind::Interrupted {
                    Ok(())
                } else {
                    Err(e)
                }
            }
        }
    }

    /// Begins its buffer anew, where all of it was sent.
    fn forget(&mut self)
        requires { self.old.held ≡ [] }
        ensures { self.new ≡ self.old }
    {
        self.held.clear();
        self.sent = 0;
    }

    /// Has room for so many bytes, if they are fewer than it holds at most; else it holds nothing.
    fn make_room(&mut self, count: usize) -> io::Result<()>
        ensures asks { self.new.asked ≡ self.old.asked }
        ensures log { log_of C.log self.new ≡ log_of C.log self.old }
        ensures empty { OnOk result (131072 ≤ count → self.new.held ≡ []) }
    {
        if self.held.len().saturating_add(count) > HELD_BYTES {
            return self.empty();
        }
        Ok(())
    }

    fn give(&mut self, buf: &[u8]) -> io::Result<usize>
        ensures bound { WritesAtMost result buf.now }
        ensures asks { self.new.asked ≡ self.old.asked }
        ensures log { Says (log_of C.log self.old) (log_of C.log self.new) result buf.now }
    {
        self.make_room(buf.len())?;
        if buf.len() >= HELD_BYTES {
            return send_counted(&mut self.connection, &mut self.taken, buf);
        }
        match self.held.extend_from_slice(buf) {
            Ok(()) => Ok(buf.len()),
            Err(_) => Err(io::Error::from(ErrorKind::OutOfMemory)),
        }
    }

    fn take(&mut self, buf: &mut [u8]) -> io::Result<usize>
        ensures bound { ReadsAtMost result buf.new }
        ensures asks { self.new.asked ≡ self.old.asked }
        ensures log { Hears (log_of C.log self.old) (log_of C.log self.new) result buf.new }
    {
        self.empty()?;
        if self.is_read.get() && !self.has_ended.get() {
            return Err(io::Error::from(ErrorKind::WouldBlock));
        }
        let answer = self.connection.receive(buf);
        if let Ok(taken) = &answer {
            if *taken < buf.len() {
                self.is_read.set(true);
            }
        }
        answer
    }
}

impl<C: Connection + Drop, A: Allocator> Stream for Socket<C, A> {
    ghost received = { λ s. Some (log_of C.log s).read };

    ghost contents = { λ s. Some (log_of C.log s).wrote };

    ghost asked = { λ s. s.asked };

    ghost flushed = { λ s. length s.held == 0 };

    fn receive(&mut self, buf: &mut [u8]) -> io::Result<usize> {
        let answer = self.take(buf);
        self.asks.note(&answer, false);
        answer
    }

    fn send(&mut self, buf: &[u8]) -> io::Result<usize> {
        let answer = self.give(buf);
        self.asks.note(&answer, !buf.is_empty());
        answer
    }

    fn flush(&mut self) -> io::Result<()> {
        let answer = self.empty();
        self.asks.note_flush(&answer);
        answer
    }
}

/// Has a connection take a beginning of the bytes, and counts them. It isn't asked where their count might not fit.
fn send_counted<C: Connection>(connection: &mut C, taken: &mut u64, buf: &[u8]) -> io::Result<usize>
    requires { taken.old ≡ length (C.log connection.old).wrote }
    ensures bound { WritesAtMost result buf.now }
    ensures log { Says (C.log connection.old) (C.log connection.new) result buf.now }
    ensures counted { taken.new ≡ length (C.log connection.new).wrote }
{
    if buf.len() as u64 > u64::MAX - *taken {
        return Err(io::Error::from(ErrorKind::Other));
    }
    let answer = connection.send(buf);
    if let Ok(count) = &answer {
        *taken += *count as u64;
    }
    answer
}
