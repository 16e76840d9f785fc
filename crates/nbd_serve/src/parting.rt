//! Connections that are taking their leave.

ghost use Rattle.std.specs.Prelude.{◌≡◌};
ghost use Rattle.nbd_serve.specs.Sockets.{Drains};

use crate::socket::Socket;
use nbd_connection::Connection;
use nbd_relay::Client;
use std::io::ErrorKind;
use std::marker::Model;
use std::time::Duration;

/// How many bytes of late input are read at once, how many times in a row, and how many in all.
const LATE_BYTES: usize = 4_096;

const LATE_PIECES: u64 = 64;

const LATE_MOST: u64 = 1 << 26;

/// Which silence ends a leave: so many seconds by the clock, or so many waits in which nobody was heard.
const LATE_SECONDS: u64 = 1;

const LATE_WAITS: u64 = 2;

/// A connection whose session has ended: its last reply arrives only if its late input is read, since a close with unread
/// input would reset it.
#[derive(Drop)]
pub struct Parting<C: Connection> {
    id: u64,
    connection: C,
    ready: bool,
    waits: u64,
    heard: Option<Duration>,
    late: u64,
}

impl<C: Connection> Model for Parting<C> {
    ghost Value = { C };

    ghost view = { λ p. p.connection };
}

impl<C: Connection + Drop> Parting<C> {
    /// Its session has ended, and it may have said more. What was said to it and not sent is dropped.
    pub fn new(client: Client<Socket<C>>) -> Parting<C>
        ensures { result ≡ client.1.connection }
    {
        Parting {
            id: client.id(),
            connection: client.into_stream().into_connection(),
            ready: true,
            waits: 0,
            heard: None,
            late: 0,
        }
    }

    /// Its connection.
    pub fn into_connection(self) -> C
        ensures { result ≡ self }
    {
        self.connection
    }

    /// The number that its session had.
    pub fn id(&self) -> u64 {
        self.id
    }

    /// Whether it may have said more.
    pub fn is_ready(&self) -> bool {
        self.ready
    }

    /// The system says that it may have said more.
    pub fn wake(&mut self)
        ensures { self.new ≡ self.old }
    {
        self.ready = true;
        self.waits = 0;
    }

    /// Nobody was heard in a wait.
    pub fn wait(&mut self)
        ensures { self.new ≡ self.old }
    {
        self.waits = self.waits.saturating_add(1);
    }

    /// Reads what its client still says, and tells whether it stays.
    pub fn hear(&mut self, now: Option<Duration>) -> bool
        ensures { Drains (C.log self.old) (C.log self.new) }
    {
        if !self.ready {
            return self.waits < LATE_WAITS && !self.is_silent(now);
        }
        self.heard = now;
        let mut piece = [0u8; LATE_BYTES];
        for _ in 0..LATE_PIECES {
            match self.connection.receive(&mut piece) {
                Ok(0) => return false,
                Ok(taken) => {
                    self.late = self.late.saturating_add(taken as u64);
                    if self.late > LATE_MOST {
                        return false;
                    }
                }
                Err(e) => {
                    if e.kind() == ErrorKind::WouldBlock {
                        self.ready = false;
                        return true;
                    }
                    if e.kind() != ErrorKind::Interrupted {
                        return false;
                    }
                }
            }
        }
        true
    }

    fn is_silent(&self, now: Option<Duration>) -> bool {
        match (self.heard, now) {
            (Some(heard), Some(now)) => now.saturating_sub(heard)
                >= Duration::from_secs(LATE_SECONDS),
            _ => false,
        }
    }
}
