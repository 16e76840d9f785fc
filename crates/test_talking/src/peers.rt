//! Clients over socket pairs of the system, which read by a clock that moves on where it is asked; and the server's side of them.

use nbd_connection::{Door, Limits, Logged, Visited};
use std::alloc::Global;
use std::cell::Cell;
use std::io::{self, ErrorKind, Read, Write};
use std::net::{Net, Shutdown};
use std::os::fd::{AsRawFd, RawFd};
use std::os::unix::net::UnixStream;
use std::time::Duration;

/// By so many seconds the clock moves on where it is asked.
const STEP: u64 = 5;

/// The most bytes that a client reads at once.
const PIECE: usize = 32_768;

/// When a client reads.
#[derive(Clone, Copy, Debug, PartialEq, Eq)]
pub enum Pace {
    /// Nothing before that second, then all that is there whenever the clock is asked.
    From(u64),
    /// 32 KiB in 20 seconds before that second, then all that is there whenever the clock is asked.
    SlowlyUntil(u64),
}

/// A client: its end of the connection, when it reads, how many bytes it is to be sent, and how many it has read.
#[derive(Drop)]
pub struct Peer {
    stream: UnixStream,
    pace: Pace,
    wanted: u64,
    read: Cell<u64>,
}

impl Peer {
    /// Reads what it reads at this second. Once it has all, it says no more.
    fn look(&self, seconds: u64) {
        let pieces = match self.pace {
            Pace::From(from) if seconds < from => 0,
            Pace::SlowlyUntil(until) if seconds < until => u64::from(seconds % 20 == 0),
            _ => 1_000,
        };
        for _ in 0..pieces {
            if !self.read_piece() {
                break;
            }
        }
        if self.has_all() {
            let _ = self.stream.shutdown(Shutdown::Write);
        }
    }

    /// Reads up to 32 KiB, and tells whether there were some.
    fn read_piece(&self) -> bool {
        let mut piece = [0u8; PIECE];
        match (&mut &self.stream).read(&mut piece) {
            Ok(taken) => {
                self.read.set(self.read.get().saturating_add(taken as u64));
                taken > 0
            }
            Err(_) => false,
        }
    }

    /// Whether it has read as many bytes as it is to be sent.
    pub fn has_all(&self) -> bool {
        self.read.get() == self.wanted
    }
}

/// The clients, and their clock.
#[derive(Drop)]
pub struct Crowd {
    pub peers: Vec<Peer>,
    seconds: Cell<u64>,
}

impl Crowd {
    /// Nobody is there, and the clock stands at nothing.
    pub fn new(alloc: Global) -> Crowd {
        Crowd {
            peers: Vec::new(alloc),
            seconds: Cell::new(0),
        }
    }

    /// The second.
    pub fn seconds(&self) -> u64 {
        self.seconds.get()
    }

    /// Moves the clock on, and has each client read what it reads then.
    fn tick(&self) -> u64 {
        let seconds = self.seconds.get().saturating_add(STEP);
        self.seconds.set(seconds);
        for peer in &self.peers {
            peer.look(seconds);
        }
        seconds
    }

    /// One more client comes, which says all of this at once, and is to be sent so many bytes. Its connection is the server's end.
    ///
    /// # Errors
    ///
    /// The system's.
    pub fn add(
        &mut self,
        net: &impl Net,
        says: &[u8],
        wanted: u64,
        pace: Pace,
    ) -> io::Result<UnixStream> {
        let (stream, connection) = UnixStream::pair(net)?;
        (&mut &stream).write_all(says)?;
        stream.set_nonblocking(true)?;
        self.peers.push(Peer {
            stream,
            pace,
            wanted,
            read: Cell::new(0),
        })?;
        Ok(connection)
    }
}

/// Socket pairs as a listener: the clients' connections wait in it, the last of the list first.
#[derive(Drop)]
pub struct Pairs<'a> {
    pub crowd: &'a Crowd,
    pub waiting: Vec<UnixStream>,
    pub limits: Limits,
    /// A socket that the poll may watch.
    pub bell: UnixStream,
    pub visited: Visited,
}

impl AsRawFd for Pairs<'_> {
    fn as_raw_fd(&self) -> RawFd {
        self.bell.as_raw_fd()
    }
}

impl Door for Pairs<'_> {
    type Connection = Logged<UnixStream>;

    ghost visits = { λ d. d.visited.visits };

    fn accept(&mut self) -> io::Result<Logged<UnixStream>> {
        match self.waiting.pop() {
            Some(socket) => {
                self.visited.accept();
                Ok(Logged::new(socket))
            }
            None => Err(io::Error::from(ErrorKind::WouldBlock)),
        }
    }

    fn close(&mut self, connection: Logged<UnixStream>) {
        self.visited.close(&connection);
    }

    fn set_nonblocking(&self, _nonblocking: bool) -> io::Result<()> {
        Ok(())
    }

    fn limits(&self) -> Limits {
        self.limits
    }

    fn now(&self) -> Option<Duration> {
        Some(Duration::from_secs(self.crowd.tick()))
    }
}

/// What a server prints, and the second of each line.
#[derive(Drop)]
pub struct Lines<'a> {
    crowd: &'a Crowd,
    pub text: Vec<u8>,
    pub seconds: Vec<u64>,
}

impl<'a> Lines<'a> {
    /// Nothing is printed.
    pub fn new(alloc: Global, crowd: &'a Crowd) -> Lines<'a> {
        Lines {
            crowd,
            text: Vec::new(alloc),
            seconds: Vec::new(alloc),
        }
    }
}

impl Write for Lines<'_> {
    fn write(&mut self, buf: &[u8]) -> io::Result<usize> {
        self.text.extend_from_slice(buf)?;
        Ok(buf.len())
    }

    fn flush(&mut self) -> io::Result<()> {
        self.seconds.push(self.crowd.seconds())?;
        Ok(())
    }
}
