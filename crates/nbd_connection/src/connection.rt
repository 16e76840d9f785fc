//! A socket of a client, over TCP or in a file.

ghost use Rattle.std.specs.Prelude.{◌≡◌};
ghost use Rattle.std.specs.Io.{ReadsAtMost, WritesAtMost};
ghost use Rattle.nbd_relay.specs.Clients.{Log};
ghost use Rattle.nbd_connection.specs.Connections.{Hears, Says, nothing};

use crate::carried::Carried;
use std::io::{self, Read, Write};
use std::net::{Shutdown, TcpStream};
use std::os::fd::{AsRawFd, RawFd};
use std::os::unix::net::UnixStream;

/// A socket of a client. Where it isn't ready it answers `WouldBlock`, once it was prepared.
///
/// Contracts see what was read from it and what was written to it since it was accepted.
pub trait Connection: AsRawFd {
    ghost log: { Self → Log };

    /// Has it wait for nothing, and send what it is given at once.
    fn prepare(&self) -> io::Result<()>;

    /// Reads into the buffer, and tells how many bytes.
    fn receive(&mut self, buf: &mut [u8]) -> io::Result<usize>
        ensures bound { ReadsAtMost result buf.new }
        ensures log { Hears (log self.old) (log self.new) result buf.new };

    /// Writes a beginning of the bytes, and tells how many.
    fn send(&mut self, buf: &[u8]) -> io::Result<usize>
        ensures bound { WritesAtMost result buf.now }
        ensures log { Says (log self.old) (log self.new) result buf.now };

    /// Tells the client that nothing more will be sent.
    fn end_output(&self) -> io::Result<()>;
}

/// A socket of the system.
pub trait SystemSocket: AsRawFd {
    /// Has it wait for nothing, and send what it is given at once.
    fn prepare(&self) -> io::Result<()>;

    /// Reads into the buffer, and tells how many bytes.
    fn receive(&self, buf: &mut [u8]) -> io::Result<usize>
        ensures bound { ReadsAtMost result buf.new };

    /// Writes a beginning of the bytes, and tells how many.
    fn send(&self, buf: &[u8]) -> io::Result<usize>
        ensures bound { WritesAtMost result buf.now };

    /// Tells the client that nothing more will be sent.
    fn end_output(&self) -> io::Result<()>;
}

impl SystemSocket for TcpStream {
    fn prepare(&self) -> io::Result<()> {
        // Else a client with several requests in flight waits for each reply; a stream that can't is served all the same.
        let _ = self.set_nodelay(true);
        self.set_nonblocking(true)
    }

    fn receive(&self, buf: &mut [u8]) -> io::Result<usize> {
        (&mut &*self).read(buf)
    }

    fn send(&self, buf: &[u8]) -> io::Result<usize> {
        (&mut &*self).write(buf)
    }

    fn end_output(&self) -> io::Result<()> {
        self.shutdown(Shutdown::Write)
    }
}

impl SystemSocket for UnixStream {
    fn prepare(&self) -> io::Result<()> {
        self.set_nonblocking(true)
    }

    fn receive(&self, buf: &mut [u8]) -> io::Result<usize> {
        (&mut &*self).read(buf)
    }

    fn send(&self, buf: &[u8]) -> io::Result<usize> {
        (&mut &*self).write(buf)
    }

    fn end_output(&self) -> io::Result<()> {
        self.shutdown(Shutdown::Write)
    }
}

/// A socket of the system with what it has carried, which takes no bytes.
#[derive(Drop)]
pub struct Logged<S> {
    socket: S,
    carried: Carried,
}

impl<S: SystemSocket> Logged<S> {
    /// A socket that was just accepted.
    pub fn new(socket: S) -> Logged<S>
        ensures { result.carried.log ≡ nothing }
    {
        Logged {
            socket,
            carried: Carried::new(),
        }
    }
}

impl<S: SystemSocket> AsRawFd for Logged<S> {
    fn as_raw_fd(&self) -> RawFd {
        self.socket.as_raw_fd()
    }
}

impl<S: SystemSocket> Connection for Logged<S> {
    ghost log = { λ s. s.carried.log };

    fn prepare(&self) -> io::Result<()> {
        self.socket.prepare()
    }

    fn receive(&mut self, buf: &mut [u8]) -> io::Result<usize> {
        let answer = self.socket.receive(buf);
        if let Ok(taken) = &answer {
            self.carried.receive(buf, *taken);
        }
        answer
    }

    fn send(&mut self, buf: &[u8]) -> io::Result<usize> {
        let answer = self.socket.send(buf);
        if let Ok(taken) = &answer {
            self.carried.send(buf, *taken);
        }
        answer
    }

    fn end_output(&self) -> io::Result<()> {
        self.socket.end_output()
    }
}
