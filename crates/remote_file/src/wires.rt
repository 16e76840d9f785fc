//! Connections that give up at a time.

ghost use Rattle.std.specs.Prelude.{◌≡◌, MatchResult, IsErr};

use remote_wire::Wire;
use std::io::{self, ErrorKind, Read, Write};
use std::net::OpenStream;
use std::os::unix::net::UnixStream;
use std::time::{Clock, Duration};

/// How much time is left until then.
///
/// # Errors
///
/// `TimedOut` where none is, and what the clock answers.
pub(crate) fn left<R: Clock>(clock: &R, until: Duration) -> io::Result<Duration> {
    let left = until.saturating_sub(clock.monotonic()?);
    if left.is_zero() {
        return Err(io::Error::from(ErrorKind::TimedOut));
    }
    Ok(left)
}

/// The system says `WouldBlock` of a read or a write that took too long.
fn told(answer: io::Result<usize>) -> io::Result<usize>
    ensures { MatchResult answer (λ n. result ≡ Ok n) (λ _. IsErr result) }
{
    match answer {
        Ok(n) => Ok(n),
        Err(e) => {
            if e.kind() == ErrorKind::WouldBlock {
                Err(io::Error::from(ErrorKind::TimedOut))
            } else {
                Err(e)
            }
        }
    }
}

/// A connection over TCP that gives up at a time: each read and write is given what is left until then.
#[derive(Drop)]
pub struct TcpWire<'a, S, R> {
    pub(crate) stream: S,
    pub(crate) clock: &'a R,
    pub(crate) until: Duration,
}

// Nothing is known of the bytes of a socket.
impl<S: Read + Write + OpenStream, R: Clock> Wire for TcpWire<'_, S, R> {
    fn receive(&mut self, out: &mut [u8]) -> io::Result<usize> {
        let time = left(self.clock, self.until)?;
        self.stream.set_read_timeout(Some(time))?;
        let answer = self.stream.read(out);
        told(answer)
    }

    fn send(&mut self, bytes: &[u8]) -> io::Result<usize> {
        let time = left(self.clock, self.until)?;
        self.stream.set_write_timeout(Some(time))?;
        let answer = self.stream.write(bytes);
        told(answer)
    }
}

/// The same over a Unix socket.
#[derive(Drop)]
pub struct UnixWire<'a, R> {
    pub(crate) stream: UnixStream,
    pub(crate) clock: &'a R,
    pub(crate) until: Duration,
}

impl<R: Clock> Wire for UnixWire<'_, R> {
    fn receive(&mut self, out: &mut [u8]) -> io::Result<usize> {
        let time = left(self.clock, self.until)?;
        self.stream.set_read_timeout(Some(time))?;
        let answer = self.stream.read(out);
        told(answer)
    }

    fn send(&mut self, bytes: &[u8]) -> io::Result<usize> {
        let time = left(self.clock, self.until)?;
        self.stream.set_write_timeout(Some(time))?;
        let answer = self.stream.write(bytes);
        told(answer)
    }
}
