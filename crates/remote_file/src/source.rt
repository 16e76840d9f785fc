//! A server's bytes, each read tried once.

ghost use Rattle.std.specs.Prelude.{◌≡◌, ℕ, ◌+◌, ◌<◌, ◌≤◌, ◌^◌, Option, List, None, length, OnOk};
ghost use Rattle.verity_store.specs.RawFile.{HasLength, Reads};

use crate::patience::Patience;
use std::io::{self, ErrorKind};
use std::time::Duration;

/// Why a read gave no bytes.
#[derive(Clone, Copy, Debug)]
pub enum Miss {
    /// The connection failed, or couldn't be made.
    Lost(ErrorKind),
    /// The server answered, and not by the bytes.
    Refused(ErrorKind),
}

/// A server's bytes, over one connection that is kept, and made anew after a failure.
pub trait Source {
    /// The bytes, where they are known.
    ghost bytes: { Self → Option (List ℕ) } = { λ _. None };

    /// How often the server was asked for bytes that were read, where that is counted.
    ghost asks: { Self → ℕ } = { λ _. 0 };

    /// How many bytes there were when it was opened.
    fn byte_len(&self) -> u64
        ensures { HasLength (bytes self.now) result };

    /// The time of the monotonic clock.
    fn now(&self) -> io::Result<Duration>;

    /// Asks once for as many bytes as `out` has, from offset `at` on; over a new connection where none is kept. What is likely to be read
    /// next may be asked for then, and is not waited for.
    fn read_once(&mut self, at: u64, out: &mut [u8], patience: Patience) -> Result<(), Miss>
        requires some { 0 < length out.old }
        requires fits { at + length out.old ≤ 2 ^ 64 }
        ensures given { OnOk result (Reads (bytes self.old) at out.new) }
        ensures bytes { bytes self.new ≡ bytes self.old }
        ensures counted { asks self.new ≤ asks self.old + 1 };
}
