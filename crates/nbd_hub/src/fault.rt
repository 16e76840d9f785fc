//! Why a call is refused, and why a stream was left.

ghost use Rattle.std.specs.Prelude.{Some};

use std::fmt;
use thiserror::Error;

/// A refusal of a hub's call. Its text is its number.
#[derive(Clone, Copy, Debug, PartialEq, Eq, Error)]
pub enum HubFault {
    /// H1: as many sessions are open as may be.
    Full,
    /// H2: memory was refused.
    NoMemory,
    /// H3: no session of this number is open: it was never opened, or it was ended.
    Unknown,
    /// H4: as many sessions were opened as may ever be.
    Spent,
}

impl fmt::Display for HubFault {
    ghost use Rattle.nbd_hub.specs.Texts.{hub_text};

    ghost output = { λ fault. Some (hub_text fault) };

    fn fmt<W: fmt::Write>(&self, f: &mut fmt::Formatter<W>) -> fmt::Result {
        match self {
            HubFault::Full => f.write_str("H1"),
            HubFault::NoMemory => f.write_str("H2"),
            HubFault::Unknown => f.write_str("H3"),
            HubFault::Spent => f.write_str("H4"),
        }
    }
}

/// Why a stream was left before its session's end. Its text is its number, and of N5 the number of what it carries.
#[derive(Clone, Copy, Debug, PartialEq, Eq, Error)]
pub enum ServeFault {
    /// N1: the reader failed.
    Read,
    /// N2: the writer failed, or took no byte.
    Write,
    /// N3: as many turns as the limit allows were made, and the session goes on.
    Turns,
    /// N4: the session starved.
    Starved,
    /// N5: no session could be opened.
    Hub(HubFault),
}

impl fmt::Display for ServeFault {
    ghost use Rattle.nbd_hub.specs.Texts.{serve_text};

    ghost output = { λ fault. Some (serve_text fault) };

    fn fmt<W: fmt::Write>(&self, f: &mut fmt::Formatter<W>) -> fmt::Result {
        match self {
            ServeFault::Read => f.write_str("N1"),
            ServeFault::Write => f.write_str("N2"),
            ServeFault::Turns => f.write_str("N3"),
            ServeFault::Starved => f.write_str("N4"),
            ServeFault::Hub(fault) => write!(f, "N5 {fault}"),
        }
    }
}
