//! Why no session comes about.

ghost use Rattle.std.specs.Prelude.{Some};

use std::error::Error;
use std::fmt;

/// A refusal of [`ExportName::new`](crate::ExportName::new) or [`Session::open`](crate::Session::open). Its text is its number.
#[derive(Clone, Copy, Debug, PartialEq, Eq)]
pub enum SessionFault {
    /// P1: a name that hasn't 1 to 255 bytes.
    NameLength,
    /// P2: memory was refused.
    NoMemory,
}

impl fmt::Display for SessionFault {
    ghost use Rattle.nbd_session.specs.Texts.{session_text};

    ghost output = { λ fault. Some (session_text fault) };

    fn fmt<W: fmt::Write>(&self, f: &mut fmt::Formatter<W>) -> fmt::Result {
        match self {
            SessionFault::NameLength => f.write_str("P1"),
            SessionFault::NoMemory => f.write_str("P2"),
        }
    }
}

impl Error for SessionFault {}
