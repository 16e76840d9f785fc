//! The phases of a session, and the message that each awaits.

ghost use Rattle.std.specs.Prelude.{◌≡◌, ◌≤◌, length};
ghost use Rattle.nbd_session.specs.Messages.{body_size, header_size};

use crate::{handshake, options, transmission};

/// What the server awaits.
#[derive(Clone, Copy, Debug, PartialEq, Eq)]
pub enum Phase {
    /// The client's flags ("Newstyle negotiation").
    Flags,
    /// An option of a client that sent these flags ("Option haggling").
    Options {
        /// Whether the client is fixed newstyle. One that isn't may send EXPORT_NAME alone.
        fixed_newstyle: bool,
        /// Whether the 124 zeros after EXPORT_NAME's answer are left out.
        no_zeroes: bool,
    },
    /// A request ("Transmission phase").
    Transmission,
    /// Nothing: the session has ended.
    Ended,
}

/// The size in bytes of a message's header.
pub fn header_size(phase: Phase) -> usize
    ensures { result ≡ header_size phase }
{
    match phase {
        Phase::Flags => 4,
        Phase::Options { .. } => 16,
        Phase::Transmission => 28,
        Phase::Ended => 1,
    }
}

/// The size in bytes of the body that a whole header announces, or none where the header ends the session.
pub fn body_size(phase: Phase, header: &[u8]) -> Option<u32>
    requires { header_size phase ≤ length header.now }
    ensures { result ≡ body_size phase header.now }
{
    match phase {
        Phase::Flags => handshake::body_size(header),
        Phase::Options { fixed_newstyle, .. } => options::body_size(fixed_newstyle, header),
        Phase::Transmission => transmission::body_size(header),
        Phase::Ended => None,
    }
}
