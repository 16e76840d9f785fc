//! Why a server ends before its last connection.

ghost use Rattle.std.specs.Prelude.{◌≡◌};
ghost use Rattle.nbd_serve.specs.declared.stop.Stop.TheVariants as stop;

use std::alloc::AllocError;

/// Why a server ends before its last connection.
#[derive(Clone, Copy, Debug, Drop, PartialEq, Eq)]
pub enum Stop {
    /// The system refused a poll, or connections can't be accepted.
    Socket,
    /// Memory was refused.
    NoMemory,
    /// A line can't be written.
    Output,
}

impl From<AllocError> for Stop {
    fn from(_error: AllocError) -> Stop
        ensures { result ≡ stop.NoMemory }
    {
        Stop::NoMemory
    }
}
