//! The statuses that the process ends with.

/// What was asked for is done.
pub const DONE: u8 = 0;
/// Refused or corrupt, or a fault of a file, a socket or the output.
pub const REFUSED: u8 = 1;
/// The words were not understood.
pub const NOT_UNDERSTOOD: u8 = 2;
/// Memory was refused.
pub const NO_MEMORY: u8 = 3;
