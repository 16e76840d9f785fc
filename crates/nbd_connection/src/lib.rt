//! The connections of NBD clients and where they come from, as a server uses them: sockets of the system, with what they carried.
//!
//! What a connection carries is a log that only its own `receive` and `send` add to ([`Connection`]), which takes no bytes when the program
//! runs ([`Carried`]); what connections that were given back had carried stands with the listener ([`Door`], [`Visited`]). What the
//! system's sockets do with the bytes is outside what contracts can say. [`Limits`] are what clients may take of a server.
//!
//! The definitions stand in `specs/Connections.antt`.
#![tactic(auto)]

mod carried;
mod connection;
mod door;
mod limits;

pub use carried::{Carried, Visited};
pub use connection::{Connection, Logged, SystemSocket};
pub use door::{Door, Listener, Watched};
pub use limits::Limits;
