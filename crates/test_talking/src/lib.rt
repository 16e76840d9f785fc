//! NBD sessions over an export in memory: conversations however cut, lengths, many sessions, streams, clients in turn, what is
//! told an export beforehand; and clients over sockets that take nothing. Tests, and the export that they read from.
#![tactic(auto)]

mod image;

pub use image::{Image, make_image};

#[cfg(test)]
mod announcing;
#[cfg(test)]
mod client_memory;
#[cfg(test)]
mod conversations;
#[cfg(test)]
mod hubs;
#[cfg(test)]
mod lengths;
#[cfg(test)]
mod logged;
#[cfg(test)]
mod peers;
#[cfg(test)]
mod sessions;
#[cfg(test)]
mod stalls;
#[cfg(test)]
mod streams;
#[cfg(test)]
mod talk;
#[cfg(test)]
mod turns;
#[cfg(test)]
mod waiting;
