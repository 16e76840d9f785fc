//! NBD clients of volumes: sessions, streams that are left, stores that fail and lie, and memory that is refused. Tests, and nothing
//! else.
#![tactic(auto)]

#[cfg(test)]
mod clients;
#[cfg(test)]
mod data_lies;
#[cfg(test)]
mod failures;
#[cfg(test)]
mod hash_lies;
#[cfg(test)]
mod hub_memory;
#[cfg(test)]
mod hubs;
#[cfg(test)]
mod notices;
#[cfg(test)]
mod reply_memory;
#[cfg(test)]
mod session_memory;
#[cfg(test)]
mod sessions;
#[cfg(test)]
mod stream_memory;
#[cfg(test)]
mod streams;
