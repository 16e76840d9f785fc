//! Progress for a person: how much of a file was read by now, how fast, and how long it takes to the end.
//!
//! A [`Watched`] is a store over another that tells a [`Meter`] of each block that is read or written. What it holds and does is
//! what the store below holds and does: a contract sees that store in its place, so no layer that works on stores knows of it.
//! A [`Progress`] is the meter that prints to standard error, from the first second on, at most five times a second.
//!
//! What the layer above relies on: a watched store is the store below; a line of progress names the part, the speed and the
//! seconds that `specs/Progress.antt` says. That it comes in time, and that it is cleared, is shown by tests.
#![tactic(auto)]

mod figures;
mod progress;
mod watched;

pub use progress::Progress;
pub use watched::{Meter, Watched};
