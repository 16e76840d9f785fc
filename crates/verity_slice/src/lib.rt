//! Work on many things in a row that is cut into runs, as equal as can be, for processes side by side.
//!
//! A [`Slice`] is the K-th of N; its [`Run`] of so many things is the K-th of the N runs into which these are cut. [`cover`] says
//! whether runs have each of so many things among them.
//!
//! The one contract that the layers above rely on: the N runs follow one another from the first thing to the last, none is longer than
//! another by more than one (`cuts_evenly`), and `cover` returns true exactly where each thing is in a run. There is no error, and
//! nothing takes memory. The definitions stand in `specs/Slices.antt`.
#![tactic(auto)]

mod laws;
mod run;
mod slice;

pub use laws::cuts_evenly;
pub use run::{Run, cover};
pub use slice::Slice;
