//! Volumes and heaps for the tests of the layers, which stand in crates of their own above them.
//!
//! Memory is refused by a heap of bounded size (`linked_list_allocator`): a run is repeated with one step more room each
//! time, until nothing is refused, so that each request that needs more than the run has held so far is refused once.
#![tactic(auto)]

mod heaps;
mod volumes;

pub use heaps::{STEP, fill};
pub use volumes::{BuiltVolume, copy, device, flip, image, make_volume, numbered, params, table};
