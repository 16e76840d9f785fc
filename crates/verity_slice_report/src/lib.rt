//! The report of a slice of a volume: every place that is wrong among the data blocks of a run and the hash blocks above them.
//!
//! The contract that the layers above rely on, whatever the stores return: [`report_slice`] reads the blocks of the slice alone, and of
//! all places that are wrong by what they returned it names those of the slice. [`laws`] says what follows: where it names no place, of
//! each data block of the run one was read that ends a chain of blocks from the root hash of the table line; and where the reports of all
//! slices name none, of each data block of the volume.
//!
//! The only error is `AllocError`. The definitions stand in `specs/`: `Sliced` (the places of a slice, and its report), `Runs` (where its
//! hash blocks stand), `Verified` (what follows).
#![tactic(auto)]

mod kept;
pub mod laws;
mod portions;
mod sliced;

pub use sliced::report_slice;
