//! A store of which the blocks of some runs are shown, so that a walk over all blocks reads these alone.
//!
//! The contract that the layers above rely on: a [`Portion`] is a `BlockStore`. What it returns of a block that is shown, the store below
//! returned since the portion was made, and where that store is honest it is the block that is held there. Any other block reads as zeros,
//! without a read of the store below: all that this one returned since then is of blocks that are shown ([`Portion::store`]). So it fails
//! only where the store below failed.
//!
//! Its only errors are those of the store below. The definitions stand in `specs/`: `Portion`.
#![tactic(auto)]

mod past;
mod portion;

pub use portion::Portion;
