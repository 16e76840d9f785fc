//! Block stores: lists of blocks of one size that may fail and need not be honest.
//!
//! Its one contract is `BlockStore`. A contract over a store sees ten facts of it: its block `size`, its `content`, whether
//! it `tells` (a read gives the block of `content`, a write puts it there), the list of the blocks that its reads gave, with
//! their numbers (`given`), how often it failed (`failures`), how often it was read (`reads`), how often it was asked to change
//! (`changes`), up to how many blocks it has `room`, whether it was asked to keep what was written (`synced`), and what it is
//! bound to (`fixed`), which no call changes. Counts and lists have no bytes at run time. A run of blocks is read into one
//! buffer by `read_run`: block by block, or, where a store has a way of its own as `FileStore` has, at once.
//!
//! Its faults are S1 to S4 (`StoreFault`). A call answers S1 only where `failures` rose in it.
//!
//! Two stores, which are honest: `MemStore` in memory and `FileStore` in a file. A `Window` is a file for a `FileStore`: the first
//! bytes of one that doesn't grow, as of a block device. Stores that fail or lie, for tests, are those of `test_stores`.
//! `move_run` moves a run of blocks within any store.
//!
//! Definitions: `specs/Blocks.antt` (lists of blocks), `specs/Moves.antt` (runs that are moved), `specs/Given.antt` (lists of
//! given blocks, and runs of them), `specs/Stores.antt` (what calls leave of a store's facts), `specs/RawFile.antt` (the bytes of
//! a file), `specs/Window.antt` (its first bytes), `specs/Texts.antt` (the texts).
#![tactic(auto)]

mod fault;
mod file;
mod memory;
mod moves;
mod raw_file;
mod store;
mod window;

pub use base_bytes::HeldBytes as Block;
pub use fault::{StoreFault, Which};
pub use file::FileStore;
pub use memory::MemStore;
pub use moves::move_run;
pub use raw_file::RawFile;
pub use store::BlockStore;
pub use window::Window;
