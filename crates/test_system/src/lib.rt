//! Whole commands over a system in memory, whose files keep what is written, lose what isn't synced, or fail at a call.
//!
//! [`MemSystem`] has three files, `data`, `hash` and `hash.journal`; each store over one fails at the call that it is told. The devices of
//! a journal end after so many calls, and of what was done to them since their last sync nothing is kept. What a command promises over any
//! system is, over this one, said of its files: [`format_in_memory`], [`recover_in_memory`].
//!
//! [`MemFolders`] has the two files of a table line, which are as they are told whenever they are opened.
//!
//! [`FourFiles`] has a source's two files and the two that `pull` makes of it, for tests alone.
#![tactic(auto)]

#[cfg(test)]
mod commands;
#[cfg(test)]
mod crashes;
mod folders;
mod formats;
mod four_files;
mod memory;
#[cfg(test)]
mod pulls;
mod recovers;

pub use folders::MemFolders;
pub use formats::format_in_memory;
pub use four_files::{Four, FourFiles, FourOpened};
pub use memory::{MemOpened, MemSystem, Name};
pub use recovers::recover_in_memory;
