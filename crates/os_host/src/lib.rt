//! This machine's files and block devices, by their paths: the one system over which the program's commands run here.
//!
//! [`Paths`] names what is asked of the system, a ghost for each question; its one impl over the machine passes each on, which is trusted.
//! [`Host`] is a `System` over any [`Paths`]: its stores lie in the very file that was opened.
//!
//! Errors: S1 to S5 of a file, and want of memory. The definitions stand in `specs/`: `Lengths` (how many bytes there are), `Parts` (what a
//! store lies in), `Locks` (what the system says of a lock).
#![tactic(auto)]

mod asked;
mod host;
mod locks;
mod opening;
mod paths;
mod stores;

pub use asked::Asked;
pub use host::Host;
pub use opening::{Opened, fault_of, open_there};
pub use paths::Paths;
pub use stores::{
    AskedStore, VolumeStore, asked_store, file_anew, file_of_first, file_of_most, len_anew,
    len_by_now, len_of_most, new_store, room_of, store_of_first, store_of_most, whole_file,
    whole_store,
};
