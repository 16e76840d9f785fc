//! The plan of a commit of pending edits (`verity_pending`), and its carrying out on the hash store.
//!
//! [`plan_commit`] is all that a commit reads and hashes: it has the changed data blocks hashed, and makes each hash block above
//! one of them again from what stood in its place, level by level (`tree`, `level`, `plan`). It takes the room for its lists before
//! the first hash (`rooms`), changes nothing and reads no data block. [`Pending::apply`] then changes the data store; [`change_hash`]
//! moves the levels that stand elsewhere in the new tree (`levels`), and writes the blocks of the plan and the superblock. They make
//! no room and sync nothing: the layer above does so, before and after.
//!
//! The one contract that the layer above relies on: where the committed image's tree stands in the hash store, a plan has the
//! touched hash blocks and the root of the working image (`IsPlan`, `IsRight`); and carried out over stores that tell, the data
//! store is the working image, and the hash store its tree behind the superblock's block. A plan hashes the changed blocks
//! and the touched ones, and where the count of blocks stays, it reads at most as many hash blocks as are touched.
//!
//! A plan is refused with E5 or E6 of [`EditFault`], and changes nothing. Where the store fails while a plan is carried out
//! ([`StoreFailed`]), it may have been changed.
//!
//! The definitions stand in `specs/`: `Planning` (what a plan is), `Carried` (what carrying it out makes), `Standing`, `Faults`; of
//! the way to them: `Remade`, `Level`, `Making`, `Last`, `Rooms` (hash blocks made again), `Seen` (what a store shows of what it
//! holds), `Levels` (what is moved).
#![tactic(auto)]

mod change;
mod last;
mod level;
mod levels;
mod plan;
mod planning;
mod rooms;
mod tree;

pub use change::change_hash;
pub use planning::{CommitPlan, geometry_over, plan_commit};
pub use tree::Change;
pub use verity_pending::{EditFault, Made, Pending, StoreFailed};
