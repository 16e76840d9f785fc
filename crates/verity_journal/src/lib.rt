//! A journal for the commits of a volume, so that a stop in the middle of one leaves a volume and not a ruin.
//!
//! A commit changes two devices, the data and the hash device, in many writes. A third device, the journal, gets all of them
//! first: [`commit_through`] writes the plan behind a closed gate, opens the gate, makes the changes, and closes it. After a
//! stop [`start`] makes again what an open gate's plan says, and does nothing where the gate is closed. A journal begins with a
//! magic and a version: a file that begins otherwise is none, and is never written.
//!
//! # The contract
//!
//! `verity_disks` says what a stop may leave of three devices under one clock. Over every such `Disks`: a stop at any
//! moment of [`commit_through`] leaves devices that stand for the volume from before the call, or for the one with all
//! changes, byte for byte (`IsOldOrNew`), and after `Ok` for the latter (`made`). A stop at any moment of [`recover`] changes
//! nothing of that, so it may be stopped any number of times. `specs/Journal.antt` has the journal's bytes and what they stand
//! for (`volume`), `specs/Plan.antt` what a plan makes of a device.
//!
//! # Errors
//!
//! `DiskFault`: a device failed; there was too little memory, and nothing was changed; the file is no journal, or not of
//! this volume, and nothing was changed. After a failed device, [`start`] again.
#![tactic(auto)]

mod changing;
mod head;
mod journal;
mod keeper;
pub mod laws;
mod plan;
mod reading;
mod recovering;

pub use head::{GATE_END, Gate, gate_of};
pub use journal::{commit_through, spell};
pub use keeper::Keeper;
pub use plan::{Change, Plan, Side};
pub use reading::parse_journal;
pub use recovering::{recover, start};
