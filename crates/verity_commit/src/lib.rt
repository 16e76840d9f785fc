//! A commit of an editor that survives a stop.
//!
//! [`commit_editor`] is what the program does at each `commit` of a script: an editor of `verity_edit` commits to two staged stores
//! (`verity_stage`), and what is staged goes through the journal to the devices (`verity_journal`).
//!
//! [`commit_line_editor`] is the same for an editor under a trusted table line. [`commit_editor_noted`] and [`commit_line_editor_noted`]
//! tell a [`Notice`] of the commit once the editor has made it: any change of the devices comes after that. [`commit_editor_in_place`] and
//! [`commit_line_editor_in_place`] do so over two files that have no journal.
//!
//! # The contract
//!
//! Over any devices that meet the clauses of `Disks` and hold the stores below: a stop at any moment leaves devices from which a start
//! makes what they held before the call, or what both staged stores hold after it, byte for byte (`any_moment`), and after `Ok`
//! they hold the latter (`made`), which is the edited image and the hash device made of it from scratch (`done`; under a line, over
//! stores that held the image, and over any stores the answered root is worth what the line was).
//!
//! # Errors
//!
//! [`CommitFault`]: the editor's, and then the devices weren't touched; or the journal's. [`NotedFault`]: or the notice's, and then they
//! weren't touched either.
#![tactic(auto)]

mod committing;
mod fault;
mod noted;
mod notice;
mod placing;

pub use committing::{commit_editor, commit_line_editor};
pub use fault::CommitFault;
pub use noted::{commit_editor_noted, commit_line_editor_noted};
pub use notice::{NotedFault, Notice};
pub use placing::{PlaceFault, commit_editor_in_place, commit_line_editor_in_place};
