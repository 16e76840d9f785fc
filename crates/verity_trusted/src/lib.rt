//! Edits and commits of a volume under a trusted table line.
//!
//! A [`LineEditor`] is opened under a trusted table line, and trusts nothing else that its stores hold: it reads the superblock's
//! block alone, and a commit (`under`) checks each old hash block from the line's root down before it is used and before the first
//! change. Over any stores the root that it answers is that of the edited image, for every image that fits the line, or the hash
//! store gave a block that differs from the image's own and has its digest; [`laws`] has what that says of a chain of lines.
//!
//! Over any stores each reply of `answer` says what it means (`IsAnsweredUnder`).
//!
//! The errors are those of `EditFault` of `verity_pending`, as those of an `Editor` of `verity_edit`, and E13 and E14 of the line. A
//! refused call changes nothing, but for a commit of which a store failed after its first change: the editor is then broken, and all
//! but the getters and `close` answers E7.
//!
//! The definitions stand in `specs/`: `Line` (an editor under a line, and what its commits leave), `Lines` (chains of lines), and of the
//! way to them `Under` (a commit under a table line). Commands, replies and what a contract sees of an editor are those of `verity_edit`.
#![tactic(auto)]

pub mod laws;
mod line;
mod line_opening;
mod under;

pub use line::LineEditor;
