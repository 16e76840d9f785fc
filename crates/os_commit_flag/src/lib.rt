//! Whether a commit of a volume is under way, as the commit flag of its journal says.
//!
//! What stands at a path only the system knows; clauses speak of any `System`. No commit flag is open where a check says so (`check_gate`,
//! `check_other_gate`). A file that is no journal, by its first bytes, is refused. How a journal is recovered and made `os_journal` says,
//! and what a commit through one guarantees `verity_journal`.
//!
//! The definitions stand in `specs/`: `Shut` (whether a commit flag is open), `Refusals` (why a check says no).
#![tactic(auto)]

mod shut;

pub use shut::{check_gate, check_other_gate};
