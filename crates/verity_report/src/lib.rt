//! The report of a volume: every place that is wrong, in one walk over its data blocks.
//!
//! [`check_all`] goes through the data blocks by rising number, down to each run of them from the top: it reads each place at most
//! once, and none below one that is bad or couldn't be read. The data blocks of a run have one parent and are hashed side by side.
//! `ahead` has what a walk over data blocks and a read of a range share: how long a run is, how it is read, and how many of its
//! digests are those that are named.
//!
//! The one contract that the layer above relies on: where both stores tell, a [`Report`] lists exactly the bad and unread places, the
//! top level first, level 0, then the data blocks, each by rising index (`IsReportOf`); and over any stores it counts as unchecked
//! as many places as weren't read.
//!
//! No error but `AllocError`.
//!
//! The tree of a table line and its places are defined in `verity_chain`, below. The definitions stand in `specs/`: `Finding` (what is
//! found at a place) and `Report` (what is listed), `Stores` (what contracts see of both stores); `Descent` is how far a report has come.
#![tactic(auto)]

mod ahead;
mod descent;
mod finding;
mod report;
mod row;
mod siblings;

pub use ahead::{agreeing, longest_run, read_ahead, run_len};
pub use finding::{Finding, Verdict};
pub use report::{Faults, Report, check_all};
