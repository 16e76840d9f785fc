//! The journal of a volume over any system: where it stands, its names of the volume, and what is made of the volume's files by it.
//!
//! What stands at a path, and what becomes of it, only the system knows; clauses speak of any [`os_files::System`]. Nothing is
//! recovered only where nothing is seen at the journal's path. Else what was opened as DATA, as HASH and at the journal's path became
//! three devices, and these are left as the journal's bytes, all of which were read, make of them; a crash at any moment leaves no other
//! volume ([`recover_at`]). [`recover_volume`] opens a volume's files, recovers it and closes them: nothing else is opened to be written.
//! What a commit through a journal guarantees `verity_journal` says.
//!
//! Errors: S1 to S3 and S5 of DATA and HASH; S7 where the journal can't be used, is none, or is of another volume; E6 where DATA or HASH
//! failed. The definitions stand in `specs/`: `Names` (paths and names), `Journals` (what is recovered), `Blamed` (why nothing is).
#![tactic(auto)]

mod faults;
mod making;
mod names;
mod places;
mod reading;
mod recovering;
mod volume;

pub use faults::fault_of_disks;
pub use making::make_journal;
pub use places::{journal_path, names_of_volume, volume_names};
pub use recovering::{FileKeeper, Found, recover_at};
pub use volume::recover_volume;
