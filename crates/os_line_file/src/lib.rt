//! The two files of a table line: FILE, and FILE.next beside it, which holds the line that is to follow while a commit is under way.
//!
//! Its one contract is [`LineFolder`]: over any folder that meets it, a crash at any moment of a call leaves FILE whole: as a crash might
//! have left it before the call, or, while FILE.next takes its place, with all of that text. After Ok all is on the device.
//! [`OsFolders`] opens the two files of a path on this machine; a [`TearingFolder`] has them in memory, and ends where it is told to.
//!
//! Of this machine's files what is proved is said of two texts beside them, which each call changes as it asks the system to. That the
//! system's files follow, and that a crash takes no more than the clauses say, is trusted.
//!
//! Errors: [`FolderFault`]. The definitions stand in `specs/`: `Folder` (what calls do to both files, and what a crash leaves), `Log`
//! (the steps of a folder that tears).
#![tactic(auto)]

mod files;
mod folder;
mod held;
mod log;
mod real;
mod tearing;

pub use files::{OsFolder, OsFolders};
pub use folder::{FolderFault, LineFolder, LineFolders};
pub use tearing::{Tear, TearingFolder};
