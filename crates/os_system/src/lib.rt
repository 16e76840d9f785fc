//! The real system as commands read it: files and block devices of this machine by their paths, and devices at servers by their URLs.
//!
//! Over any paths and any servers (`Paths`, `Servers`), what `OsSystem` opens at a path stood at that very path, and the path is no URL;
//! what it opens at a URL lies at the server and under the name that the URL names, by `remote_url`'s grammar; and a store over either
//! lies in what was opened, and in nothing else. Nothing at a server is opened to be written, and no URL is DATA or HASH of a command that
//! writes (`check_here`). What a server gives nobody vouches for; the commands check it.
//!
//! A device at a server is read as a block device is: it takes no lock, has no journal beside it, and may be longer than is asked for.
//! Reads that follow one another are read ahead (`remote_read_ahead`). Why a server's device couldn't be opened, and how long it was, is
//! kept for standard error (`Notes`).
//!
//! The definitions stand in `specs/`: `Located` (what was opened, where).
#![tactic(auto)]

mod located;
mod servers;
mod stores;
mod system;

pub use located::{Located, Remote};
pub use servers::{Network, Servers};
pub use system::{OsFile, OsStore, OsSystem};
