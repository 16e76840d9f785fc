//! The command `recover` over any system: makes whole a commit that a crash cut short.
//!
//! [`recover`] reads its arguments, calls `os_journal::recover_volume` and prints one line. Its clause leads from the system before to the
//! one after by the openings of DATA, of HASH and of the journal, their closing and the journal's removal, and nothing else: so over a
//! system whose devices are as they say, both hold what the journal stands for, the volume before the commit or the one after it. Where
//! the file of a table line is named, `cli_line_file::settle_line` leaves the line of that volume in it, before the line is printed: from
//! the folders before to those after leads that the folder of that file was opened and closed, and nothing else.
//!
//! The definitions stand in `specs/Recovered.antt`. Its errors are those of `recover_volume` and of `settle_line`, arguments that aren't
//! understood, and an output that can't be written.
#![tactic(auto)]

mod recovering;

pub use recovering::recover;
