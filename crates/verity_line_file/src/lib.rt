//! The table line of a volume in a file: FILE, and FILE.next while a commit is under way.
//!
//! [`LineFile`] reads the line, writes the one that is to follow before the first change of a commit ([`LineFile::begin`]), puts it in
//! FILE's place once the commit is whole ([`LineFile::finish`]), and after a crash looks which of the two is the volume's
//! ([`LineFile::settle`]). What a volume shows of its line is [`Shown`]: the values of its superblock, and the digest of its top block as
//! a store returned it in that call. Which line is left follows from this and the two texts alone, and it is one of the two.
//!
//! What the layer above relies on, over any [`os_line_file::LineFolder`]: where FILE held the line of the volume from before a commit, a
//! crash at any moment leaves both files so that `settle` leaves the line of the volume as it is, from before the commit or from after it
//! ([`laws`]). Where the volume is of neither line, both files stay.
//!
//! While a pull is under way, which changes DATA and HASH block by block, FILE.next has no line but the word `pull`
//! ([`LineFile::begin_pull`]): until it is done the volume is of no line.
//!
//! Errors: [`LineFileFault`], [`ShownFault`]. The definitions stand in `specs/`: `Lines` (a text, and the line that it holds), `Shown`
//! (what a volume shows), `Standing` (of which volume both files hold the line).
#![tactic(auto)]

mod fault;
pub mod laws;
mod line_file;
mod pulling;
mod shown;
mod text;

pub use fault::LineFileFault;
pub use line_file::{LineFile, Settled};
pub use pulling::says_pull;
pub use shown::{Shown, ShownFault};
