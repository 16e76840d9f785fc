//! The file of a table line, as the commands use it: read, kept, and settled after a crash.
//!
//! FILE holds the table line of a volume, and FILE.next beside it the one that is to follow while a commit is under way. A command that
//! only reads takes the line ([`line_text`]), and is refused where a commit is under way. One that writes looks first that neither of the
//! two files is one of the volume's ([`check_apart_from`]), and after a crash which of both lines is the volume's ([`settle_line`]): that
//! follows from the superblock and the digest of the top block, both read in that call, and the line that is left is one of the two. It
//! puts its own line in FILE's place by [`begin_line`] before its first change of the volume and [`finish_line`] after the last one, or
//! by [`keep_line`] or [`keep_printed`] where there is nothing in between. A pull makes a volume block by block; until it is done no line
//! is the volume's: FILE.next says that it is under way ([`begin_pull`]).
//!
//! Its errors are the numbered faults of the commands: S1 where the folder refuses, S6, L1 to L9, and of a volume that is neither line's
//! those that `edit --table` has. The definitions stand in `specs/`: `Files` (what FILE holds), `Apart` (which files are one), `Keeping`
//! (what is left where a line is kept), `Looking` (what a volume shows by a line), `Settling` (which line is left), `Faults`.
#![tactic(auto)]

mod apart;
mod faults;
mod keeping;
mod looking;
mod opening;
mod settling;
mod text;

pub use apart::check_apart_from;
pub use keeping::{begin_line, begin_pull, finish_line, keep_line, keep_printed, try_next};
pub use opening::{close_line_file, line_text, open_line_file};
pub use settling::{settle_line, settle_opened};
