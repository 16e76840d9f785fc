//! The lines of an editing script.
//!
//! A script is a text of lines; each asks for one edit of a volume, or for a commit. [`read_line`] says which, and takes
//! no memory.
//!
//! The one contract that the layer above relies on: a line is read exactly as the definition in `specs/Script.antt` says,
//! and a line that it doesn't name is answered by `None`.
#![tactic(auto)]

mod line;

pub use line::{Line, read_line};
