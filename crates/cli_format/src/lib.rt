//! The command `format`: makes the hash device of a block image, and prints its table line; or one slice of it, or of slices all else.
//!
//! The work is done by the layers below, whose contracts say what it is worth. Over any `System`, and an output whose bytes are known, a
//! clause says of which blocks the line is that [`format`] prints, what it leaves at HASH's path where the stores tell, and which words it
//! blames; what it leaves where it isn't done, and all else that is refused, is shown by tests. Of [`format_slice`] and [`format_join`] a
//! clause says the same of what is printed and left.
//!
//! [`format_kept`] and [`format_join_kept`] put the line that is printed in FILE's place too, over any folder (`os_line_file`); a clause
//! says what FILE holds then, and what a crash or a failure leaves of it.
//!
//! The definitions stand in `specs/`: `Formatting` (what was asked for), `Opening` and `Made` (what is opened, made and left), `Printed`
//! (what is printed), `Kept` (what is left in FILE), `Blamed` (which words are blamed), `Asked` (slices and runs as they are written),
//! `Sliced` (what is made and left in slices).
#![tactic(auto)]

mod asked;
mod formatting;
mod joining;
mod kept;
mod slicing;

pub use formatting::format;
pub use joining::format_join;
pub use kept::{format_join_kept, format_kept};
pub use slicing::format_slice;
