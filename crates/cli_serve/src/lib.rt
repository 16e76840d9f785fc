//! The commands that open a volume under its table line, check each block that they read, and change nothing: `verify` reports what is
//! wrong in it, `serve` serves it to NBD clients, and `talk` to the one at the other end of the standard input and output.
//!
//! The work is done by the layers below, whose contracts say what it is worth; here a command reads its words, opens the volume, makes one
//! call or a few, and prints lines. Over any `System` the volume's stores lie in what was opened at the two paths of its line, and no gate
//! is open beside its hash device (`open_stores`); a hub is of that line, under that name, over such stores, and has no session yet
//! (`open_hub`). What `verify` prints, and where they are done what `serve` prints and `talk` reads and says, clauses say, over an input
//! and an output whose bytes are known, and that `talk` leaves its client for a failed read or write where one failed, and nowhere else;
//! all else that is printed and refused is shown by tests.
//!
//! `serve` prints the place of each block that it can't serve on standard error, once: `BadPlaces` is notified of each refusal, and `Named`
//! decides which of them is printed; a clause says which that is.
//!
//! Where the line may stand in a file, `verify_kept` and its kin read it there first, and a clause says that it is that file's.
//!
//! The definitions stand in `specs/`: `Opening` (the volume that is opened), `Kept` (the trusted line), `Printed` (what `verify` and
//! `serve` print), `Sliced` (what `verify --slice` prints), `Serving` (what `talk` serves), `Blamed` (which words a command blames),
//! `Limited` (what clients may take), `BadPlaces` and `Naming` (which bad places are named, and how).
#![tactic(auto)]

mod bad;
mod bad_places;
mod failing;
mod kept;
mod named;
mod opened;
mod serving;
mod slicing;
mod talking;
mod verifying;

pub use failing::fail;
pub use kept::{serve_kept, talk_kept, verify_kept, verify_slice_kept};
pub use serving::{serve, serve_on};
pub use slicing::verify_slice;
pub use talking::talk;
pub use verifying::verify;
pub use verity_hub::{CountedReader, CountedWriter};
