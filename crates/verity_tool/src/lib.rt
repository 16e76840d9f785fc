//! The program, as a library: [`run`] takes the words, the input and the output, and answers the status; [`serve_on`] serves a hub at a
//! listener, as `serve` does.
//!
//! The work is done by the layers below, whose contracts say what it is worth; here a command reads its words, opens a volume
//! (`cli_volume`), makes one call or a few, and prints lines. The commands that change a volume are those of `cli_edit`, those
//! that check and serve one those of `cli_serve`, `format` is `cli_format`'s, `dump` `cli_dump`'s and `recover` `cli_recover`'s.
//! What they print clauses of theirs say; that `run` calls the one that is asked for, and which status it answers, is shown by tests.
#![tactic(auto)]

mod anywhere;
mod program;
mod told;

pub use cli_serve::serve_on;
pub use program::run;
