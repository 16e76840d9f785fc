//! The commands that change a volume: [`edit`] does a script's lines over one, [`update`] makes it that of another image, and
//! [`scratch`], the run without words, makes a small one in memory and does a script over it.
//!
//! A command reads its words; the volume and its journal are opened, and an editor over them, and the command's [`work::Work`] is done
//! there (`over`, `ways`). What a commit is worth the contracts of the layers below say. Over an output whose bytes are known each command
//! says what it printed by then, on which devices, by which script, and its status: a script prints as many answers as it has lines that
//! aren't empty, and its status is 0 exactly where none is a refusal; a commit that is answered is the editor's, and none is where a
//! device has no room for it; an update prints a count of blocks and the table line of a commit.
//!
//! That NEW is that at its path, that each line is answered by what was done of it, that the count is that of the blocks that were
//! changed, that the volume's stores are those of the files at its paths, and what is refused before, is shown by tests.
//!
//! The definitions stand in `specs/`: `Printing` (what each command prints), `Printed` (answers and their lines), `Room` (a device with
//! too little of it), `Work` (what a work prints, and which words it blames), `LineFiles` and `Keeping` (what is left in FILE), `Journals`
//! (the journal's path), `Blamed` (which words a command blames).
#![tactic(auto)]

mod editing;
mod line_files;
mod line_words;
mod over;
mod rest;
mod running;
mod scratch_volume;
mod script;
mod updated;
mod updating;
mod ways;
mod work;

pub use editing::edit;
pub use scratch_volume::scratch;
pub use updating::update;
