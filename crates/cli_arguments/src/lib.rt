//! What the program is asked for and why it stopped, in words: the command line as `clap` reads it, and what standard error
//! says to a person.
#![tactic(auto)]

mod explaining;
mod line_files;
mod looking;
mod parts;
mod pulling;
mod serving;
mod slicing;
mod words;

pub use explaining::{
    Refusal, Where, explain, explain_block_size, explain_corrupt, explain_line, explain_no_journal,
    explain_recovered, explain_unused_line, explain_usage, explain_words,
};
pub use line_files::{table_file, to_file};
pub use serving::explain_served;
pub use slicing::{around, slice};
pub use words::{
    DumpWords, EditWords, FormatWords, PullWords, RecoverWords, Request, ServeWords, TalkWords,
    UpdateWords, VerifyWords, read_words,
};
