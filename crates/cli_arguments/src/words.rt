//! The program's words, as `clap` reads them.

mod dump;
mod edit;
mod format;
mod parts;
mod pull;
mod recover;
mod serve;
mod talk;
mod update;
mod verify;

use clap::{ArgMatches, Command, Error};
pub use dump::DumpWords;
use dump::dump_words;
pub use edit::EditWords;
use edit::edit_words;
pub use format::FormatWords;
use format::format_words;
use parts::{Form, command_of};
pub use pull::PullWords;
use pull::pull_words;
pub use recover::RecoverWords;
use recover::recover_words;
pub use serve::ServeWords;
use serve::serve_words;
use std::alloc::{AllocError, Global};
pub use talk::TalkWords;
use talk::talk_words;
pub use update::UpdateWords;
use update::update_words;
pub use verify::VerifyWords;
use verify::verify_words;

/// What the words ask for. Texts are as they were given; numbers and names are not read yet.
#[derive(Clone, Copy, Debug)]
pub enum Request<'a> {
    /// No word but the program's own name: a volume in memory, and a script over it.
    Scratch,
    Format(FormatWords<'a>),
    Dump(DumpWords<'a>),
    Edit(EditWords<'a>),
    Verify(VerifyWords<'a>),
    Serve(ServeWords<'a>),
    Talk(TalkWords<'a>),
    Recover(RecoverWords<'a>),
    Update(UpdateWords<'a>),
    Pull(PullWords<'a>),
}

/// The program's version.
const VERSION: &str = "0.1";

/// The commands, in the order in which `--help` shows them.
const FORMS: [Form<'static>; 9] = [
    format::FORM,
    dump::FORM,
    edit::FORM,
    update::FORM,
    pull::FORM,
    recover::FORM,
    verify::FORM,
    serve::FORM,
    talk::FORM,
];

/// The program, as `clap` has it.
fn tool<'a>(alloc: Global) -> Result<Command<'a>, AllocError> {
    let tool = Command::new(alloc, "dalgovuun")
        .about("Makes, edits, verifies and serves dm-verity volumes")
        .version(VERSION);
    with_commands(alloc, tool, &FORMS)
}

/// The program with these commands.
fn with_commands<'a>(
    alloc: Global,
    tool: Command<'a>,
    forms: &[Form<'a>],
) -> Result<Command<'a>, AllocError> {
    let mut tool = tool;
    for form in forms {
        let command = command_of(alloc, *form)?;
        tool = tool.subcommand(command)?;
    }
    Ok(tool)
}

fn asked<'a>(matches: &ArgMatches<'a>) -> Option<Request<'a>> {
    match matches.subcommand() {
        None => Some(Request::Scratch),
        Some((name, below)) => asked_by(name, below),
    }
}

/// The request of a command.
fn asked_by<'a>(name: &str, below: &ArgMatches<'a>) -> Option<Request<'a>> {
    match name {
        "format" => format_words(below).map(Request::Format),
        "dump" => dump_words(below).map(Request::Dump),
        "edit" => edit_words(below).map(Request::Edit),
        "verify" => verify_words(below).map(Request::Verify),
        "serve" => serve_words(below).map(Request::Serve),
        "talk" => talk_words(below).map(Request::Talk),
        "recover" => recover_words(below).map(Request::Recover),
        "update" => update_words(below).map(Request::Update),
        "pull" => pull_words(below).map(Request::Pull),
        _ => None,
    }
}

/// Reads the words, of which the first is the program's own name. `None` is for an argument that `clap` required and
/// then did not have. The error is `clap`'s: its texts of usage, help and want of memory.
pub fn read_words<'a>(alloc: Global, words: &'a [String]) -> Result<Option<Request<'a>>, Error> {
    let matches = tool(alloc)?.try_get_matches_from(words)?;
    Ok(asked(&matches))
}
