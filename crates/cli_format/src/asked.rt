//! The runs that slices printed.
ghost use Rattle.std.specs.Prelude.{◌≡◌, ◌++◌, ◌∷◌, ◌<◌, ◌≤◌, ℕ, length, slice_index, slice_range, Contains, IfOk, IfSome};
ghost use Rattle.verity_slice.specs.declared.run.Run.{Run};
ghost use Rattle.cli_format.specs.Asked.{IsLine, NamesRun, Tells};

use cli_arguments::around;
use cli_faults::{Word, number};
use std::alloc::{AllocError, Global};
use std::str;
use verity_slice::Run;

/// The runs that lines name. Other lines are passed over.
pub(crate) fn runs_in(alloc: Global, text: &[u8]) -> Result<Vec<Run>, AllocError>
    ensures { IfOk result (λ runs. (run : Run) → Contains runs.items run → Tells text.now run) }
{
    let mut runs = Vec::new(alloc);
    let mut from = 0;
    while from < text.len() {
        let to = end_of_line(text, from);
        if let Some(run) = run_in(&text[from..to]) {
            runs.push(run)?;
        }
        from = to + 1;
    }
    Ok(runs)
}

/// Where the line ends that begins here: at its line feed, or at the text's end.
fn end_of_line(text: &[u8], from: usize) -> usize
    requires { from ≤ length text.now }
    ensures order { from ≤ result }
    ensures within { result ≤ length text.now }
    ensures ends { result < length text.now → slice_index text.now result ≡ 10 }
{
    for at in from..text.len() {
        if text[at] == b'\n' {
            return at;
        }
    }
    text.len()
}

/// The run that a line names, as a slice printed it: `slice A B`. None of any other line.
fn run_in(line: &[u8]) -> Option<Run>
    ensures { IfSome result (NamesRun line.now) }
{
    let Ok(text) = str::from_utf8(line) else {
        return None;
    };
    let named = text.strip_prefix("slice ")?;
    let (first, end) = around(named, ' ')?;
    match (number(Word::Slice, first), number(Word::Slice, end)) {
        (Ok(first), Ok(end)) => Some(Run { first, end }),
        _ => None,
    }
}
