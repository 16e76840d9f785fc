//! What standard error says of the lines of a server.

use crate::explaining::explain_words;
use cli_faults::Failure;
use cli_messages::{Meaning, Number};
use std::io;
use std::io::Write;

/// The faults that a server's lines name.
const NUMBERS: [Number; 10] = [
    Number::N1,
    Number::N2,
    Number::N3,
    Number::N4,
    Number::N5,
    Number::N6,
    Number::H1,
    Number::H2,
    Number::H3,
    Number::H4,
];

/// Says what a line of `serve`, at this address, means, where it names a fault: whose, what is wrong, by which fault, and what to
/// do next. What can't be written is passed over.
pub fn explain_served<E: Write>(line: &str, address: &str, errors: &mut E) {
    if let Some(rest) = line.strip_prefix("session ") {
        if let Some((number, fault)) = rest.split_once(' ') {
            if fault != "ended" {
                let _ = tell_session(number, fault, errors);
            }
        }
    } else if let Some(fault) = line.strip_prefix("refused ") {
        let _ = write!(errors, "dalgovuun: {address}");
        let _ = tell_fault(fault, errors);
    } else if line == "no memory" {
        explain_words(Failure::NoMemory, errors);
    }
}

/// Why a client's session was left.
fn tell_session<E: Write>(number: &str, fault: &str, errors: &mut E) -> io::Result<()> {
    write!(errors, "dalgovuun: session {number}")?;
    tell_fault(fault, errors)
}

/// The rest of a line, from what is wrong on.
fn tell_fault<E: Write>(fault: &str, errors: &mut E) -> io::Result<()> {
    let (number, cause) = fault.split_once(' ').unwrap_or((fault, ""));
    tell_what(number, errors)?;
    tell_what(cause, errors)?;
    write!(errors, " ({fault})")?;
    tell_next(number, errors)?;
    tell_next(cause, errors)?;
    writeln!(errors)
}

fn tell_what<E: Write>(number: &str, errors: &mut E) -> io::Result<()> {
    if let Some(meaning) = meaning_of(number) {
        let what = meaning.what;
        write!(errors, ": {what}")?;
    }
    Ok(())
}

fn tell_next<E: Write>(number: &str, errors: &mut E) -> io::Result<()> {
    if let Some(meaning) = meaning_of(number) {
        if !meaning.next.is_empty() {
            let next = meaning.next;
            write!(errors, "; {next}")?;
        }
    }
    Ok(())
}

/// What a number means that a server's line names.
fn meaning_of(word: &str) -> Option<Meaning> {
    for number in NUMBERS {
        let meaning = number.meaning();
        if meaning.number == word {
            return Some(meaning);
        }
    }
    None
}
