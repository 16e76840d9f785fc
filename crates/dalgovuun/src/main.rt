//! Dalgovuun: makes, edits, verifies and serves dm-verity volumes.
#![tactic(auto)]

use std::io::{ErrorKind, Write};
use std::process::ExitCode;
use std::{env, io};

fn main(rt: HostRuntime) -> ExitCode {
    let mut input = rt.stdin();
    let mut output = io::writer(&rt);
    let mut errors = rt.stderr();
    ExitCode::from(match words(&rt) {
        Ok(words) => verity_tool::run(&rt, words.as_slice(), &mut input, &mut output, &mut errors),
        Err(error) => unread(error.kind(), &mut output, &mut errors),
    })
}

fn words(rt: &HostRuntime) -> io::Result<Vec<String>> {
    Ok(env::args(rt)?.collect(rt.alloc())?)
}

// The status where the words could not be read: want of memory, or a word that is not UTF-8.
fn unread<W: Write, E: Write>(kind: ErrorKind, output: &mut W, errors: &mut E) -> u8 {
    let (line, words, status) = match kind {
        ErrorKind::OutOfMemory => ("no memory", "memory was refused", 3),
        _ => ("error: a word is not UTF-8", "a word is not UTF-8", 2),
    };
    let _ = writeln!(errors, "dalgovuun: {words}");
    match writeln!(output, "{line}") {
        Ok(()) => status,
        Err(_) => 1,
    }
}
