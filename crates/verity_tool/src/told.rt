//! The output of `serve`, told to a person too.

ghost use Rattle.std.specs.Prelude.{◌≡◌};

use cli_arguments::{explain_served, explain_words};
use cli_faults::Failure;
use std::io::{ErrorKind, Write};
use std::{io, str};

/// How many bytes of a line are looked at. A line that names a fault has fewer.
const MOST: usize = 64;

/// An output that is passed on as it is, each of whose lines that names a fault is told in words on `errors`.
#[derive(Drop)]
pub struct Told<'a, W: Write, E: Write> {
    output: &'a mut W,
    errors: &'a mut E,
    address: &'a str,
    line: [u8; MOST],
    len: usize,
    is_lost: bool,
}

impl<'a, W: Write, E: Write> Told<'a, W, E> {
    /// Of a server at this address.
    pub fn new(output: &'a mut W, errors: &'a mut E, address: &'a str) -> Told<'a, W, E> {
        Told {
            output,
            errors,
            address,
            line: [0; MOST],
            len: 0,
            is_lost: false,
        }
    }

    /// Takes what was written to the line, and tells each that ends.
    fn hear(&mut self, bytes: &[u8])
        ensures { self.new.output ≡ self.old.output }
    {
        for byte in bytes {
            if *byte == b'\n' {
                self.tell();
                self.len = 0;
            } else if self.len < MOST {
                self.line[self.len] = *byte;
                self.len += 1;
            }
        }
    }

    fn tell(&mut self)
        ensures output { self.new.output ≡ self.old.output }
        ensures len { self.new.len ≡ self.old.len }
    {
        if let Some(line) = self.line.get(..self.len) {
            if let Ok(line) = str::from_utf8(line) {
                explain_served(line, self.address, self.errors);
            }
        }
    }

    /// Says once that the output can't be written.
    fn lose(&mut self, kind: ErrorKind)
        ensures { self.new.output ≡ self.old.output }
    {
        if !self.is_lost && kind != ErrorKind::Interrupted && kind != ErrorKind::OutOfMemory {
            self.is_lost = true;
            explain_words(Failure::Output, self.errors);
        }
    }
}

impl<'a, W: Write, E: Write> Write for Told<'a, W, E> {
    ghost contents = { λ told. W.contents told.output.now };

    fn write(&mut self, buf: &[u8]) -> io::Result<usize> {
        match self.output.write(buf) {
            Ok(count) => {
                self.hear(&buf[..count]);
                Ok(count)
            }
            Err(error) => {
                self.lose(error.kind());
                Err(error)
            }
        }
    }

    fn flush(&mut self) -> io::Result<()> {
        self.output.flush()
    }
}
