//! The two ends of a stream: what is read, and what is written.

ghost use Rattle.std.specs.Prelude.{◌≡◌, ℕ, List, Option};
ghost use Rattle.std.specs.Io.{ReadsAtMost, WritesAtMost};
ghost use Rattle.std.specs.Io.KnownBytes.{Keeps, ReadConsumes, WriteAppends};
ghost use Rattle.nbd_hub.specs.Failures.{CountsCall, CountsWrite};

use base_count::Count;
use std::io::{self, Read, Write};

/// What a stream is read from.
///
/// Contracts see the bytes that are left, where they are known, and how often a read failed: a bound `Read` doesn't count.
pub trait Input {
    /// The bytes that are left, where they are known.
    ghost remaining: { Self → Option (List ℕ) };

    /// How often a read failed.
    ghost failures: { Self → ℕ };

    /// Reads into the buffer, and returns how many bytes.
    fn read(&mut self, buf: &mut [u8]) -> io::Result<usize>
        ensures bound { ReadsAtMost result buf.new }
        ensures bytes { ReadConsumes (remaining self.old) (remaining self.new) result buf.new }
        ensures failures { CountsCall (failures self.old) (failures self.new) result };
}

/// What a stream is written to.
///
/// Contracts see the bytes that it holds, where they are known, and how often a call failed: a bound `Write` doesn't count.
pub trait Output {
    /// The bytes that it holds, where they are known.
    ghost contents: { Self → Option (List ℕ) };

    /// How often a call failed, or took no byte of some.
    ghost failures: { Self → ℕ };

    /// Writes a beginning of the bytes, and returns how many.
    fn write(&mut self, buf: &[u8]) -> io::Result<usize>
        ensures bound { WritesAtMost result buf.now }
        ensures bytes { WriteAppends (contents self.old) (contents self.new) result buf.now }
        ensures failures { CountsWrite (failures self.old) (failures self.new) buf.now result };

    /// Hands on what it holds.
    fn flush(&mut self) -> io::Result<()>
        ensures bytes { Keeps (contents self.old) (contents self.new) }
        ensures failures { CountsCall (failures self.old) (failures self.new) result };
}

/// A reader whose failures are counted. The count takes no bytes.
#[derive(Drop)]
pub struct CountedReader<R> {
    pub reader: R,
    failures: Count,
}

impl<R: Read> CountedReader<R> {
    /// No read has failed yet.
    pub fn new(reader: R) -> CountedReader<R>
        ensures { result.reader ≡ reader }
    {
        CountedReader {
            reader,
            failures: Count::new(),
        }
    }
}

impl<R: Read> Input for CountedReader<R> {
    ghost remaining = { λ r. R.remaining r.reader };

    ghost failures = { λ r. r.failures.steps };

    fn read(&mut self, buf: &mut [u8]) -> io::Result<usize> {
        let answer = self.reader.read(buf);
        if answer.is_err() {
            self.failures.step();
        }
        answer
    }
}

/// A writer whose failures are counted. The count takes no bytes.
#[derive(Drop)]
pub struct CountedWriter<W> {
    pub writer: W,
    failures: Count,
}

impl<W: Write> CountedWriter<W> {
    /// No call has failed yet.
    pub fn new(writer: W) -> CountedWriter<W>
        ensures { result.writer ≡ writer }
    {
        CountedWriter {
            writer,
            failures: Count::new(),
        }
    }
}

impl<W: Write> Output for CountedWriter<W> {
    ghost contents = { λ w. W.contents w.writer };

    ghost failures = { λ w. w.failures.steps };

    fn write(&mut self, buf: &[u8]) -> io::Result<usize> {
        let answer = self.writer.write(buf);
        match &answer {
            Ok(0) => {
                if !buf.is_empty() {
                    self.failures.step();
                }
            }
            Ok(_) => {}
            Err(_) => self.failures.step(),
        }
        answer
    }

    fn flush(&mut self) -> io::Result<()> {
        let answer = self.writer.flush();
        if answer.is_err() {
            self.failures.step();
        }
        answer
    }
}
