//! A stream of a client.

ghost use Rattle.std.specs.Prelude.{◌≡◌, ◌≢◌, ◌<◌, ◌+◌, ℕ, List, length, Bool, true, Option, None, IfOk, OnOk};
ghost use Rattle.nbd_relay.specs.Asked.{Asked, IsAsked, IsHandedOn};
ghost use Rattle.std.specs.Io.{ReadsAtMost, WritesAtMost};
ghost use Rattle.std.specs.Io.KnownBytes.{Keeps, ReadConsumes, WriteAppends};

use base_count::Count;
use std::io::{self, ErrorKind, Read, Write};
use std::marker::Model;

/// A stream in both directions, which may not be ready: it then answers `WouldBlock`, and has neither given nor taken a byte.
///
/// What it took may wait in it until it is flushed, which [`Client::flush`](crate::Client::flush) does; no turn does so.
///
/// Contracts see the bytes that it will give, those that it gave, and those that it was given, where they are known. What is
/// read changes nothing of what was written, and the other way: a bound `Read + Write` says neither.
pub trait Stream {
    /// The bytes that it will give.
    ghost remaining: { Self → Option (List ℕ) } = { λ _. None };

    /// The bytes that it gave.
    ghost received: { Self → Option (List ℕ) } = { λ _. None };

    /// The bytes that it was given.
    ghost contents: { Self → Option (List ℕ) } = { λ _. None };

    /// How often it was asked, wasn't ready, and failed.
    ghost asked: { Self → Asked };

    /// It holds nothing that it took. A stream that hands on at once is always so.
    ghost flushed: { Self → Bool } = { λ _. true };

    /// Reads into the buffer, and tells how many bytes.
    fn receive(&mut self, buf: &mut [u8]) -> io::Result<usize>
        ensures bound { ReadsAtMost result buf.new }
        ensures bytes { ReadConsumes (remaining self.old) (remaining self.new) result buf.new }
        ensures received { WriteAppends (received self.old) (received self.new) result buf.new }
        ensures written { Keeps (contents self.old) (contents self.new) }
        ensures asked { IsAsked (asked self.old) (asked self.new) result };

    /// Writes a beginning of the bytes, and tells how many.
    fn send(&mut self, buf: &[u8]) -> io::Result<usize>
        ensures bound { WritesAtMost result buf.now }
        ensures bytes { WriteAppends (contents self.old) (contents self.new) result buf.now }
        ensures unread { Keeps (remaining self.old) (remaining self.new) }
        ensures received { Keeps (received self.old) (received self.new) }
        ensures asked { IsAsked (asked self.old) (asked self.new) result }
        ensures stuck { IfOk result (λ n. n ≡ 0 → 0 < length buf.now → (asked self.old).failures < (asked self.new).failures) };

    /// Hands on what it took and holds.
    fn flush(&mut self) -> io::Result<()>
        ensures unread { Keeps (remaining self.old) (remaining self.new) }
        ensures received { Keeps (received self.old) (received self.new) }
        ensures written { Keeps (contents self.old) (contents self.new) }
        ensures asked { IsHandedOn (asked self.old) (asked self.new) result }
        ensures flushed { OnOk result (flushed self.new ≡ true) };
}

/// Counts of what a stream was asked and answered. They take no bytes.
#[derive(Drop)]
pub struct Asks {
    calls: Count,
    waits: Count,
    failures: Count,
}

impl Model for Asks {
    ghost use Rattle.nbd_relay.specs.Asked.{Asked};

    ghost Value = { Asked };

    ghost view = { λ a. record { calls = a.calls.steps; waits = a.waits.steps; failures = a.failures.steps } };
}

impl Asks {
    /// Nothing was asked.
    pub fn new() -> Asks
        ensures { result ≡ record { calls = 0; waits = 0; failures = 0 } }
    {
        Asks {
            calls: Count::new(),
            waits: Count::new(),
            failures: Count::new(),
        }
    }

    /// Counts an answer; `stuck` says that it took no byte of some.
    pub fn note(&mut self, answer: &io::Result<usize>, stuck: bool)
        ensures asked { IsAsked self.old self.new answer.now }
        ensures stuck { stuck ≡ true → IfOk answer.now (λ n. n ≡ 0 → self.old.failures < self.new.failures) }
    {
        self.calls.step();
        match answer {
            Ok(0) => {
                if stuck {
                    self.failures.step();
                }
            }
            Ok(_) => {}
            Err(e) => {
                if e.kind() == ErrorKind::WouldBlock {
                    self.waits.step();
                } else {
                    self.failures.step();
                }
            }
        }
    }

    /// Counts what came of a flush, which is no asking: an error alone.
    pub fn note_flush(&mut self, answer: &io::Result<()>)
        ensures { IsHandedOn self.old self.new answer.now }
    {
        if let Err(e) = answer {
            if e.kind() == ErrorKind::WouldBlock {
                self.waits.step();
            } else {
                self.failures.step();
            }
        }
    }
}

/// A reader and a writer as one stream.
#[derive(Drop)]
pub struct Pair<R, W> {
    pub reader: R,
    pub writer: W,
    pub asks: Asks,
}

impl<R: Read, W: Write> Stream for Pair<R, W> {
    ghost remaining = { λ s. R.remaining s.reader };

    ghost contents = { λ s. W.contents s.writer };

    ghost asked = { λ s. s.asks };

    fn receive(&mut self, buf: &mut [u8]) -> io::Result<usize> {
        let answer = self.reader.read(buf);
        self.asks.note(&answer, false);
        answer
    }

    fn send(&mut self, buf: &[u8]) -> io::Result<usize> {
        let answer = self.writer.write(buf);
        self.asks.note(&answer, !buf.is_empty());
        answer
    }

    fn flush(&mut self) -> io::Result<()> {
        let answer = self.writer.flush();
        self.asks.note_flush(&answer);
        answer
    }
}
