//! Clients over streams in memory that answer `WouldBlock` at each second call and move one byte at a time.

ghost use Rattle.std.specs.Prelude.{◌≡◌, Some};
ghost use Rattle.std.specs.Io.{ReadsAtMost, WritesAtMost};
ghost use Rattle.std.specs.Io.KnownBytes.{WriteAppends};

use crate::hubs::{end, make_sessions, serve_alone};
use crate::image::Image;
use nbd_hub::Sessions;
use nbd_relay::{Asks, Client, Stream, Turn};
use std::alloc::{AllocError, Global};
use std::io::{self, ErrorKind};
use std::test::Fail;

/// A stream that isn't ready at each second call, and gives and takes one byte at a time.
#[derive(Drop)]
struct Slow {
    input: Vec<u8>,
    output: Vec<u8>,
    ready: bool,
    asks: Asks,
}

impl Slow {
    /// Whether it is ready this time.
    fn is_ready(&mut self) -> bool
        ensures input { self.new.input ≡ self.old.input }
        ensures output { self.new.output ≡ self.old.output }
        ensures asks { self.new.asks ≡ self.old.asks }
    {
        self.ready = !self.ready;
        self.ready
    }

    fn give(&mut self, buf: &mut [u8]) -> io::Result<usize>
        ensures bound { ReadsAtMost result buf.new }
        ensures output { self.new.output ≡ self.old.output }
        ensures asks { self.new.asks ≡ self.old.asks }
    {
        if self.is_ready() {
            return Err(io::Error::from(ErrorKind::WouldBlock));
        }
        match buf.first_mut() {
            Some(first) => match self.input.pop() {
                Some(byte) => {
                    *first = byte;
                    Ok(1)
                }
                None => Ok(0),
            },
            None => Ok(0),
        }
    }

    fn take(&mut self, buf: &[u8]) -> io::Result<usize>
        ensures bound { WritesAtMost result buf.now }
        ensures bytes { WriteAppends (Some self.old.output.items) (Some self.new.output.items) result buf.now }
        ensures asks { self.new.asks ≡ self.old.asks }
    {
        if self.is_ready() {
            return Err(io::Error::from(ErrorKind::WouldBlock));
        }
        match buf.first() {
            Some(&byte) => match self.output.push(byte) {
                Ok(()) => Ok(1),
                Err(_) => Err(io::Error::from(ErrorKind::OutOfMemory)),
            },
            None => Ok(0),
        }
    }
}

impl Stream for Slow {
    ghost contents = { λ s. Some s.output.items };

    ghost asked = { λ s. s.asks };

    fn receive(&mut self, buf: &mut [u8]) -> io::Result<usize> {
        let answer = self.give(buf);
        self.asks.note(&answer, false);
        answer
    }

    fn send(&mut self, buf: &[u8]) -> io::Result<usize> {
        let answer = self.take(buf);
        self.asks.note(&answer, !buf.is_empty());
        answer
    }

    fn flush(&mut self) -> io::Result<()> {
        Ok(())
    }
}

fn make_slow(alloc: Global, input: &[u8]) -> Result<Slow, AllocError> {
    let mut reversed = Vec::new(alloc);
    for byte in input.iter().rev() {
        reversed.push(*byte)?;
    }
    Ok(Slow {
        input: reversed,
        output: Vec::new(alloc),
        ready: false,
        asks: Asks::new(),
    })
}

/// Client flags; option 8; GO without a name; READ of the last byte; DISC.
const FIRST: &[u8] = b"\x00\x00\x00\x03\
    IHAVEOPT\x00\x00\x00\x08\x00\x00\x00\x00\
    IHAVEOPT\x00\x00\x00\x07\x00\x00\x00\x06\x00\x00\x00\x00\x00\x00\
    \x25\x60\x95\x13\x00\x00\x00\x00\x01\x02\x03\x04\x05\x06\x07\x08\x00\x00\x00\x00\x00\x00\x21\xff\x00\x00\x00\x01\
    \x25\x60\x95\x13\x00\x00\x00\x02\x01\x02\x03\x04\x05\x06\x07\x08\x00\x00\x00\x00\x00\x00\x00\x00\x00\x00\x00\x00";

/// Client flags; EXPORT_NAME; READ of 3 bytes, a READ past the end; then the end of input.
const SECOND: &[u8] = b"\x00\x00\x00\x03IHAVEOPT\x00\x00\x00\x01\x00\x00\x00\x00\
    \x25\x60\x95\x13\x00\x00\x00\x00\x0a\x0b\x0c\x0d\x05\x06\x07\x08\x00\x00\x00\x00\x00\x00\x00\x05\x00\x00\x00\x03\
    \x25\x60\x95\x13\x00\x00\x00\x00\x0a\x0b\x0c\x0d\x05\x06\x07\x09\x00\x00\x00\x00\x00\x00\x21\xff\x00\x00\x00\x02";

const FIRST_SAID: &[u8] = b"NBDMAGICIHAVEOPT\x00\x03\
    \x00\x03\xe8\x89\x04\x55\x65\xa9\x00\x00\x00\x08\x80\x00\x00\x01\x00\x00\x00\x00\
    \x00\x03\xe8\x89\x04\x55\x65\xa9\x00\x00\x00\x07\x00\x00\x00\x03\x00\x00\x00\x0c\x00\x00\x00\x00\x00\x00\x00\x00\x22\x00\x00\x03\
    \x00\x03\xe8\x89\x04\x55\x65\xa9\x00\x00\x00\x07\x00\x00\x00\x01\x00\x00\x00\x00\
    \x67\x44\x66\x98\x00\x00\x00\x00\x01\x02\x03\x04\x05\x06\x07\x08\x5a";

const SECOND_SAID: &[u8] = b"NBDMAGICIHAVEOPT\x00\x03\
    \x00\x00\x00\x00\x00\x00\x22\x00\x00\x03\
    \x67\x44\x66\x98\x00\x00\x00\x00\x0a\x0b\x0c\x0d\x05\x06\x07\x08\x5a\x5a\x5a\
    \x67\x44\x66\x98\x00\x00\x00\x16\x0a\x0b\x0c\x0d\x05\x06\x07\x09";

/// What a client's next turn does.
fn turn(client: &mut Client<Slow>, hub: &mut Sessions<Image>) -> Turn {
    client.turn(hub)
}

/// How often two clients were blocked that took 2,000 turns each, one after the other.
fn times_blocked(
    hub: &mut Sessions<Image>,
    first: &mut Client<Slow>,
    second: &mut Client<Slow>,
) -> u64 {
    let mut blocked = 0u64;
    for _ in 0..2_000u64 {
        for turn in [turn(first, hub), turn(second, hub)] {
            blocked = blocked.saturating_add(u64::from(turn == Turn::Blocked));
        }
    }
    blocked
}

/// Whether a client was sent these bytes; its session is ended.
fn has_said(hub: &mut Sessions<Image>, client: &Client<Slow>, said: &[u8]) -> bool {
    client.stream().output.as_slice() == said && end(hub, client.id()) == Ok(())
}

fn open(alloc: Global, hub: &mut Sessions<Image>, input: &[u8]) -> Result<Client<Slow>, Fail> {
    match Client::open(alloc, make_slow(alloc, input)?, hub) {
        Ok(client) => Ok(client),
        Err((fault, _)) => Err(fault.into()),
    }
}

/// How often the two clients were blocked, what the next turn of the first did, and whether each was sent what is to be said.
fn take_turns(alloc: Global) -> Result<(u64, Turn, [bool; 2]), Fail> {
    let mut hub = make_sessions(alloc)?;
    let mut first = open(alloc, &mut hub, FIRST)?;
    let mut second = open(alloc, &mut hub, SECOND)?;
    let blocked = times_blocked(&mut hub, &mut first, &mut second);
    let last = turn(&mut first, &mut hub);
    let are_said = [
        has_said(&mut hub, &first, FIRST_SAID),
        has_said(&mut hub, &second, SECOND_SAID),
    ];
    Ok((blocked, last, are_said))
}

#[test]
fn two_clients_take_turns(rt: HostRuntime) -> Result<(), Fail> {
    let (blocked, last, are_said) = take_turns(rt.alloc())?;
    assert!(rt; blocked > 100);
    assert_eq!(rt; (last, are_said), (Turn::Done, [true, true]));
    Ok(())
}

#[test]
fn a_served_stream_says_the_same(rt: HostRuntime) -> Result<(), Fail> {
    for (input, want) in [(FIRST, FIRST_SAID), (SECOND, SECOND_SAID)] {
        let served = serve_alone(rt.alloc(), input, 1_000, want)?;
        assert_eq!(rt; (served.result, served.is_said), (Ok(()), true));
    }
    Ok(())
}
