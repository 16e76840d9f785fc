//! Memory refused to one session, in turn at each request that needs more than the ones before.

ghost use Rattle.std.specs.Prelude.{◌≡◌, length};

use crate::clients::{GO, GO_REPLY};
use linked_list_allocator::LocalHeap;
use nbd_session::{ExportName, Session, Status};
use std::alloc::{Allocator, Global};
use std::test::Fail;
use test_talking::{Image, make_image};
use test_volumes::STEP;

/// A session and what it reads from.
#[derive(Drop)]
struct Talk<A: Allocator> {
    session: Session<A>,
    image: Image,
    ghost same: { session.offer.size ≡ length image.bytes.items },
}

impl<A: Allocator> Talk<A> {
    /// A session that has greeted.
    fn open(alloc: Global, memory: A) -> Result<Talk<A>, Fail> {
        let image = make_image(alloc, None)?;
        let name = ExportName::new(b"vol")?;
        let mut greeting = Vec::new(alloc);
        let session = Session::open(memory, name, 8_704, 512, &mut greeting)?;
        Ok(Talk { session, image })
    }

    /// Feeds it a piece.
    fn feed<O: Allocator>(&mut self, piece: &[u8], out: &mut Vec<u8, O>) -> Status {
        self.session.feed(piece, &mut self.image, out)
    }
}

/// A piece, and what is said to it: a reply, so many bytes 5a, and in their place another where there is no memory for these.
#[derive(Clone, Copy)]
struct Turn {
    piece: &'static [u8],
    reply: &'static [u8],
    data: usize,
    lacking: Option<&'static [u8]>,
}

/// READ of 1,536 bytes from 2,048 on.
const READ: &[u8] =
    b"\x25\x60\x95\x13\x00\x00\x00\x00\x00\x00\x00\x00\x00\x00\x08\x00\x00\x00\x00\x00\x00\x00\x08\x00\x00\x00\x06\x00";

/// What stands before the bytes that are read.
const READ_REPLY: &[u8] = b"\x67\x44\x66\x98\x00\x00\x00\x00\x00\x00\x00\x00\x00\x00\x08\x00";

/// ENOMEM.
const READ_LACKING: &[u8] = b"\x67\x44\x66\x98\x00\x00\x00\x0c\x00\x00\x00\x00\x00\x00\x08\x00";

/// WRITE of 4 bytes.
const WRITE: &[u8] =
    b"\x25\x60\x95\x13\x00\x00\x00\x01\x01\x02\x03\x04\x05\x06\x07\x08\x00\x00\x00\x00\x00\x00\x00\x00\x00\x00\x00\x04\x25\x60\x95\x13";

/// Not permitted.
const WRITE_REPLY: &[u8] = b"\x67\x44\x66\x98\x00\x00\x00\x01\x01\x02\x03\x04\x05\x06\x07\x08";

/// GO, READ, WRITE.
static TURNS: [Turn; 3] = [
    Turn {
        piece: GO,
        reply: GO_REPLY,
        data: 0,
        lacking: None,
    },
    Turn {
        piece: READ,
        reply: READ_REPLY,
        data: 1536,
        lacking: Some(READ_LACKING),
    },
    Turn {
        piece: WRITE,
        reply: WRITE_REPLY,
        data: 0,
        lacking: None,
    },
];

/// What came of a feed.
#[derive(Clone, Copy, Debug, PartialEq, Eq)]
enum Came {
    /// All that is to be said.
    Whole,
    /// ENOMEM.
    Lacking,
    /// Nothing, and the session is starved.
    Starved,
    /// Something else.
    Wrong,
}

/// What stands behind the first bytes, where these are as they were.
fn behind<'a>(bytes: &'a [u8], first: &[u8]) -> Option<&'a [u8]> {
    if bytes.starts_with(first) {
        bytes.get(first.len()..)
    } else {
        None
    }
}

/// Whether these are a reply and then so many bytes 5a.
fn is_reply(bytes: &[u8], reply: &[u8], data: usize) -> bool {
    match behind(bytes, reply) {
        Some(rest) => rest.len() == data && rest.iter().all(|byte| *byte == 0x5a),
        None => false,
    }
}

/// What came of a feed, where `said` stood there before it and `out` after it.
fn came_of(turn: &Turn, status: Status, said: &[u8], out: &[u8]) -> Came {
    let Some(new) = behind(out, said) else {
        return Came::Wrong;
    };
    match status {
        Status::Open if is_reply(new, turn.reply, turn.data) => Came::Whole,
        Status::Open if turn.lacking == Some(new) => Came::Lacking,
        Status::Starved if new.is_empty() => Came::Starved,
        Status::Open | Status::Starved | Status::Ended => Came::Wrong,
    }
}

/// Whether what lacked memory is served when it is asked for once more, with memory for its reply.
fn is_served_again<A: Allocator>(alloc: Global, talk: &mut Talk<A>, turn: &Turn) -> bool {
    let mut again = Vec::new(alloc);
    let status = talk.feed(turn.piece, &mut again);
    came_of(turn, status, b"", &again) == Came::Whole
}

/// What comes of a turn, after which stands `out`.
fn take_turn<A: Allocator, O: Allocator>(
    alloc: Global,
    talk: &mut Talk<A>,
    turn: &Turn,
    out: &mut Vec<u8, O>,
) -> Result<Came, Fail> {
    let said = out.to_vec(alloc)?;
    let status = talk.feed(turn.piece, out);
    let came = came_of(turn, status, &said, out);
    if came == Came::Lacking && !is_served_again(alloc, talk, turn) {
        return Ok(Came::Wrong);
    }
    Ok(came)
}

/// What comes of the turns, where the session's memory and the output's are these.
fn converse<A: Allocator, O: Allocator>(
    alloc: Global,
    memory: A,
    out_memory: O,
) -> Result<[Came; 3], Fail> {
    let mut talk = Talk::open(alloc, memory)?;
    let mut out = Vec::new(out_memory);
    let mut all = [Came::Wrong; 3];
    for (came, turn) in all.iter_mut().zip(&TURNS) {
        *came = take_turn(alloc, &mut talk, turn, &mut out)?;
    }
    Ok(all)
}

/// Whether a starved session stays so, and nothing else is wrong.
fn is_allowed(all: &[Came]) -> bool {
    let mut is_starved = false;
    for came in all {
        match came {
            Came::Whole | Came::Lacking if is_starved => return false,
            Came::Whole | Came::Lacking => {}
            Came::Starved => is_starved = true,
            Came::Wrong => return false,
        }
    }
    true
}

/// What was seen of runs.
#[derive(Clone, Copy, Debug, PartialEq, Eq)]
struct Seen {
    starved: bool,
    lacking: bool,
}

/// Notes what came of a run, and tells whether it was whole.
fn note(seen: &mut Seen, all: &[Came]) -> bool {
    seen.starved |= all.contains(&Came::Starved);
    seen.lacking |= all.contains(&Came::Lacking);
    all == [Came::Whole; 3].as_slice()
}

/// What has little room.
#[derive(Clone, Copy, Debug, PartialEq, Eq)]
enum Memory {
    Session,
    Output,
}

/// What comes of the turns where one has so much room and the other has much.
fn converse_within(alloc: Global, memory: Memory, room: usize) -> Result<[Came; 3], Fail> {
    let little = LocalHeap::new(alloc, room)?;
    let much = LocalHeap::new(alloc, 65_536)?;
    match memory {
        Memory::Session => converse(alloc, &little, &much),
        Memory::Output => converse(alloc, &much, &little),
    }
}

/// What was seen of runs with one step more room each, up to the first that is whole.
fn seen_of(alloc: Global, memory: Memory) -> Result<Seen, Fail> {
    let mut seen = Seen {
        starved: false,
        lacking: false,
    };
    for steps in 1..1000 {
        let all = converse_within(alloc, memory, steps * STEP)?;
        if !is_allowed(&all) {
            return Err(Fail::from("something wrong came of a feed"));
        }
        if note(&mut seen, &all) {
            return Ok(seen);
        }
    }
    Err(Fail::from("memory was refused at every size"))
}

#[test]
fn without_memory_a_session_starves_and_a_reply_starves_or_is_enomem(
    rt: HostRuntime,
) -> Result<(), Fail> {
    for (memory, lacking) in [(Memory::Session, false), (Memory::Output, true)] {
        let wanted = Seen {
            starved: true,
            lacking,
        };
        assert_eq!(rt; seen_of(rt.alloc(), memory)?, wanted, "{memory:?}");
    }
    Ok(())
}
