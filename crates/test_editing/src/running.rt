//! A list of commands that is refused memory, with one step more room from run to run, until none is refused. The volume
//! is one zero block of 1,024 bytes, without a salt; its root hash is that of an independent program.

use crate::editors::*;
use crate::heaps::AMPLE;
use crate::steps::{Fills, Step, store_of};
use crate::volumes::SIZE;
use linked_list_allocator::LocalHeap;
use std::alloc::Global;
use std::test::Fail;
use test_volumes::{BuiltVolume, STEP};
use uuid::Uuid;
use verity_build::BuildParameters;
use verity_digest::{Algorithm, Digest, Salt};
use verity_edit::{EditFault, Reply};
use verity_store::MemStore;

const WIDE: usize = 1024;

const ROOT: [u8; 32] = [
    0x5f, 0x70, 0xbf, 0x18, 0xa0, 0x86, 0x00, 0x70, 0x16, 0xe9, 0x48, 0xb0, 0x4a, 0xed, 0x3b, 0x82,
    0x10, 0x3a, 0x36, 0xbe, 0xa4, 0x17, 0x55, 0xb6, 0xcd, 0xdf, 0xaf, 0x10, 0xac, 0xe3, 0xc6, 0xef,
];

const COMMANDS: [Step; 8] = [
    Step::Write(0, 0xff),
    Step::Grow(17),
    Step::Shrink(1),
    Step::Write(0, 0),
    Step::Commit,
    Step::Grow(2),
    Step::Discard,
    Step::Commit,
];

// The volume of data blocks that are filled so.
fn scratch(alloc: Global, fills: &[u8]) -> Result<BuiltVolume, Fail> {
    let data_store = store_of(alloc, fills, WIDE)?;
    let hash_store = MemStore::zeroed(alloc, SIZE, 0)?;
    let params = BuildParameters::new(Salt::new(alloc, b"")?, Uuid::nil(), Algorithm::Sha256);
    built(alloc, data_store, hash_store, &params)
}

// What comes of the commands over a volume of one zero block, where a heap has so many bytes left, and of these after them.
fn left_after(alloc: Global, room: usize, after: &[Step]) -> Result<Left<MemStore>, Fail> {
    let heap = LocalHeap::new(alloc, AMPLE)?;
    let work = Work {
        size: WIDE,
        kept: 0,
        before: &[],
        squeezed: &COMMANDS,
        after,
    };
    left_in_heap(alloc, &heap, room, scratch(alloc, &[0])?, work)
}

// Whether a command was done. None for a reply that this command never has.
fn is_done(step: Step, reply: Reply) -> Option<bool> {
    match (step, reply) {
        (Step::Write(..) | Step::Commit, Reply::Refused(EditFault::NoMemory)) => Some(false),
        (Step::Commit, Reply::Committed(_)) => Some(true),
        (Step::Commit, _) | (_, Reply::Committed(_) | Reply::Refused(_)) => None,
        (_, Reply::Done) => Some(true),
    }
}

// What the commands with a reply leave. None where a reply is wrong.
fn fills_after(alloc: Global, replies: &[Reply]) -> Result<Option<Fills>, Fail> {
    let mut fills = Fills::new(alloc, &[0])?;
    for (step, reply) in COMMANDS.iter().zip(replies) {
        match is_done(*step, *reply) {
            Some(true) => fills.follow(alloc, *step)?,
            Some(false) => {}
            None => return Ok(None),
        }
    }
    Ok(Some(fills))
}

// Whether each command was done, and each commit gave the root hash of one zero block.
fn is_whole(replies: &[Reply]) -> bool {
    replies.len() == 8
        && replies.iter().all(|reply| match reply {
            Reply::Done => true,
            Reply::Committed(committed) => committed.root == Digest::from_bytes(ROOT),
            Reply::Refused(_) => false,
        })
}

// What is seen of the replies: whether each command was done, and each commit gave the root hash of one zero block; whether one is
// missing; whether one is a refusal.
#[derive(Clone, Copy)]
struct Told {
    is_whole: bool,
    is_short: bool,
    is_starved: bool,
}

// The same of the replies with so much room. None where one is wrong, or the stores then don't hold what the commands with a reply
// committed.
fn stands(alloc: Global, room: usize) -> Result<Option<Told>, Fail> {
    let left = left_after(alloc, room, &[])?;
    let Some(fills) = fills_after(alloc, &left.replies)? else {
        return Ok(None);
    };
    let told = Told {
        is_whole: is_whole(&left.replies),
        is_short: left.replies.len() < 8,
        is_starved: left.replies.iter().any(is_refused),
    };
    let is_right = is_left(&left, &scratch(alloc, &fills.committed)?);
    Ok(is_right.then_some(told))
}

// Whether a commit after the commands leaves what those with a reply made.
fn goes_on(alloc: Global, room: usize) -> Result<bool, Fail> {
    let mut left = left_after(alloc, room, &[Step::Commit])?;
    let Some(Reply::Committed(_)) = left.replies.pop() else {
        return Ok(false);
    };
    let Some(fills) = fills_after(alloc, &left.replies)? else {
        return Ok(false);
    };
    Ok(is_left(&left, &scratch(alloc, &fills.working)?))
}

#[test]
fn commands_with_a_reply_were_done(rt: HostRuntime) -> Result<(), Fail> {
    let alloc = rt.alloc();
    let mut is_short = false;
    let mut is_starved = false;
    for steps in 0..1000 {
        let room = steps * STEP;
        let Some(told) = stands(alloc, room)? else {
            assert!(rt; false, "{steps} steps");
            return Ok(());
        };
        if told.is_whole {
            assert!(rt; is_short && is_starved);
            return Ok(());
        }
        assert!(rt; goes_on(alloc, room)?, "{steps} steps");
        is_short |= told.is_short;
        is_starved |= told.is_starved;
    }
    assert!(rt; false);
    Ok(())
}
