//! Memory refused to a hub that serves a stream, in turn at each request that needs more than the ones before.

use crate::clients::{
    ENOMEM, GO, GO_REPLY, GREETING, add_read, add_reply, data_17, hash_17, hub_within, serve_once,
};
use linked_list_allocator::LocalHeap;
use std::alloc::{AllocError, Allocator, Global};
use std::test::Fail;
use test_volumes::STEP;
use verity_hub::{Hub, HubFault, ServeFault};
use verity_store::BlockStore;

/// What is said to GO and the READ of block 3, which is served or told this error.
fn expected(alloc: Global, error: u32, data: &[u8]) -> Result<Vec<u8>, AllocError> {
    let mut said = Vec::from_slice(alloc, GREETING)?;
    said.extend_from_slice(GO_REPLY)?;
    add_reply(&mut said, 1536, error, data)?;
    Ok(said)
}

/// GO and the READ of block 3.
fn asked(alloc: Global) -> Result<Vec<u8>, AllocError> {
    let mut input = Vec::from_slice(alloc, GO)?;
    add_read(&mut input, 1536, 512)?;
    Ok(input)
}

/// What was seen of a stream.
#[derive(Clone, Copy, Debug, PartialEq, Eq)]
enum Seen {
    /// No session, and nothing said.
    Unopened,
    /// A starved session, and a beginning of what is to be said.
    Starved,
    /// ENOMEM in place of the block.
    Lacking,
    /// All that is to be said.
    Whole,
    /// Something else, where the stream was left so.
    Wrong(Option<ServeFault>),
}

/// What was seen of a stream that was left so, where that was said.
fn seen_of(alloc: Global, fault: Option<ServeFault>, said: &[u8]) -> Result<Seen, AllocError> {
    let whole = expected(alloc, 0, &[3; 512])?;
    let lacking = expected(alloc, ENOMEM, b"")?;
    Ok(seen_beside(fault, said, &whole, &lacking))
}

/// The same, where all that is to be said is `whole`, or `lacking` without memory for the block.
fn seen_beside(fault: Option<ServeFault>, said: &[u8], whole: &[u8], lacking: &[u8]) -> Seen {
    match fault {
        Some(ServeFault::Hub(HubFault::NoMemory)) if said.is_empty() => Seen::Unopened,
        Some(ServeFault::Starved) if whole.starts_with(said) => Seen::Starved,
        None if said == whole => Seen::Whole,
        None if said == lacking => Seen::Lacking,
        _ => Seen::Wrong(fault),
    }
}

/// What is seen of the stream of a hub, whose end it is.
fn seen_by<D: BlockStore + Drop, H: BlockStore + Drop, A: Allocator + Copy + Drop>(
    alloc: Global,
    hub: Hub<D, H, A>,
    asked: &[u8],
) -> Result<Seen, AllocError> {
    let mut said = Vec::new(alloc);
    let fault = serve_once(hub, asked, &mut said).err();
    seen_of(alloc, fault, &said)
}

/// What is seen of the stream where the hub's memory has so much room and the verifier fits into it.
fn seen_within(alloc: Global, room: usize) -> Result<Option<Seen>, Fail> {
    let asked = asked(alloc)?;
    let data = data_17(alloc)?;
    let hash = hash_17(alloc)?;
    let heap = LocalHeap::new(alloc, room)?;
    match hub_within(&heap, data, hash) {
        Some(hub) => Ok(Some(seen_by(alloc, hub, &asked)?)),
        None => Ok(None),
    }
}

#[test]
fn a_stream_without_memory_is_left_or_told_so(rt: HostRuntime) -> Result<(), Fail> {
    let (mut unopened, mut starved, mut lacking) = (false, false, false);
    for steps in 1..1000 {
        match seen_within(rt.alloc(), steps * STEP)? {
            None => {}
            Some(Seen::Unopened) => unopened = true,
            Some(Seen::Starved) => starved = true,
            Some(Seen::Lacking) => lacking = true,
            Some(Seen::Whole) => {
                assert_eq!(rt; (unopened, starved, lacking), (true, true, true));
                return Ok(());
            }
            Some(Seen::Wrong(fault)) => assert!(rt; false, "{fault:?} at {steps} steps"),
        }
    }
    Err(Fail::from("memory was refused at every size"))
}
