//! The memory of clients whose long replies were sent.

use crate::hubs::make_sessions_over;
use crate::image::Image;
use linked_list_allocator::LocalHeap;
use nbd_hub::Sessions;
use nbd_relay::{Asks, Client, Pair, Turn};
use std::alloc::Global;
use std::test::Fail;

/// Client flags, EXPORT_NAME, and a READ of the first 150,000 bytes.
const INPUT: &[u8] = b"\x00\x00\x00\x03IHAVEOPT\x00\x00\x00\x01\x00\x00\x00\x00\
    \x25\x60\x95\x13\x00\x00\x00\x00\x0a\x0b\x0c\x0d\x05\x06\x07\x08\x00\x00\x00\x00\x00\x00\x00\x00\x00\x02\x49\xf0";

/// The greeting, 28 bytes with the export's size, and the reply: a head of 16 bytes and the 150,000.
const SAID: usize = 150_044;

type Pipe = Pair<&'static [u8], Vec<u8>>;

/// A hub over 200,000 bytes.
fn make_hub(alloc: Global) -> Result<Sessions<Image>, Fail> {
    let bytes = vec![in alloc; 0x5a; 200_000]?;
    let image = Image {
        bytes,
        refusal: None,
    };
    make_sessions_over(alloc, image)
}

fn open<'a>(
    alloc: Global,
    heap: &'a LocalHeap,
    hub: &mut Sessions<Image>,
) -> Result<Client<Pipe, &'a LocalHeap>, Fail> {
    let pipe = Pair {
        reader: INPUT,
        writer: Vec::new(alloc),
        asks: Asks::new(),
    };
    match Client::open(heap, pipe, hub) {
        Ok(client) => Ok(client),
        Err((fault, _)) => Err(fault.into()),
    }
}

/// Takes turns of a client up to its end, and tells how many bytes it was sent.
fn finish(client: &mut Client<Pipe, &LocalHeap>, hub: &mut Sessions<Image>) -> usize {
    for _ in 0..1_000u64 {
        if let Turn::Done = client.turn(hub) {
            break;
        }
    }
    client.stream().writer.len()
}

/// How many bytes each of two clients was sent, where the first is still open while the second is served.
fn sent(alloc: Global, heap: &LocalHeap) -> Result<[usize; 2], Fail> {
    let mut hub = make_hub(alloc)?;
    let mut first = open(alloc, heap, &mut hub)?;
    let first_sent = finish(&mut first, &mut hub);
    let mut second = open(alloc, heap, &mut hub)?;
    Ok([first_sent, finish(&mut second, &mut hub)])
}

#[test]
fn a_drained_client_keeps_no_long_reply(rt: HostRuntime) -> Result<(), Fail> {
    let heap = LocalHeap::new(rt.alloc(), 250_000)?;
    assert_eq!(rt; sent(rt.alloc(), &heap)?, [SAID, SAID]);
    Ok(())
}
