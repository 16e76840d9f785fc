//! Memory refused for the replies of a hub, in turn at each request that needs more than the ones before.

use crate::clients::{Want, events, is_wanted, wants};
use crate::hubs::replies_in;
use linked_list_allocator::LocalHeap;
use std::alloc::Global;
use std::test::Fail;
use test_volumes::STEP;
use verity_hub::Event;

/// How many replies are made where these have so much room and the others are made with more, if all are what is to come.
fn replies_within(
    alloc: Global,
    room: usize,
    events: &[Event],
    wants: &[Want],
) -> Result<Option<usize>, Fail> {
    let heap = LocalHeap::new(alloc, room)?;
    let replies = replies_in(alloc, &heap, events)?;
    let count = replies.within.len();
    let all = replies.within.iter().chain(replies.others.iter());
    let are_wanted = all.zip(wants).all(|(reply, want)| is_wanted(reply, want));
    let are_all = count + replies.others.len() == wants.len();
    if are_wanted && are_all && replies.is_refused == (count < wants.len()) {
        Ok(Some(count))
    } else {
        Ok(None)
    }
}

#[test]
fn events_with_a_reply_were_done_and_no_other(rt: HostRuntime) -> Result<(), Fail> {
    let alloc = rt.alloc();
    let events = events(alloc)?;
    let wants = wants(alloc)?;
    let mut most = 0;
    for steps in 1..1000 {
        let count = replies_within(alloc, steps * STEP, &events, &wants)?;
        assert!(rt; count.is_some(), "wrong at {steps} steps");
        let count = count.unwrap_or(0);
        if count == wants.len() {
            assert!(rt; 0 < most);
            return Ok(());
        }
        most = count;
    }
    Err(Fail::from("memory was refused at every size"))
}
