//! One client over a reader and a writer.

use crate::hubs::{Ends, INPUT, Served, expected, make_sessions, serve_alone, serve_one};
use nbd_hub::ServeFault;
use std::alloc::Global;
use std::test::Fail;

/// How the stream is served where so many bytes of the input come.
fn serve_cut(alloc: Global, len: usize) -> Result<Served, Fail> {
    let wanted = expected(alloc, len)?;
    let input = INPUT.get(..len).unwrap_or(INPUT);
    serve_alone(alloc, input, 100, &wanted)
}

#[test]
fn an_input_cut_after_each_byte(rt: HostRuntime) -> Result<(), Fail> {
    for len in 0..=INPUT.len() {
        let served = serve_cut(rt.alloc(), len)?;
        assert_eq!(rt;
            (served.result, served.is_said),
            (Ok(()), true),
            "cut at {len}"
        );
    }
    Ok(())
}

/// How a stream is left after two turns, then another of the same hub at a full writer, and a third where a read fails.
fn leave_three(alloc: Global) -> Result<[Served; 3], Fail> {
    let wanted = expected(alloc, 56)?;
    let all = expected(alloc, INPUT.len())?;
    let mut hub = make_sessions(alloc)?;
    let first = serve_one(alloc, &mut hub, INPUT, 2, Ends::Open, &wanted);
    let second = serve_one(alloc, &mut hub, INPUT, 100, Ends::FullWriter, b"");
    let third = serve_one(alloc, &mut hub, INPUT, 100, Ends::CutReader, &all);
    Ok([first, second, third])
}

#[test]
fn a_stream_is_left_at_its_limit_and_where_an_end_fails(rt: HostRuntime) -> Result<(), Fail> {
    let [first, second, third] = leave_three(rt.alloc())?;
    let turns = (Err(ServeFault::Turns), true, INPUT.len() - 56);
    assert_eq!(rt; (first.result, first.is_said, first.left), turns);
    let write = (Err(ServeFault::Write), true, INPUT.len());
    assert_eq!(rt; (second.result, second.is_said, second.left), write);
    let read = (Err(ServeFault::Read), true, 0);
    assert_eq!(rt; (third.result, third.is_said, third.left), read);
    Ok(())
}

#[test]
fn each_reply_is_flushed(rt: HostRuntime) -> Result<(), Fail> {
    let served = serve_cut(rt.alloc(), INPUT.len())?;
    assert_eq!(rt;
        (served.result, served.is_flushed, served.is_said),
        (Ok(()), true, true)
    );
    Ok(())
}
