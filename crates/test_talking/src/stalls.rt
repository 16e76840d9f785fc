//! Clients that take nothing of their replies, while another one waits for memory or none does.

use crate::hubs::make_sessions_over;
use crate::image::Image;
use crate::peers::{Crowd, Lines, Pace, Pairs, Peer};
use nbd_connection::{Limits, Visited};
use nbd_hub::Sessions;
use nbd_serve::{Stop, serve_clients};
use std::alloc::{AllocError, Global};
use std::net::Net;
use std::os::unix::net::UnixStream;
use std::test::Fail;
use std::time::Duration;

/// Client flags, EXPORT_NAME, and the head of a READ of the first bytes, whose number is left out.
const INPUT: &[u8] = b"\x00\x00\x00\x03IHAVEOPT\x00\x00\x00\x01\x00\x00\x00\x00\
    \x25\x60\x95\x13\x00\x00\x00\x00\x0a\x0b\x0c\x0d\x05\x06\x07\x08\x00\x00\x00\x00\x00\x00\x00\x00";

/// The greeting, ten bytes with the export's size, and a reply's head.
const HEADS: u64 = 44;

/// A client's READ of so many bytes, and when it reads.
type Ask = (u32, Pace);

/// Never.
const NEVER: Pace = Pace::From(u64::MAX);

/// How a server of clients ended.
#[derive(Drop)]
struct Ended {
    served: Result<bool, Stop>,
    text: Vec<u8>,
    /// The second of each line.
    seconds: Vec<u64>,
    /// Which clients have all that they asked for.
    have_all: Vec<bool>,
}

/// A hub over 1,000,000 bytes.
fn make_hub(alloc: Global) -> Result<Sessions<Image>, Fail> {
    let bytes = vec![in alloc; 0x5a; 1_000_000]?;
    let image = Image {
        bytes,
        refusal: None,
    };
    make_sessions_over(alloc, image)
}

/// What a client says that asks for so many bytes.
fn says(alloc: Global, bytes: u32) -> Result<Vec<u8>, AllocError> {
    let mut input = Vec::from_slice(alloc, INPUT)?;
    input.extend_from_slice(&bytes.to_be_bytes())?;
    Ok(input)
}

/// Has such clients come, and gives the server's ends of their connections, the last client's first.
fn come(
    alloc: Global,
    net: &impl Net,
    crowd: &mut Crowd,
    asks: &[Ask],
) -> Result<Vec<UnixStream>, Fail> {
    let mut waiting = Vec::new(alloc);
    for (bytes, pace) in asks.iter().copied() {
        let wanted = HEADS.saturating_add(u64::from(bytes));
        waiting.push(crowd.add(net, &says(alloc, bytes)?, wanted, pace)?)?;
    }
    waiting.reverse();
    Ok(waiting)
}

/// Whether each of these clients has all that it asked for.
fn have_all(alloc: Global, peers: &[Peer]) -> Result<Vec<bool>, AllocError> {
    let mut all = Vec::new(alloc);
    for peer in peers {
        all.push(peer.has_all())?;
    }
    Ok(all)
}

/// Serves such clients within 1,200,000 bytes. One that takes nothing for a minute is left, where another one waits; and one that
/// is silent for so many seconds.
fn serve_all(
    alloc: Global,
    net: &impl Net,
    asks: &[Ask],
    idle: Option<u64>,
) -> Result<Ended, Fail> {
    let mut hub = make_hub(alloc)?;
    let mut crowd = Crowd::new(alloc);
    let waiting = come(alloc, net, &mut crowd, asks)?;
    let (bell, _other) = UnixStream::pair(net)?;
    let limits = Limits {
        pending: 1_200_000,
        idle: idle.map(Duration::from_secs),
        stall: Some(Duration::from_secs(60)),
    };
    let mut lines = Lines::new(alloc, &crowd);
    let mut pairs = Pairs {
        crowd: &crowd,
        waiting,
        limits,
        bell,
        visited: Visited::new(),
    };
    let served = serve_clients(&mut hub, &mut pairs, asks.len() as u64, &mut lines);
    let Lines { text, seconds, .. } = lines;
    Ok(Ended {
        served,
        text,
        seconds,
        have_all: have_all(alloc, &crowd.peers)?,
    })
}

#[test]
fn those_that_take_nothing_are_left_where_one_waits(rt: HostRuntime) -> Result<(), Fail> {
    // The third one has no room before both of the others are left.
    let asks = [
        (500_000, NEVER),
        (500_000, NEVER),
        (1_000_000, Pace::From(0)),
    ];
    let ended = serve_all(rt.alloc(), &rt, &asks, None)?;
    let text: &[u8] = b"listening\nsession 1 N2\nsession 2 N2\nsession 3 ended\n";
    assert_eq!(rt; ended.served, Ok(false));
    assert_eq!(rt; ended.text.as_slice(), text);
    assert_eq!(rt; ended.have_all.as_slice(), [false, false, true].as_slice());
    let left = ended.seconds.get(1).copied().unwrap_or(0);
    assert!(rt; left >= 65 && left < 180, "left in second {left}");
    Ok(())
}

#[test]
fn one_that_reads_now_and_then_is_not_left(rt: HostRuntime) -> Result<(), Fail> {
    let asks = [
        (500_000, Pace::SlowlyUntil(200)),
        (500_000, NEVER),
        (600_000, Pace::From(0)),
    ];
    let ended = serve_all(rt.alloc(), &rt, &asks, Some(1_000_000))?;
    let text: &[u8] = b"listening\nsession 2 N2\nsession 3 ended\nsession 1 ended\n";
    assert_eq!(rt; ended.served, Ok(false));
    assert_eq!(rt; ended.text.as_slice(), text);
    assert_eq!(rt; ended.have_all.as_slice(), [true, false, true].as_slice());
    Ok(())
}

#[test]
fn none_is_left_where_none_waits(rt: HostRuntime) -> Result<(), Fail> {
    let asks = [(500_000, Pace::From(200)), (500_000, Pace::From(200))];
    let ended = serve_all(rt.alloc(), &rt, &asks, Some(1_000_000))?;
    let text: &[u8] = b"listening\nsession 1 ended\nsession 2 ended\n";
    assert_eq!(rt; ended.served, Ok(true));
    assert_eq!(rt; ended.text.as_slice(), text);
    assert_eq!(rt; ended.have_all.as_slice(), [true, true].as_slice());
    Ok(())
}
