//! Reads of files at servers: a connection that is kept, one more try, and a rest.

use crate::script::{Script, ScriptDial};
use remote_file::{HttpSource, Patience, Patient, RemoteFault};
use std::alloc::Global;
use std::cell::Cell;
use std::test::Fail;
use std::time::Duration;
use verity_store::RawFile;

/// The first byte, by which a resource is opened.
const FIRST: &[u8] = b"HTTP/1.1 206 P\r\nContent-Range: bytes 0-0/12\r\nContent-Length: 1\r\n\r\n#";

const FOUR: &[u8] =
    b"HTTP/1.1 206 P\r\nContent-Range: bytes 8-11/12\r\nContent-Length: 4\r\n\r\nabcd";

const SHORT: &[u8] =
    b"HTTP/1.1 206 P\r\nContent-Range: bytes 8-11/12\r\nContent-Length: 4\r\n\r\nab";

const LONGER: &[u8] =
    b"HTTP/1.1 206 P\r\nContent-Range: bytes 8-11/13\r\nContent-Length: 4\r\n\r\nabcd";

const GONE: &[u8] = b"HTTP/1.1 404 N\r\nContent-Length: 0\r\n\r\n";

/// How many reads of four bytes from 8 on succeed, of so many, a second each, and how many connections were made.
fn read(
    alloc: Global,
    talks: &[&[&[u8]]],
    reads: u64,
    seconds: u64,
) -> Result<(u64, usize), RemoteFault> {
    let patience = Patience {
        timeout: Duration::from_secs(30),
    };
    let script = Script {
        talks,
        dialed: Cell::new(0),
        seconds: Cell::new(0),
    };
    let dial = ScriptDial { script: &script };
    let source = HttpSource::open(alloc, dial, "mirror", "/image", patience)?;
    let mut file = Patient::new(source, patience);
    let mut good = 0u64;
    for turn in 0..reads {
        script.seconds.set(turn.saturating_mul(seconds));
        let mut out = [0u8; 4];
        if file.read_exact_at(8, &mut out).is_ok() && out == *b"abcd" {
            good = good.saturating_add(1);
        }
    }
    Ok((good, script.dialed.get()))
}

/// What a server writes on each connection, how many reads there are and how many seconds after each other; how many succeed, and over
/// how many connections.
const ROWS: [(&[&[&[u8]]], u64, u64, (u64, usize)); 8] = [
    // A connection is kept,
    (&[&[FIRST, FOUR, FOUR]], 2, 1, (2, 1)),
    // and made anew where it ended between two reads, or in one.
    (&[&[FIRST], &[FOUR]], 1, 1, (1, 2)),
    (&[&[FIRST, SHORT], &[FOUR]], 1, 1, (1, 2)),
    // A lie and an error are asked for once more, and no more.
    (&[&[FIRST, LONGER], &[FOUR]], 1, 1, (1, 2)),
    (&[&[FIRST, GONE], &[GONE], &[FOUR]], 2, 1, (1, 3)),
    (
        &[
            &[FIRST, GONE],
            &[GONE],
            &[GONE],
            &[GONE],
            &[GONE],
            &[GONE],
            &[GONE],
            &[FOUR],
        ],
        4,
        1,
        (1, 8),
    ),
    // After three reads that found no server it isn't asked for thirty seconds,
    (&[&[FIRST]], 10, 1, (0, 6)),
    // and then again.
    (&[&[FIRST]], 9, 11, (0, 10)),
];

#[test]
fn a_read_is_tried_twice_and_a_server_rests(rt: HostRuntime) -> Result<(), Fail> {
    for (talks, reads, seconds, wanted) in ROWS {
        let comes = read(rt.alloc(), talks, reads, seconds)?;
        assert_eq!(rt; comes, wanted);
    }
    Ok(())
}
