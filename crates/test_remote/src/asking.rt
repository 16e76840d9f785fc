//! Ranges that an NBD server is asked for before they are read.

use crate::nbd::{ACK, GO, GREETING, INFO_EXPORT};
use crate::script::{Script, ScriptDial};
use remote_file::{NbdSource, Patience, Patient, RemoteFault};
use std::alloc::Global;
use std::cell::Cell;
use std::test::Fail;
use std::time::Duration;
use verity_store::RawFile;

/// The heads of the replies to the first four READs, and of one by an error to the third.
const FIRST: &[u8] = b"\x67\x44\x66\x98\x00\x00\x00\x00\x00\x00\x00\x00\x00\x00\x00\x00";

const SECOND: &[u8] = b"\x67\x44\x66\x98\x00\x00\x00\x00\x00\x00\x00\x00\x00\x00\x00\x01";

const THIRD: &[u8] = b"\x67\x44\x66\x98\x00\x00\x00\x00\x00\x00\x00\x00\x00\x00\x00\x02";

const THIRD_REFUSED: &[u8] = b"\x67\x44\x66\x98\x00\x00\x00\x05\x00\x00\x00\x00\x00\x00\x00\x02";

const FOURTH: &[u8] = b"\x67\x44\x66\x98\x00\x00\x00\x00\x00\x00\x00\x00\x00\x00\x00\x03";

/// What reads of these offsets and lengths give of an export of 65,536 bytes, a `!` for each that fails; and over how many connections.
fn read(
    alloc: Global,
    talks: &[&[&[u8]]],
    ranges: &[(u64, usize)],
) -> Result<(String, usize), RemoteFault> {
    let patience = Patience {
        timeout: Duration::from_secs(30),
    };
    let script = Script {
        talks,
        dialed: Cell::new(0),
        seconds: Cell::new(0),
    };
    let dial = ScriptDial { script: &script };
    let mut file = Patient::new(NbdSource::open(alloc, dial, "vol", patience)?, patience);
    let mut given = String::new(alloc);
    for (at, len) in ranges {
        let mut out = [0u8; 8];
        let count = (*len).min(8);
        let is_given = file.read_exact_at(*at, &mut out[..count]).is_ok();
        given.push_str(shown(is_given, &out[..count]))?;
    }
    Ok((given, script.dialed.get()))
}

/// What a read gave, a `!` where it failed.
fn shown(is_given: bool, bytes: &[u8]) -> &str {
    if !is_given {
        return "!";
    }
    std::str::from_utf8(bytes).unwrap_or("?")
}

/// What a server writes on each connection, what is read, and what is given over how many connections.
const ROWS: [(&[&[&[u8]]], &[(u64, usize)], (&str, usize)); 10] = [
    // A read that follows one of the same length has as many bytes again asked for, and the next read takes them,
    (
        &[&[
            GREETING,
            GO,
            INFO_EXPORT,
            GO,
            ACK,
            FIRST,
            b"abcd",
            SECOND,
            b"efgh",
            THIRD,
            b"ijkl",
            FOURTH,
            b"mnop",
        ]],
        &[(0, 4), (4, 4), (8, 4), (12, 4)],
        ("abcdefghijklmnop", 1),
    ),
    // as far as the export goes;
    (
        &[&[
            GREETING,
            GO,
            INFO_EXPORT,
            GO,
            ACK,
            FIRST,
            b"abcdef",
            SECOND,
            b"ghijkl",
            THIRD,
            b"mnop",
        ]],
        &[(65520, 6), (65526, 6), (65532, 4)],
        ("abcdefghijklmnop", 1),
    ),
    // or the reply is dropped before another range is read, be it bytes or an error.
    (
        &[&[
            GREETING,
            GO,
            INFO_EXPORT,
            GO,
            ACK,
            FIRST,
            b"abcd",
            SECOND,
            b"efgh",
            THIRD,
            b"ijkl",
            FOURTH,
            b"abcd",
        ]],
        &[(0, 4), (4, 4), (0, 4)],
        ("abcdefghabcd", 1),
    ),
    (
        &[&[
            GREETING,
            GO,
            INFO_EXPORT,
            GO,
            ACK,
            FIRST,
            b"abcd",
            SECOND,
            b"efgh",
            THIRD_REFUSED,
            FOURTH,
            b"abcd",
        ]],
        &[(0, 4), (4, 4), (0, 4)],
        ("abcdefghabcd", 1),
    ),
    // Nothing is asked for behind the end, or after a read of another length.
    (
        &[&[
            GREETING,
            GO,
            INFO_EXPORT,
            GO,
            ACK,
            FIRST,
            b"ijkl",
            SECOND,
            b"mnop",
            THIRD,
            b"abcd",
        ]],
        &[(65528, 4), (65532, 4), (0, 4)],
        ("ijklmnopabcd", 1),
    ),
    (
        &[&[
            GREETING,
            GO,
            INFO_EXPORT,
            GO,
            ACK,
            FIRST,
            b"abcd",
            SECOND,
            b"efghij",
            THIRD,
            b"abcd",
        ]],
        &[(0, 4), (4, 6), (0, 4)],
        ("abcdefghijabcd", 1),
    ),
    // Where the reply is an error, or the connection ended, there is one more try.
    (
        &[
            &[
                GREETING,
                GO,
                INFO_EXPORT,
                GO,
                ACK,
                FIRST,
                b"abcd",
                SECOND,
                b"efgh",
                THIRD_REFUSED,
            ],
            &[GREETING, GO, INFO_EXPORT, GO, ACK, FOURTH, b"ijkl"],
        ],
        &[(0, 4), (4, 4), (8, 4)],
        ("abcdefghijkl", 2),
    ),
    (
        &[
            &[
                GREETING,
                GO,
                INFO_EXPORT,
                GO,
                ACK,
                FIRST,
                b"abcd",
                SECOND,
                b"efgh",
            ],
            &[GREETING, GO, INFO_EXPORT, GO, ACK, FOURTH, b"ijkl"],
        ],
        &[(0, 4), (4, 4), (8, 4)],
        ("abcdefghijkl", 2),
    ),
    (
        &[
            &[
                GREETING,
                GO,
                INFO_EXPORT,
                GO,
                ACK,
                FIRST,
                b"abcd",
                SECOND,
                b"efgh",
            ],
            &[GREETING, GO, INFO_EXPORT, GO, ACK, FOURTH, b"abcd"],
        ],
        &[(0, 4), (4, 4), (0, 4)],
        ("abcdefghabcd", 2),
    ),
    // A reply to another request isn't taken.
    (
        &[&[
            GREETING,
            GO,
            INFO_EXPORT,
            GO,
            ACK,
            FIRST,
            b"abcd",
            SECOND,
            b"efgh",
            FOURTH,
            b"ijkl",
        ]],
        &[(0, 4), (4, 4), (8, 4)],
        ("abcdefgh!", 2),
    ),
];

#[test]
fn what_was_asked_for_is_taken_or_dropped(rt: HostRuntime) -> Result<(), Fail> {
    for (talks, ranges, (wanted, connections)) in ROWS {
        let (given, dialed) = read(rt.alloc(), talks, ranges)?;
        assert_eq!(rt; (given.as_str(), dialed), (wanted, connections));
    }
    Ok(())
}
