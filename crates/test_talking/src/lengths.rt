//! Ends that come with the last byte of a header, long bodies, and refusals of the export.

ghost use Rattle.std.specs.Prelude.{◌<◌};

use crate::talk::{Talk, all_spelled, is_said, spelled};
use nbd_session::{ExportFault, Status};
use std::alloc::{AllocError, Global};
use std::test::Fail;

/// Flags 3, and EXPORT_NAME of the empty name.
const BEGIN: &str = "00000003 49484156454f5054 00000001 00000000";

const READ_LAST: &str = "25609513 0000 0000 0102030405060708 00000000000021ff 00000001";

/// What is said to BEGIN, greeting and all.
const BEGUN: &str = "4e42444d41474943 49484156454f5054 0003 0000000000002200 0003";

/// Feeds an input and then `zeros` zero bytes in large pieces, and answers what was said before the last of them and
/// after it, and how the session stood then.
fn followed_by_zeros(
    alloc: Global,
    input: &[u8],
    zeros: usize,
) -> Result<(Vec<u8>, Vec<u8>, Status), Fail>
    requires { 0 < zeros }
{
    let mut before = Vec::new(alloc);
    let mut talk = Talk::open(alloc, None, &mut before)?;
    let _ = talk.feed(input, &mut before);
    let piece = [0u8; 4_096];
    let mut left = zeros - 1;
    while left > 0 {
        let taken = left.min(piece.len());
        let _ = talk.feed(&piece[..taken], &mut before);
        left -= taken;
    }
    let mut last = Vec::new(alloc);
    let status = talk.feed(&[0], &mut last);
    Ok((before, last, status))
}

/// Whether this is said before the last of the zeros behind an input, and that after it, and how the session stands then.
fn zeros_said(
    alloc: Global,
    input: &[&str],
    zeros: usize,
    wants: (&str, &str),
) -> Result<(bool, bool, Status), Fail>
    requires { 0 < zeros }
{
    let want_before = spelled(alloc, wants.0)?;
    let want_last = spelled(alloc, wants.1)?;
    let input = all_spelled(alloc, input)?;
    let (before, last, status) = followed_by_zeros(alloc, &input, zeros)?;
    Ok((before == want_before, last == want_last, status))
}

/// Both are said, and the session is left open.
const BOTH_SAID: (bool, bool, Status) = (true, true, Status::Open);

#[test]
fn longest_option_is_answered_when_its_data_is_whole(rt: HostRuntime) -> Result<(), Fail> {
    let input = ["00000003 49484156454f5054 0000000a 00010000"];
    let before = "4e42444d41474943 49484156454f5054 0003";
    let last = "0003e889045565a9 0000000a 80000001 00000000";
    let said = zeros_said(rt.alloc(), &input, 65_536, (before, last))?;
    assert_eq!(rt; said, BOTH_SAID);
    Ok(())
}

#[test]
fn longest_write_is_refused_after_its_payload(rt: HostRuntime) -> Result<(), Fail> {
    let input = [
        BEGIN,
        "25609513 0000 0001 0102030405060708 0000000000000000 02000000",
    ];
    let last = "67446698 00000001 0102030405060708";
    let said = zeros_said(rt.alloc(), &input, 33_554_432, (BEGUN, last))?;
    assert_eq!(rt; said, BOTH_SAID);
    Ok(())
}

/// How many bytes of a header, behind what begins the session, leave it otherwise than they should, and how: ended where they are all,
/// and open where not.
fn first_wrong_end(
    alloc: Global,
    begin: &str,
    header: &str,
) -> Result<Option<(usize, Status)>, Fail> {
    let input = all_spelled(alloc, &[begin, header])?;
    for end in 0..input.len() + 1 {
        let (_, status) = is_said(alloc, &input[..end], (end, 1), None, b"")?;
        let expected = if end < input.len() {
            Status::Open
        } else {
            Status::Ended
        };
        if status != expected {
            return Ok(Some((end, status)));
        }
    }
    Ok(None)
}

#[test]
fn headers_end_a_session_with_their_last_byte(rt: HostRuntime) -> Result<(), Fail> {
    let alloc = rt.alloc();
    let headers = [
        ("unknown flags", "", "00000004"),
        (
            "a wrong option magic",
            "00000003",
            "49484156454f5055 00000003 00000000",
        ),
        (
            "option data of 65,537 bytes",
            "00000003",
            "49484156454f5054 0000000a 00010001",
        ),
        (
            "a WRITE of 33,554,433 bytes",
            BEGIN,
            "25609513 0000 0001 0102030405060708 0000000000000000 02000001",
        ),
    ];
    for (name, begin, header) in headers {
        let wrong = first_wrong_end(alloc, begin, header)?;
        assert_eq!(rt; wrong, None, "{name}");
    }
    Ok(())
}

/// The bytes that a text spells, and then so many times those that another does.
fn repeated(alloc: Global, front: &str, text: &str, times: u64) -> Result<Vec<u8>, AllocError> {
    let mut bytes = spelled(alloc, front)?;
    let part = spelled(alloc, text)?;
    for _ in 0..times {
        bytes.extend_from_slice(&part)?;
    }
    Ok(bytes)
}

/// BEGIN, and a WRITE of 600 bytes without them.
const BEGIN_WRITE: &str = "00000003 49484156454f5054 00000001 00000000 \
    25609513 0000 0001 0102030405060708 0000000000000000 00000258";

/// All is said, and the session is left open.
const ALL_SAID: (bool, Status) = (true, Status::Open);

/// The WRITE and its payload, and a READ; and what is said to it.
fn skipped(alloc: Global) -> Result<(Vec<u8>, Vec<u8>), Fail> {
    let mut input = repeated(alloc, BEGIN_WRITE, "25609513", 150)?;
    input.extend_from_slice(&spelled(alloc, READ_LAST)?)?;
    let replies = "67446698 00000001 0102030405060708 67446698 00000000 0102030405060708 5a";
    let output = all_spelled(alloc, &[BEGUN, replies])?;
    Ok((input, output))
}

/// Whether that is said to it in these pieces, and how the session stands then; in one piece where the first isn't given.
fn skipped_said(alloc: Global, first: Option<usize>, step: usize) -> Result<(bool, Status), Fail>
    requires { 0 < step }
{
    let (input, output) = skipped(alloc)?;
    let first = first.unwrap_or(input.len());
    is_said(alloc, &input, (first, step), None, &output)
}

#[test]
fn payload_of_requests_is_skipped(rt: HostRuntime) -> Result<(), Fail> {
    for (first, step) in [(None, 1), (Some(0), 1), (Some(330), 1_000), (Some(648), 28)] {
        let said = skipped_said(rt.alloc(), first, step)?;
        assert_eq!(rt; said, ALL_SAID, "cut at {first:?}, then by {step}");
    }
    Ok(())
}

/// A READ of all 8,704 bytes, for which no output of a few replies has the room.
const READ_ALL: &str = "25609513 0000 0000 0102030405060708 0000000000000000 00002200";

const LAST_BYTE: &str = "67446698 00000000 0102030405060708 5a";

/// Whether a READ of all is refused by this, where the export refuses it so, and then the last byte is read; and how the session stands
/// then.
fn refused_said(alloc: Global, fault: ExportFault, refused: &str) -> Result<(bool, Status), Fail> {
    let input = all_spelled(alloc, &[BEGIN, READ_ALL, READ_LAST])?;
    let output = all_spelled(alloc, &[BEGUN, refused, LAST_BYTE])?;
    is_said(alloc, &input, (input.len(), 1), Some(fault), &output)
}

#[test]
fn refusals_of_the_export_are_eio_and_enomem(rt: HostRuntime) -> Result<(), Fail> {
    for (fault, refused) in [
        (ExportFault::Io, "67446698 00000005 0102030405060708"),
        (ExportFault::NoMemory, "67446698 0000000c 0102030405060708"),
    ] {
        let said = refused_said(rt.alloc(), fault, refused)?;
        assert_eq!(rt; said, ALL_SAID, "{refused}");
    }
    Ok(())
}

/// Whether the last byte is said to each of so many READs of it in one piece, and how the session stands then.
fn repeated_said(alloc: Global, times: u64) -> Result<(bool, Status), Fail> {
    let input = repeated(alloc, BEGIN, READ_LAST, times)?;
    let output = repeated(alloc, BEGUN, LAST_BYTE, times)?;
    is_said(alloc, &input, (input.len(), 1), None, &output)
}

#[test]
fn a_long_piece_of_requests_is_answered(rt: HostRuntime) -> Result<(), Fail> {
    assert_eq!(rt; repeated_said(rt.alloc(), 40_000)?, ALL_SAID);
    Ok(())
}
