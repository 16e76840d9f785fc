//! The table of conversations: what a client sends behind the greeting, and what it is told. The requests' cookie is
//! 0102030405060708.

use crate::talk::{all_spelled, is_said, spelled};
use nbd_session::Status;
use std::alloc::Global;
use std::test::Fail;

const GREETING: &str = "4e42444d41474943 49484156454f5054 0003";

struct Conversation {
    name: &'static str,
    input: &'static str,
    output: &'static str,
    status: Status,
}

static CONVERSATIONS: [Conversation; 25] = [
    Conversation {
        name: "nothing is said but the greeting",
        input: "",
        output: "",
        status: Status::Open,
    },
    Conversation {
        name: "LIST",
        input: "00000003 49484156454f5054 00000003 00000000",
        output: "0003e889045565a9 00000003 00000002 00000007 00000003 766f6c 0003e889045565a9 \
            00000003 00000001 00000000",
        status: Status::Open,
    },
    Conversation {
        name: "GO with block sizes",
        input: "00000003 49484156454f5054 00000007 0000000b 00000003 766f6c 0001 0003",
        output: "0003e889045565a9 00000007 00000003 0000000c 0000 0000000000002200 0003 \
            0003e889045565a9 00000007 00000003 0000000e 0003 00000001 00000200 02000000 \
            0003e889045565a9 00000007 00000001 00000000",
        status: Status::Open,
    },
    Conversation {
        name: "GO of an unknown name",
        input: "00000003 49484156454f5054 00000007 00000007 00000001 78 0000",
        output: "0003e889045565a9 00000007 80000006 00000000",
        status: Status::Open,
    },
    Conversation {
        name: "INFO that doesn't parse",
        input: "00000003 49484156454f5054 00000006 00000004 00000000",
        output: "0003e889045565a9 00000006 80000003 00000000",
        status: Status::Open,
    },
    Conversation {
        name: "LIST with data",
        input: "00000003 49484156454f5054 00000003 00000001 00",
        output: "0003e889045565a9 00000003 80000003 00000000",
        status: Status::Open,
    },
    Conversation {
        name: "option 10",
        input: "00000003 49484156454f5054 0000000a 00000005 0102030405",
        output: "0003e889045565a9 0000000a 80000001 00000000",
        status: Status::Open,
    },
    Conversation {
        name: "ABORT",
        input: "00000003 49484156454f5054 00000002 00000000 49484156454f5054 00000003 00000000",
        output: "0003e889045565a9 00000002 00000001 00000000",
        status: Status::Ended,
    },
    Conversation {
        name: "READ of the last byte",
        input: "00000003 49484156454f5054 00000001 00000000 25609513 0000 0000 0102030405060708 \
            00000000000021ff 00000001",
        output: "0000000000002200 0003 67446698 00000000 0102030405060708 5a",
        status: Status::Open,
    },
    Conversation {
        name: "READ past the end",
        input: "00000003 49484156454f5054 00000001 00000000 25609513 0000 0000 0102030405060708 \
            00000000000021ff 00000002",
        output: "0000000000002200 0003 67446698 00000016 0102030405060708",
        status: Status::Open,
    },
    Conversation {
        name: "EXPORT_NAME with no zeroes",
        input: "00000003 49484156454f5054 00000001 00000000",
        output: "0000000000002200 0003",
        status: Status::Open,
    },
    Conversation {
        name: "EXPORT_NAME with zeros",
        input: "00000001 49484156454f5054 00000001 00000000",
        output: "0000000000002200 0003 \
            00000000000000000000000000000000000000000000000000000000000000000000000000000000 \
            00000000000000000000000000000000000000000000000000000000000000000000000000000000 \
            00000000000000000000000000000000000000000000000000000000000000000000000000000000 \
            00000000",
        status: Status::Open,
    },
    Conversation {
        name: "READ of nothing at the end",
        input: "00000003 49484156454f5054 00000001 00000000 25609513 0000 0000 0102030405060708 \
            0000000000002200 00000000",
        output: "0000000000002200 0003 67446698 00000000 0102030405060708",
        status: Status::Open,
    },
    Conversation {
        name: "READ that is too long",
        input: "00000003 49484156454f5054 00000001 00000000 25609513 0000 0000 0102030405060708 \
            0000000000000000 02000001",
        output: "0000000000002200 0003 67446698 00000016 0102030405060708",
        status: Status::Open,
    },
    Conversation {
        name: "option 8, then GO",
        input: "00000003 49484156454f5054 00000008 00000000 49484156454f5054 00000007 00000006 \
            00000000 0000",
        output: "0003e889045565a9 00000008 80000001 00000000 0003e889045565a9 00000007 00000003 \
            0000000c 0000 0000000000002200 0003 0003e889045565a9 00000007 00000001 00000000",
        status: Status::Open,
    },
    Conversation {
        name: "unknown flags",
        input: "00000004 49484156454f5054 00000001 00000000",
        output: "",
        status: Status::Ended,
    },
    Conversation {
        name: "GO of a client that isn't fixed newstyle",
        input: "00000002 49484156454f5054 00000007 00000006 00000000 0000 49484156454f5054 \
            00000001 00000000",
        output: "",
        status: Status::Ended,
    },
    Conversation {
        name: "EXPORT_NAME of a client that isn't fixed newstyle",
        input: "00000002 49484156454f5054 00000001 00000000",
        output: "0000000000002200 0003",
        status: Status::Open,
    },
    Conversation {
        name: "EXPORT_NAME of an unknown name",
        input: "00000003 49484156454f5054 00000001 00000001 78 49484156454f5054 00000003 \
            00000000",
        output: "",
        status: Status::Ended,
    },
    Conversation {
        name: "READ with flags",
        input: "00000003 49484156454f5054 00000001 00000000 25609513 0001 0000 0102030405060708 \
            0000000000000000 00000001",
        output: "0000000000002200 0003 67446698 00000016 0102030405060708",
        status: Status::Open,
    },
    Conversation {
        name: "READ of nothing past the end",
        input: "00000003 49484156454f5054 00000001 00000000 25609513 0000 0000 0102030405060708 \
            0000000000002201 00000000",
        output: "0000000000002200 0003 67446698 00000016 0102030405060708",
        status: Status::Open,
    },
    Conversation {
        name: "READ at the last offset",
        input: "00000003 49484156454f5054 00000001 00000000 25609513 0000 0000 0102030405060708 \
            ffffffffffffffff 00000001",
        output: "0000000000002200 0003 67446698 00000016 0102030405060708",
        status: Status::Open,
    },
    Conversation {
        name: "WRITE, TRIM, FLUSH, WRITE_ZEROES, DISC",
        input: "00000003 49484156454f5054 00000001 00000000 25609513 0000 0001 0102030405060708 \
            0000000000000000 00000002 2560 25609513 0000 0004 0102030405060708 \
            0000000000000000 00000001 25609513 0000 0003 0102030405060708 0000000000000000 \
            00000000 25609513 0000 0006 0102030405060708 0000000000000000 00000001 25609513 \
            0007 0002 0102030405060708 0000000000000000 00000000 25609513 0000 0000 \
            0102030405060708 0000000000000000 00000001",
        output: "0000000000002200 0003 67446698 00000001 0102030405060708 67446698 00000001 \
            0102030405060708 67446698 00000016 0102030405060708 67446698 00000001 \
            0102030405060708",
        status: Status::Ended,
    },
    Conversation {
        name: "a wrong option magic",
        input: "00000003 49484156454f5055 00000001 00000000 49484156454f5054 00000001 00000000",
        output: "",
        status: Status::Ended,
    },
    Conversation {
        name: "a wrong request magic",
        input: "00000003 49484156454f5054 00000001 00000000 25609514 0000 0000 0102030405060708 \
            0000000000000000 00000001",
        output: "0000000000002200 0003",
        status: Status::Ended,
    },
];

/// The bytes of the first piece, and of each further one, of the first way to cut the input to which another thing is said, or which
/// leaves the session otherwise: cut once, at each place, and byte by byte.
fn first_wrong_cut(
    alloc: Global,
    conversation: &Conversation,
) -> Result<Option<(usize, usize)>, Fail> {
    let input = spelled(alloc, conversation.input)?;
    let output = all_spelled(alloc, &[GREETING, conversation.output])?;
    let (whole, wanted) = (input.len() + 1, (true, conversation.status));
    for first in 0..whole {
        if is_said(alloc, &input, (first, whole), None, &output)? != wanted {
            return Ok(Some((first, whole)));
        }
    }
    if is_said(alloc, &input, (0, 1), None, &output)? != wanted {
        return Ok(Some((0, 1)));
    }
    Ok(None)
}

#[test]
fn conversations_however_cut(rt: HostRuntime) -> Result<(), Fail> {
    for conversation in &CONVERSATIONS {
        let wrong = first_wrong_cut(rt.alloc(), conversation)?;
        assert_eq!(rt; wrong, None, "{}", conversation.name);
    }
    Ok(())
}
