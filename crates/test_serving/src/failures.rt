//! Each call of a store failing in turn.

use crate::clients::{EIO, WELCOME_17, add_reply, client};
use crate::hubs::serve;
use std::alloc::{AllocError, Global};
use std::test::Fail;
use test_volumes::image;

/// Two READs one after the other: the blocks 4 to 6, and 14 to 16.
const RANGES: [(u64, u32); 2] = [(2048, 1536), (7168, 1536)];

/// What is said to the two READs, of which these are refused.
fn expected(alloc: Global, refused: [bool; 2]) -> Result<Vec<u8>, Fail> {
    let bytes = image(alloc, 17)?;
    let mut said = Vec::from_slice(alloc, WELCOME_17)?;
    for (range, is_refused) in RANGES.iter().zip(&refused) {
        add_expected(&mut said, &bytes, *range, *is_refused)?;
    }
    Ok(said)
}

/// Adds what is said to the READ of a range of these bytes.
fn add_expected(
    said: &mut Vec<u8>,
    bytes: &[u8],
    range: (u64, u32),
    is_refused: bool,
) -> Result<(), AllocError> {
    let (offset, len) = range;
    let behind = bytes.get(offset as usize..).unwrap_or(&[]);
    if is_refused {
        add_reply(said, offset, EIO, b"")
    } else {
        add_reply(said, offset, 0, behind.get(..len as usize).unwrap_or(&[]))
    }
}

/// Whether that is said where the stores fail at their calls of these numbers; of number 0, none does.
fn is_told(
    alloc: Global,
    data_call: u64,
    hash_call: u64,
    refused: [bool; 2],
) -> Result<bool, Fail> {
    let client = client(alloc, &RANGES)?;
    let expected = expected(alloc, refused)?;
    let served = serve(alloc, (data_call, hash_call), 0, &client, usize::MAX, 1000)?;
    Ok(served.fault.is_none() && served.said == expected)
}

// Each READ reads three data blocks. The first reads the top and the first block of level 0, which is then the one that is
// cached; the second reads the top again and the second block of level 0.
#[test]
fn only_the_read_that_meets_a_failure_is_eio(rt: HostRuntime) -> Result<(), Fail> {
    let alloc = rt.alloc();
    for call in 1..8 {
        let data_refuses = [call <= 3, 3 < call && call <= 6];
        assert!(rt; is_told(alloc, call, 0, data_refuses)?, "data call {call}");
        let hash_refuses = [call <= 2, 2 < call && call <= 4];
        assert!(rt; is_told(alloc, 0, call, hash_refuses)?, "hash call {call}");
    }
    Ok(())
}
