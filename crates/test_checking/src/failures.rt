//! Stores that fail at one call.
use crate::asking::{Ask, Failure, is_right, line_17};
use crate::verifiers::*;
use std::alloc::Global;
use std::process::Abort;
use std::test::Fail;
use verity_check::{CheckFault, Place, Verdict};
use verity_digest::Algorithm;
use verity_store::Which;

// Whether all is answered as it is to be where the data store and the hash store fail at their calls of these numbers; of number 0,
// none does.
fn is_right_failing(
    alloc: Global,
    data_call: u64,
    hash_call: u64,
    asks: &[Ask],
) -> Result<bool, Fail> {
    let bytes = data_and_tree(alloc, Algorithm::Sha256)?;
    let at = (Failure::Call(data_call), Failure::Call(hash_call));
    is_right(alloc, line_17(Algorithm::Sha256), bytes, at, 4, asks)
}

// A report names this place as unread, and the next, at which no call fails, names none.
fn unread(place: Place, unchecked: u64) -> [Ask; 2] {
    [
        Ask::ReportsOne(place, Verdict::Unread, unchecked),
        Ask::Reports(&[], 0),
    ]
}

// What is below the place of the failed read is unchecked: two hash blocks and 17 data blocks, 16 data blocks, one.
#[test]
fn a_report_names_a_failed_hash_read(rt: HostRuntime) -> Result<(), Fail> {
    let alloc = rt.alloc();
    for (call, place, unchecked) in [(1, TOP, 19), (2, FIRST, 16), (3, SECOND, 1)] {
        assert!(rt;
            is_right_failing(alloc, 0, call, &unread(place, unchecked))?,
            "{call}"
        );
    }
    Ok(())
}

#[test]
fn a_report_names_a_failed_data_read(rt: HostRuntime) -> Result<(), Fail> {
    let alloc = rt.alloc();
    for n in 0..17 {
        assert!(rt;
            is_right_failing(alloc, n + 1, 0, &unread(Place::Data(n), 0))?,
            "{n}"
        );
    }
    Ok(())
}

// A read of all names this store, and the next, at which no call fails, is served.
fn refused_once(which: Which) -> [Ask; 2] {
    [
        Ask::Refuses(0, 8704, CheckFault::Store(which)),
        Ask::Serves(0, 8704, [0, 16]),
    ]
}

#[test]
fn a_read_names_the_data_store(rt: HostRuntime) -> Result<(), Fail> {
    let alloc = rt.alloc();
    for call in 1..18 {
        assert!(rt;
            is_right_failing(alloc, call, 0, &refused_once(Which::Data))?,
            "{call}"
        );
    }
    Ok(())
}

#[test]
fn a_read_names_the_hash_store(rt: HostRuntime) -> Result<(), Fail> {
    let alloc = rt.alloc();
    for call in 1..4 {
        assert!(rt;
            is_right_failing(alloc, 0, call, &refused_once(Which::Hash))?,
            "{call}"
        );
    }
    Ok(())
}
