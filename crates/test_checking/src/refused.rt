//! Reads and reports that are refused memory.
use crate::asking::{Ask, Line, NEVER, answered, answered_within, failing};
use crate::room::BAD;
use crate::verifiers::salted;
use std::alloc::Global;
use std::process::Abort;
use std::test::Fail;
use test_volumes::{BuiltVolume, flip, image};
use verity_check::{CheckFault, Place};
use verity_store::MemStore;

// Whether a verifier of the salted volume answers as it is to.
fn is_right_salted(alloc: Global, asks: &[Ask]) -> Result<bool, Fail> {
    let volume = salted(alloc)?;
    let data = failing(volume.data_store, NEVER);
    let hash = failing(volume.hash_store, NEVER);
    Ok(answered(alloc, Line::Salted, data, hash, 4, asks)? == Ok(asks.len()))
}

#[test]
fn a_read_refused_memory_appends_nothing(rt: HostRuntime) -> Result<(), Fail> {
    assert!(rt; is_right_salted(rt.alloc(), &[Ask::NeedsSteps(96)])?);
    Ok(())
}

// The volume, with a bit of data block 5 flipped.
fn flipped(alloc: Global) -> Result<BuiltVolume, Fail> {
    let mut image = image(alloc, 17)?;
    flip(&mut image, 5 * 512 + 7);
    let data_store = MemStore::new(image, 512)?;
    Ok(BuiltVolume {
        data_store,
        ..salted(alloc)?
    })
}

// Whether a report that finds so much room is given, or is refused, and what comes next is right.
fn reported(
    alloc: Global,
    volume: &BuiltVolume,
    steps: usize,
    is_given: bool,
) -> Result<bool, Fail> {
    let asks = [
        Ask::ReportsWithin(steps, is_given),
        Ask::Reports(&BAD, 0),
        Ask::ServesBlocks(4, 5),
        Ask::RefusesBlock(5, CheckFault::Mismatch(Place::Data(5))),
        Ask::Serves(3072, 5632, [6, 16]),
    ];
    Ok(answered_within(alloc, volume, 16_384, NEVER, &asks)? == Some(Ok(5)))
}

// With how many steps of room a report is first not refused, and whether it is then given.
fn first_report(alloc: Global) -> Result<(usize, bool), Fail> {
    let volume = flipped(alloc)?;
    for steps in 0..500 {
        if !reported(alloc, &volume, steps, false)? {
            return Ok((steps, reported(alloc, &volume, steps, true)?));
        }
    }
    Ok((500, false))
}

#[test]
fn a_report_refused_memory_leaves_the_verifier_usable(rt: HostRuntime) -> Result<(), Fail> {
    let (steps, is_given) = first_report(rt.alloc())?;
    assert!(rt;
        is_given && steps > 0,
        "given {is_given} with {steps} steps"
    );
    Ok(())
}
