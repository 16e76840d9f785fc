//! In which order a build writes, and a comparison reads.
use crate::failures::{build_failing, compare_failing};
use std::test::Fail;
use verity_build::BuildFault;
use verity_store::Which;

// The last data block can't be read; the first hash block of level 0 is written.
#[test]
fn full_blocks_are_written_at_once(rt: HostRuntime) -> Result<(), Fail> {
    let built = build_failing(&rt, rt.alloc(), 17, 0)?;
    let fault = BuildFault::Store(Which::Data);
    assert_eq!(rt; (built.answer, built.has_the_first), (Err(fault), true));
    Ok(())
}

// The first hash block that is asked for can't be read, nor the last data block.
#[test]
fn full_blocks_are_compared_at_once(rt: HostRuntime) -> Result<(), Fail> {
    let seen = compare_failing(&rt, rt.alloc(), 17, 1)?;
    assert_eq!(rt; seen.answer, Err(BuildFault::Store(Which::Hash)));
    Ok(())
}
