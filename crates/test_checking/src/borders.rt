//! Who gets a verifier, and the texts of faults.
ghost use Rattle.std.specs.Prelude.{◌^◌, ◌≤◌};

use crate::asking::{Line, NEVER, answered, failing};
use crate::verifiers::*;
use std::alloc::Global;
use std::process::Abort;
use std::test::Fail;
use verity_check::{CheckFault, Place};
use verity_digest::Digest;
use verity_store::{MemStore, Which};

// What a verifier over zeroed stores of these lengths is refused for, if it is.
fn refusal(
    alloc: Global,
    data_blocks: u64,
    hash_blocks: u64,
    cache: usize,
) -> Result<Option<CheckFault>, Fail>
    requires data_blocks { data_blocks ≤ 2 ^ 41 }
    requires hash_blocks { hash_blocks ≤ 2 ^ 41 }
{
    let line = Line::Plain(17, 1, Digest::from_bytes(ROOT_17));
    let data = failing(MemStore::zeroed(alloc, 512, data_blocks)?, NEVER);
    let hash = failing(MemStore::zeroed(alloc, 512, hash_blocks)?, NEVER);
    Ok(answered(alloc, line, data, hash, cache, &[])?.err())
}

#[test]
fn lengths_have_borders(rt: HostRuntime) -> Result<(), Fail> {
    let alloc = rt.alloc();
    let refusals = (
        refusal(alloc, 17, 4, 1)?,
        refusal(alloc, 16, 4, 1)?,
        refusal(alloc, 17, 3, 0)?,
    );
    let lengths = Some(CheckFault::Lengths);
    assert_eq!(rt; refusals, (None, lengths, lengths));
    Ok(())
}

#[test]
fn cache_sizes_have_borders(rt: HostRuntime) -> Result<(), Fail> {
    let alloc = rt.alloc();
    let refusals = (
        refusal(alloc, 18, 5, 65_536)?,
        refusal(alloc, 17, 4, 0)?,
        refusal(alloc, 17, 4, 65_537)?,
    );
    let cache_size = Some(CheckFault::CacheSize);
    assert_eq!(rt; refusals, (None, cache_size, cache_size));
    Ok(())
}

#[test]
fn faults_have_texts(rt: HostRuntime) -> Result<(), Fail> {
    let alloc = rt.alloc();
    for (fault, text) in [
        (CheckFault::Lengths, "V1"),
        (CheckFault::Mismatch(Place::Data(5)), "V2 data 5"),
        (CheckFault::Mismatch(TOP), "V2 level 1 index 0"),
        (CheckFault::Store(Which::Hash), "V3 hash"),
        (CheckFault::NoMemory, "V4"),
        (CheckFault::CacheSize, "V5"),
    ] {
        let said = format!(in alloc; "{fault}")?;
        assert_eq!(rt; said.as_str(), text);
    }
    Ok(())
}
