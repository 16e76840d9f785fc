//! What is refused from the start, and the texts of faults.
use crate::volumes::{numbered, params};
use std::alloc::Global;
use std::test::Fail;
use verity_build::{BuildFault, build_at, compare_at};
use verity_digest::Algorithm;
use verity_geometry::GeometryFault;
use verity_store::Which;

// What a build and a comparison at this offset answer, of so many data blocks and of hash blocks of this size, and whether the hash device
// is left as it was.
fn refuse(
    alloc: Global,
    count: usize,
    size: usize,
    offset: u64,
) -> Result<(Option<BuildFault>, Option<BuildFault>, bool), Fail> {
    let params = params(alloc, b"", Algorithm::Sha256)?;
    let mut data_store = numbered(alloc, 512, count)?;
    let mut hash_store = numbered(alloc, size, 2)?;
    let before = numbered(alloc, size, 2)?;
    let built = build_at(alloc, &mut data_store, &mut hash_store, &params, offset);
    let compared = compare_at(alloc, &mut data_store, &mut hash_store, &params, offset);
    Ok((
        built.err(),
        compared.err(),
        hash_store.bytes() == before.bytes(),
    ))
}

#[test]
fn refusals_change_nothing(rt: HostRuntime) -> Result<(), Fail> {
    let no_blocks = BuildFault::Geometry(GeometryFault::BadCount);
    for (count, size, offset, fault) in [
        (0, 512, 0, no_blocks),
        (0, 1024, 512, no_blocks),
        (1, 1024, 512, BuildFault::Offset),
        (1, 512, 1 << 49, BuildFault::Offset),
    ] {
        let refusals = refuse(rt.alloc(), count, size, offset)?;
        assert_eq!(rt;
            refusals,
            (Some(fault), Some(fault), true),
            "{count} of {size} at {offset}"
        );
    }
    Ok(())
}

#[test]
fn texts(rt: HostRuntime) -> Result<(), Fail> {
    for (fault, text) in [
        (BuildFault::Geometry(GeometryFault::BadCount), "U1 M2"),
        (BuildFault::Store(Which::Data), "U2 data"),
        (BuildFault::Store(Which::Hash), "U2 hash"),
        (BuildFault::NoMemory, "U3"),
        (BuildFault::Offset, "U4"),
    ] {
        let told = format!(in rt.alloc(); "{fault}")?;
        assert_eq!(rt; told.as_str(), text);
    }
    Ok(())
}
