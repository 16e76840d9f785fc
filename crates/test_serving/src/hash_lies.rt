//! Hash stores that lie.

use crate::clients::{Reads, Script, data_17, other_image, scripted, tree};
use crate::hubs::tells_over;
use std::alloc::Global;
use std::test::Fail;
use test_stores::ScriptStore;
use test_volumes::image;

/// Whether both sessions are told what they should where the hash store lies.
fn tells_of_hashes(
    alloc: Global,
    cache: usize,
    script: Script,
    reads: Reads,
) -> Result<bool, Fail> {
    let data = data_17(alloc)?;
    let hash = lying(alloc, script)?;
    tells_over(alloc, data, hash, [cache, 0], reads)
}

/// A hash store that does as scripted, and has the hash blocks of both volumes to give.
fn lying(alloc: Global, script: Script) -> Result<ScriptStore, Fail> {
    let other = tree(alloc, &other_image(alloc)?)?;
    let mut gives = tree(alloc, &image(alloc, 17)?)?;
    gives.extend_from_slice(&other)?;
    scripted(alloc, 3, &gives, script)
}

/// Lies of a hash store, which has the volume's top, first and second block of level 0 to give, and then those of another
/// volume: after a cache's size.
static HASH_LIES: [(&str, usize, Script, Reads); 12] = [
    (
        "another volume's top, then its level 0, then the right one",
        1,
        &[Some(3), Some(0), Some(4), Some(1)],
        &[(3, false), (3, false), (3, true), (4, true)],
    ),
    (
        "another volume's top, then its level 0, then the right one",
        4,
        &[Some(3), Some(0), Some(4), Some(1)],
        &[(3, false), (3, false), (3, true), (4, true)],
    ),
    (
        "another volume in whole",
        1,
        &[Some(3), Some(3)],
        &[(3, false), (16, false)],
    ),
    (
        "level 0 in swapped places, beside a cache that keeps no top",
        1,
        &[Some(0), Some(2), Some(1), Some(0), Some(1), Some(2)],
        &[(3, false), (3, true), (16, false), (16, true)],
    ),
    (
        "level 0 in swapped places",
        4,
        &[Some(0), Some(2), Some(1), Some(1), Some(2)],
        &[(3, false), (3, true), (16, false), (16, true)],
    ),
    (
        "levels in swapped places",
        1,
        &[Some(1), Some(0), Some(0), Some(1)],
        &[(3, false), (3, false), (3, true), (3, true)],
    ),
    (
        "right blocks, then wrong ones, then right ones, beside a cache that forgets",
        1,
        &[
            Some(0),
            Some(1),
            Some(0),
            Some(2),
            Some(3),
            Some(0),
            Some(4),
            Some(1),
        ],
        &[
            (3, true),
            (16, true),
            (3, false),
            (3, false),
            (3, true),
            (3, true),
        ],
    ),
    (
        "right blocks, and wrong ones that nobody asks for",
        4,
        &[Some(0), Some(1), Some(2), Some(3), Some(4), Some(5)],
        &[(3, true), (16, true), (3, true), (16, true)],
    ),
    (
        "a wrong block, then the right ones",
        4,
        &[Some(2), Some(0), Some(5), Some(2), Some(1)],
        &[(16, false), (16, false), (16, true), (3, true)],
    ),
    (
        "faults between right blocks, beside a cache that forgets",
        1,
        &[None, Some(0), None, Some(1), None, Some(0), None, Some(2)],
        &[
            (3, false),
            (3, false),
            (3, true),
            (16, false),
            (16, false),
            (16, true),
        ],
    ),
    (
        "faults between right blocks",
        4,
        &[None, Some(0), None, Some(1), None, Some(2)],
        &[
            (3, false),
            (3, false),
            (3, true),
            (16, false),
            (16, true),
            (3, true),
        ],
    ),
    ("nothing at all", 4, &[], &[(3, false), (16, false)]),
];

#[test]
fn a_hash_store_that_lies(rt: HostRuntime) -> Result<(), Fail> {
    let alloc = rt.alloc();
    for &(name, cache, script, reads) in &HASH_LIES {
        assert!(rt;
            tells_of_hashes(alloc, cache, script, reads)?,
            "{name}, cache of {cache}"
        );
    }
    Ok(())
}
