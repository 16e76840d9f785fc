//! Data stores that lie.

use crate::clients::{Reads, Script, hash_17, other_image, scripted};
use crate::hubs::tells_over;
use std::alloc::Global;
use std::test::Fail;
use test_stores::ScriptStore;
use test_volumes::image;

/// Whether both sessions are told what they should where the data store lies.
fn tells_of_data(
    alloc: Global,
    caches: [usize; 2],
    script: Script,
    reads: Reads,
) -> Result<bool, Fail> {
    let hash = hash_17(alloc)?;
    let data = lying(alloc, script)?;
    tells_over(alloc, data, hash, caches, reads)
}

/// A data store that does as scripted, and has the blocks of both volumes to give.
fn lying(alloc: Global, script: Script) -> Result<ScriptStore, Fail> {
    let other = other_image(alloc)?;
    let mut gives = image(alloc, 17)?;
    gives.extend_from_slice(&other)?;
    scripted(alloc, 17, &gives, script)
}

/// Lies of a data store, which has the volume's 17 blocks to give, and then those of another volume.
static DATA_LIES: [(&str, Script, Reads); 7] = [
    (
        "blocks of another volume",
        &[Some(20), Some(33), Some(20), Some(33)],
        &[(3, false), (16, false), (3, false), (16, false)],
    ),
    (
        "right blocks in swapped places",
        &[Some(4), Some(3), Some(16), Some(0), Some(3), Some(4)],
        &[
            (3, false),
            (4, false),
            (0, false),
            (16, false),
            (3, true),
            (4, true),
        ],
    ),
    (
        "the right block, then another, then the right one",
        &[Some(3), Some(4), Some(3), Some(20)],
        &[(3, true), (3, false), (3, true), (3, false)],
    ),
    (
        "a wrong block, then the right one",
        &[Some(20), Some(3), Some(4), Some(3)],
        &[(3, false), (3, true), (3, false), (3, true)],
    ),
    (
        "faults between right blocks",
        &[Some(3), None, Some(16), None, Some(16), Some(3)],
        &[
            (3, true),
            (16, false),
            (16, true),
            (3, false),
            (16, true),
            (3, true),
        ],
    ),
    ("faults alone", &[None, None], &[(3, false), (16, false)]),
    (
        "one right block, and no more",
        &[Some(3)],
        &[(3, true), (3, false), (3, false), (3, false)],
    ),
];

/// How many hash blocks and how many data blocks are kept.
const CACHES: [[usize; 2]; 3] = [[1, 0], [4, 0], [1, 8]];

#[test]
fn a_data_store_that_lies(rt: HostRuntime) -> Result<(), Fail> {
    let alloc = rt.alloc();
    for &(name, script, reads) in &DATA_LIES {
        for &caches in &CACHES {
            assert!(rt;
                tells_of_data(alloc, caches, script, reads)?,
                "{name}, caches of {caches:?}"
            );
        }
    }
    Ok(())
}
