//! How many blocks are hashed where the count of data blocks changes. What such commits leave is in `tests/program`.

use crate::editors::*;
use crate::steps::Step;
use crate::volumes::volume_of;
use std::alloc::Global;
use std::test::Fail;
use verity_edit::{EditFault, Reply};

// How many blocks two commits hashed, after an edit that was done. None where a call was refused, the count is another, or the
// roots differ.
fn hashed(replies: &[Reply], opened: Result<Seen, EditFault>, count: u64) -> Option<(u64, u64)> {
    let seen = opened.ok()?;
    match replies {
        [
            Reply::Done,
            Reply::Committed(first),
            Reply::Committed(second),
        ] => {
            let is_kept = first.root == second.root && second.root == seen.root;
            (is_kept && seen.blocks == count).then_some((first.hashed, second.hashed))
        }
        _ => None,
    }
}

// A count of data blocks, the one that it is changed to, and the most blocks that are hashed.
const CHANGES: [(usize, u64, u64); 9] = [
    (256, 257, 4),
    (257, 256, 2),
    (1, 257, 21),
    (257, 17, 2),
    (17, 1, 0),
    (16, 17, 3),
    (17, 16, 1),
    (1, 2, 2),
    (4097, 256, 2),
];

// The same of a commit of another count, over the volume of so many blocks, and of the next one, without edits.
fn hashed_by(alloc: Global, old: usize, new: u64) -> Result<Option<(u64, u64)>, Fail> {
    let change = if (old as u64) < new {
        Step::Grow(new)
    } else {
        Step::Shrink(new)
    };
    let asked = [change, Step::Commit, Step::Commit];
    let left = left_by(alloc, volume_of(alloc, old)?, NO_FAILURES, &asked)?;
    let opened = left.opened;
    Ok(hashed(&left.replies, opened, new))
}

#[test]
fn counts_that_change(rt: HostRuntime) -> Result<(), Fail> {
    for (old, new, most) in CHANGES {
        let hashed = hashed_by(rt.alloc(), old, new)?;
        assert!(rt;
            hashed.is_some_and(|(first, second)| first <= most && second == 0),
            "{old} to {new}: {hashed:?}"
        );
    }
    Ok(())
}
