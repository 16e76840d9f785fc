//! Pulls from right sources, and from sources that lie.
use crate::pulls::{Before, Case, Outcome, outcome_of, right};
use std::process::Abort;
use std::test::Fail;
use verity_chain::Place;
use verity_pull::PullFault;

// One block has no level; a hash block has room for 16 digests. Behind the old end blocks 0 and 256, which are zeros, are kept; block
// 170 is of bytes 0xAA, as the rubbish.
#[test]
fn from_a_right_source(rt: HostRuntime) -> Result<(), Fail> {
    for (blocks, before, fetched, kept, hash_blocks) in [
        (1, Before::Equal, 0, 1, 0),
        (1, Before::Empty, 0, 1, 0),
        (1, Before::Rubbish, 1, 0, 0),
        (2, Before::Empty, 1, 1, 1),
        (16, Before::Rubbish, 16, 0, 1),
        (17, Before::Shorter, 9, 8, 3),
        (200, Before::Longer, 0, 200, 14),
        (257, Before::Rubbish, 256, 1, 20),
        (300, Before::Shorter, 149, 151, 22),
        (300, Before::Empty, 298, 2, 22),
    ] {
        assert_eq!(rt;
            outcome_of(rt.alloc(), right(blocks, before))?,
            Outcome::Pulled(fetched, kept, hash_blocks)
        );
    }
    Ok(())
}

// A wrong data block that is needed is named, whether it is fetched in a run or alone; one that isn't needed isn't read.
#[test]
fn from_wrong_data(rt: HostRuntime) -> Result<(), Fail> {
    for (blocks, before, n, is_needed) in [
        (2, Before::Empty, 1, true),
        (300, Before::Empty, 299, true),
        (300, Before::Shorter, 150, true),
        (17, Before::Rubbish, 9, true),
        (300, Before::Shorter, 149, false),
        (300, Before::Empty, 256, false),
    ] {
        let case = Case {
            data_at: n * 512 + 7,
            ..right(blocks, before)
        };
        let outcome = outcome_of(rt.alloc(), case)?;
        let wrong = Outcome::Stopped(PullFault::Wrong(Place::Data(n as u64)));
        assert_eq!(rt; outcome == wrong, is_needed, "{n}");
        assert!(rt; outcome != Outcome::Wrong, "{n}");
    }
    Ok(())
}

// 300 blocks: 19 of level 0, two of level 1, one of level 2. The top stands first, behind the superblock, which isn't read.
#[test]
fn from_a_wrong_tree(rt: HostRuntime) -> Result<(), Fail> {
    for (at, level, index) in [(1, 2, 0), (3, 1, 1), (22, 0, 18)] {
        for before in [Before::Equal, Before::Empty] {
            let case = Case {
                hash_at: at * 512 + 3,
                ..right(300, before)
            };
            let place = Place::Hash { level, index };
            assert_eq!(rt;
                outcome_of(rt.alloc(), case)?,
                Outcome::Stopped(PullFault::Wrong(place))
            );
        }
    }
    let case = Case {
        hash_at: 3,
        ..right(300, Before::Equal)
    };
    assert_eq!(rt; outcome_of(rt.alloc(), case)?, Outcome::Pulled(0, 300, 22));
    Ok(())
}
