//! Who is notified of what a hub refuses.

use crate::clients::{Script, client, noticed_17, scripted, serve_once, tree};
use std::alloc::Global;
use std::cell::Cell;
use std::test::Fail;
use test_volumes::image;
use verity_check::{CheckFault, Place};
use verity_hub::Notices;
use verity_store::Which;

/// What is notified of a READ.
#[derive(Clone, Copy, Debug, PartialEq, Eq)]
struct Notice {
    fault: CheckFault,
    first: u64,
    last: u64,
}

/// Keeps the last notice, and how many there were.
#[derive(Drop)]
struct Kept<'a> {
    last: &'a Cell<Option<Notice>>,
    count: &'a Cell<u64>,
}

impl<'a> Notices for Kept<'a> {
    ghost notified = { λ old new fault first last. Unit {0} };

    fn refused(&mut self, fault: CheckFault, first: u64, last: u64) {
        self.last.set(Some(Notice { fault, first, last }));
        self.count.set(self.count.get().saturating_add(1));
    }
}

/// What the stores give, the READs, and what is notified of them.
#[derive(Clone, Copy)]
struct Case {
    data: Script,
    hash: Script,
    ranges: &'static [(u64, u32)],
    last: Option<Notice>,
    count: u64,
}

/// Each store has the volume's blocks to give; the hash store the top, and then both blocks of level 0.
static CASES: [(&str, Case); 7] = [
    (
        "right blocks",
        Case {
            data: &[Some(3)],
            hash: &[Some(0), Some(1)],
            ranges: &[(1536, 512)],
            last: None,
            count: 0,
        },
    ),
    (
        "another data block",
        Case {
            data: &[Some(4)],
            hash: &[Some(0), Some(1)],
            ranges: &[(1536, 512)],
            last: Some(Notice {
                fault: CheckFault::Mismatch(Place::Data(3)),
                first: 3,
                last: 3,
            }),
            count: 1,
        },
    ),
    (
        "the second of two data blocks",
        Case {
            data: &[Some(3), Some(3)],
            hash: &[Some(0), Some(1)],
            ranges: &[(1636, 500)],
            last: Some(Notice {
                fault: CheckFault::Mismatch(Place::Data(4)),
                first: 3,
                last: 4,
            }),
            count: 1,
        },
    ),
    (
        "a data block that can't be read",
        Case {
            data: &[None],
            hash: &[Some(0), Some(1)],
            ranges: &[(1636, 1000)],
            last: Some(Notice {
                fault: CheckFault::Store(Which::Data),
                first: 3,
                last: 5,
            }),
            count: 1,
        },
    ),
    (
        "another top",
        Case {
            data: &[Some(16)],
            hash: &[Some(1)],
            ranges: &[(8192, 512)],
            last: Some(Notice {
                fault: CheckFault::Mismatch(Place::Hash { level: 1, index: 0 }),
                first: 16,
                last: 16,
            }),
            count: 1,
        },
    ),
    (
        "a hash block that can't be read",
        Case {
            data: &[Some(0), Some(1)],
            hash: &[Some(0), None],
            ranges: &[(0, 1024)],
            last: Some(Notice {
                fault: CheckFault::Store(Which::Hash),
                first: 0,
                last: 1,
            }),
            count: 1,
        },
    ),
    (
        "a bad block twice, and a right one",
        Case {
            data: &[Some(4), Some(4), Some(4)],
            hash: &[Some(0), Some(1)],
            ranges: &[(1536, 512), (1536, 512), (2048, 512)],
            last: Some(Notice {
                fault: CheckFault::Mismatch(Place::Data(3)),
                first: 3,
                last: 3,
            }),
            count: 2,
        },
    ),
];

/// Whether that is notified.
fn is_notified(alloc: Global, case: Case) -> Result<bool, Fail> {
    let bytes = image(alloc, 17)?;
    let data = scripted(alloc, 17, &bytes, case.data)?;
    let hash = scripted(alloc, 3, &tree(alloc, &bytes)?, case.hash)?;
    let last = Cell::new(None);
    let count = Cell::new(0);
    let kept = Kept {
        last: &last,
        count: &count,
    };
    let mut said = Vec::new(alloc);
    let hub = noticed_17(alloc, data, hash, kept)?;
    let served = serve_once(hub, &client(alloc, case.ranges)?, &mut said);
    Ok(served.is_ok() && last.get() == case.last && count.get() == case.count)
}

#[test]
fn each_refusal_for_a_block_is_notified(rt: HostRuntime) -> Result<(), Fail> {
    let alloc = rt.alloc();
    for &(name, case) in &CASES {
        assert!(rt; is_notified(alloc, case)?, "{name}");
    }
    Ok(())
}
