//! Commits that crash at each call of the folder.
use crate::volumes::{Small, shown, table, text};
use os_line_file::{Tear, TearingFolder};
use std::alloc::Global;
use std::process::Abort;
use std::test::Fail;
use verity_line_file::{LineFile, LineFileFault, Settled};

const TEARS: [Tear; 4] = [Tear::Nothing, Tear::Begun, Tear::Half, Tear::All];

// What is left of both files.
#[derive(Drop)]
struct Left {
    line: Option<Vec<u8>>,
    next: Option<Vec<u8>>,
    has_crashed: bool,
    is_committed: bool,
}

// A commit whose folder crashes at the call behind so many; the volume is committed where FILE.next was begun and `commits` says so.
fn commit(
    alloc: Global,
    line: Option<Vec<u8>>,
    new: Small,
    commits: bool,
    calls: u64,
    tear: Tear,
) -> Result<Left, Fail> {
    let folder = TearingFolder::new(alloc, line, None, calls, tear)?;
    let mut file = LineFile::new(folder);
    let begun = file.begin(alloc, &table(alloc, new)?).is_ok();
    let is_committed = begun && commits;
    if is_committed && file.is_under_way() {
        let _ = file.finish();
    }
    let folder = file.folder;
    let has_crashed = folder.has_crashed();
    let (line, next) = folder.into_left();
    Ok(Left {
        line,
        next,
        has_crashed,
        is_committed,
    })
}

// Both files settled beside a volume, where the folder crashes at the call behind so many.
fn settle(
    alloc: Global,
    line: Option<Vec<u8>>,
    next: Option<Vec<u8>>,
    small: Small,
    calls: u64,
    tear: Tear,
) -> Result<(Left, Result<Settled, LineFileFault>), Fail> {
    let folder = TearingFolder::new(alloc, line, next, calls, tear)?;
    let mut file = LineFile::new(folder);
    let settled = file.settle(alloc, &shown(alloc, small)?);
    let folder = file.folder;
    let has_crashed = folder.has_crashed();
    let (line, next) = folder.into_left();
    let left = Left {
        line,
        next,
        has_crashed,
        is_committed: false,
    };
    Ok((left, settled))
}

fn is_text(found: &Option<Vec<u8>>, wanted: &[u8]) -> bool {
    match found {
        Some(found) => found.as_slice() == wanted,
        None => false,
    }
}

// A commit that crashes, and then settled, which crashes too: FILE holds the line of the volume as it is.
fn line_is_the_volumes(
    alloc: Global,
    old: Small,
    new: Small,
    commits: bool,
    calls: u64,
    tear: Tear,
) -> Result<bool, Fail> {
    for again in TEARS {
        let left = commit(alloc, Some(text(alloc, old)?), new, commits, calls, tear)?;
        let volume = if left.is_committed { new } else { old };
        let (left, _) = settle(alloc, left.line, left.next, volume, 0, again)?;
        let (left, settled) = settle(alloc, left.line, left.next, volume, 9, Tear::All)?;
        if settled.is_err() || left.next.is_some() || !is_text(&left.line, &text(alloc, volume)?) {
            return Ok(false);
        }
    }
    Ok(true)
}

const PAIRS: [(Small, Small); 3] = [
    (Small { blocks: 1, byte: 1 }, Small { blocks: 1, byte: 2 }),
    (Small { blocks: 1, byte: 1 }, Small { blocks: 2, byte: 1 }),
    (Small { blocks: 2, byte: 1 }, Small { blocks: 2, byte: 2 }),
];

#[test]
fn a_crash_at_each_call_leaves_the_volumes_line(rt: HostRuntime) -> Result<(), Fail> {
    for (old, new) in PAIRS {
        for tear in TEARS {
            for calls in 0..3 {
                assert!(rt; line_is_the_volumes(rt.alloc(), old, new, true, calls, tear)?);
                assert!(rt; line_is_the_volumes(rt.alloc(), old, new, false, calls, tear)?);
            }
        }
    }
    Ok(())
}

#[test]
fn a_first_commit_that_has_crashed_leaves_no_other_line(rt: HostRuntime) -> Result<(), Fail> {
    let alloc = rt.alloc();
    let (old, new) = (Small { blocks: 1, byte: 1 }, Small { blocks: 1, byte: 2 });
    for tear in TEARS {
        for calls in 0..3 {
            let left = commit(alloc, None, new, true, calls, tear)?;
            let volume = if left.is_committed { new } else { old };
            let (left, settled) = settle(alloc, left.line, left.next, volume, 9, Tear::All)?;
            assert!(rt; settled.is_ok());
            assert!(rt; left.next.is_none());
            if calls > 0 {
                assert!(rt; is_text(&left.line, &text(alloc, new)?));
            } else {
                assert!(rt; left.line.is_none());
            }
        }
    }
    Ok(())
}

#[test]
fn both_files_stay_beside_another_volume(rt: HostRuntime) -> Result<(), Fail> {
    let alloc = rt.alloc();
    for (old, new) in PAIRS {
        let left = commit(alloc, Some(text(alloc, old)?), new, false, 9, Tear::All)?;
        let other = Small {
            blocks: old.blocks,
            byte: 3,
        };
        let (left, settled) = settle(alloc, left.line, left.next, other, 9, Tear::All)?;
        assert!(rt; matches!(settled, Err(LineFileFault::Top)));
        assert!(rt; !left.has_crashed);
        assert!(rt; is_text(&left.line, &text(alloc, old)?));
        assert!(rt; is_text(&left.next, &text(alloc, new)?));
    }
    Ok(())
}

#[test]
fn a_volume_of_other_values_is_told_apart(rt: HostRuntime) -> Result<(), Fail> {
    let alloc = rt.alloc();
    let one = Small { blocks: 1, byte: 1 };
    let left = commit(alloc, Some(text(alloc, one)?), one, false, 9, Tear::All)?;
    let two = Small { blocks: 2, byte: 1 };
    let (_, settled) = settle(alloc, left.line, left.next, two, 9, Tear::All)?;
    assert!(rt; matches!(settled, Err(LineFileFault::Values)));
    Ok(())
}
