//! Each call at one store fails in turn, over a volume of 16 blocks, of which block 3 is written and to which one is added.

use crate::editors::*;
use crate::steps::Step;
use crate::volumes::{SIZE, is_same, volume_of};
use std::alloc::Global;
use std::test::Fail;
use test_volumes::{BuiltVolume, make_volume, params};
use verity_edit::{EditFault, Reply};
use verity_store::{MemStore, Which};

// The call of this number fails at this store; of number 0, none does.
#[derive(Clone, Copy)]
struct Failure {
    which: Which,
    call: u64,
}

// The edits, and their commit.
const EDITS: [Step; 3] = [Step::Write(3, 9), Step::Grow(17), Step::Commit];

// The same, and then another commit.
const GOES_ON: [Step; 4] = [
    Step::Write(3, 9),
    Step::Grow(17),
    Step::Commit,
    Step::Commit,
];

// The same, and then each call but the getters and `close`.
const IS_BROKEN: [Step; 8] = [
    Step::Write(3, 9),
    Step::Grow(17),
    Step::Commit,
    Step::Write(0, 1),
    Step::Grow(99),
    Step::Shrink(1),
    Step::Discard,
    Step::Commit,
];

// What an editor leaves that is asked this over the volume.
fn left_after(alloc: Global, failure: Failure, asked: &[Step]) -> Result<Left<MemStore>, Fail> {
    let (data_call, hash_call) = match failure.which {
        Which::Data => (failure.call, 0),
        Which::Hash => (0, failure.call),
    };
    let failures = Failures {
        data: Failing::Call(data_call),
        hash: Failing::Call(hash_call),
    };
    left_by(alloc, volume_of(alloc, 16)?, failures, asked)
}

// The volume that the commit leaves, made from scratch.
fn edited_volume(alloc: Global) -> Result<BuiltVolume, Fail> {
    let mut bytes = Vec::new(alloc);
    for n in 0..17 {
        let fill = match n {
            3 => 9,
            16 => 0,
            n => n,
        };
        bytes.extend_from_slice(&[fill; 512])?;
    }
    make_volume(alloc, MemStore::new(bytes, SIZE)?)
}

// Whether `open` names the store that failed, and gives both stores back as they were.
fn open_fails(alloc: Global, failure: Failure) -> Result<bool, Fail> {
    let left = left_after(alloc, failure, &EDITS)?;
    let is_named = match left.opened {
        Ok(_) => false,
        Err(fault) => fault == EditFault::Store(failure.which),
    };
    Ok(is_named && is_same(&left.data_store, &left.hash_store, &volume_of(alloc, 16)?))
}

// Whether the edits are done, and their commit names the store that failed.
fn is_named(replies: &[Reply], failure: Failure) -> bool {
    match replies {
        [Reply::Done, Reply::Done, Reply::Refused(fault), ..] => {
            *fault == EditFault::Store(failure.which)
        }
        _ => false,
    }
}

// Whether an editor that isn't broken then commits.
fn goes_on(replies: &[Reply]) -> bool {
    matches!(replies, [_, _, _, Reply::Committed(_)])
}

// Whether a broken editor then answers E7 to every call.
fn is_given_up(replies: &[Reply]) -> bool {
    replies.len() == 8
        && replies
            .iter()
            .skip(3)
            .all(|reply| *reply == Reply::Refused(EditFault::Broken))
}

// Whether both stores hold what a successful commit leaves.
fn is_whole(alloc: Global, left: &Left<MemStore>) -> Result<bool, Fail> {
    Ok(is_same(&left.data_store, &left.hash_store, &edited_volume(alloc)?))
}

// Whether an editor was opened, or refused since tree and data differ.
fn is_opened_or_torn(opened: Result<Seen, EditFault>) -> bool {
    match opened {
        Ok(_) => true,
        Err(fault) => matches!(
            fault,
            EditFault::Mismatch { .. } | EditFault::Superblock(_) | EditFault::DataLength
        ),
    }
}

// Whether what a broken editor left is opened or torn, and a build over it makes a volume that opens.
fn is_rebuilt(alloc: Global, left: Left<MemStore>) -> Result<bool, Fail> {
    let torn = opened_over(alloc, left.data_store, left.hash_store)?;
    if !is_opened_or_torn(torn.opened) {
        return Ok(false);
    }
    let volume = built(alloc, torn.data_store, torn.hash_store, &params(alloc)?)?;
    let root = volume.root;
    let opened = opened_over(alloc, volume.data_store, volume.hash_store)?.opened;
    Ok(opened.is_ok_and(|seen| seen.root == root))
}

// Whether a broken editor's stores are built over again, and another one's hold what a successful commit leaves.
fn stands(alloc: Global, broken: bool, left: Left<MemStore>) -> Result<bool, Fail> {
    if broken {
        is_rebuilt(alloc, left)
    } else {
        is_whole(alloc, &left)
    }
}

// Whether a commit of which a call fails breaks the editor, and whether both stores then hold what a successful one leaves. None
// where it doesn't name the store.
fn fate(alloc: Global, failure: Failure) -> Result<Option<(bool, bool)>, Fail> {
    let left = left_after(alloc, failure, &EDITS)?;
    let is_whole = is_whole(alloc, &left)?;
    let is_named = is_named(&left.replies, failure);
    let broken = left.opened.is_ok_and(|seen| seen.broken);
    Ok(is_named.then_some((broken, is_whole)))
}

// Whether a commit whose call fails names the store, and goes on or is given up.
fn commit_fails(alloc: Global, failure: Failure) -> Result<bool, Fail> {
    let Some((broken, _)) = fate(alloc, failure)? else {
        return Ok(false);
    };
    let asked: &[Step] = if broken { &IS_BROKEN } else { &GOES_ON };
    let left = left_after(alloc, failure, asked)?;
    let is_right = is_named(&left.replies, failure)
        && if broken {
            is_given_up(&left.replies)
        } else {
            goes_on(&left.replies)
        };
    let is_kept = left.opened.is_ok_and(|seen| seen.broken == broken);
    Ok(stands(alloc, broken, left)? && is_right && is_kept)
}

// The calls at a store of `open` and a commit none of whose calls fails.
fn calls(alloc: Global, which: Which) -> Result<u64, Fail> {
    let left = left_after(alloc, Failure { which, call: 0 }, &EDITS)?;
    Ok(match which {
        _ if left.replies.iter().any(is_refused) => 0,
        Which::Data => left.data_calls,
        Which::Hash => left.hash_calls,
    })
}

// The first call of so many whose failure isn't answered as it has to be. `open` makes the first ones, the commit the others.
fn wrong_call(alloc: Global, which: Which, opening: u64, last: u64) -> Result<Option<u64>, Fail> {
    for call in 1..last.saturating_add(1) {
        let failure = Failure { which, call };
        let is_right = if call <= opening {
            open_fails(alloc, failure)?
        } else {
            commit_fails(alloc, failure)?
        };
        if !is_right {
            return Ok(Some(call));
        }
    }
    Ok(None)
}

// How many calls there are at a store, the first of them whose failure isn't answered as it has to be, and the fate of a commit of
// which the last one fails.
#[derive(Clone, Copy)]
struct Tried {
    last: u64,
    wrong: Option<u64>,
    fate: Option<(bool, bool)>,
}

fn try_each(alloc: Global, which: Which, opening: u64) -> Result<Tried, Fail> {
    let last = calls(alloc, which)?;
    Ok(Tried {
        last,
        wrong: wrong_call(alloc, which, opening, last)?,
        fate: fate(alloc, Failure { which, call: last })?,
    })
}

// The last call is the commit's sync: it breaks the editor, and the stores hold all. The third call at the hash store is the
// commit's first, before any change.
#[test]
fn each_call_fails_in_turn(rt: HostRuntime) -> Result<(), Fail> {
    let alloc = rt.alloc();
    for (which, opening) in [(Which::Data, 16), (Which::Hash, 2)] {
        let tried = try_each(alloc, which, opening)?;
        let last = tried.last;
        assert!(rt; opening < last && last < 100, "{which}: {last} calls");
        assert_eq!(rt;
            (tried.wrong, tried.fate),
            (None, Some((true, true))),
            "{which}"
        );
    }
    let planning = Failure {
        which: Which::Hash,
        call: 3,
    };
    assert_eq!(rt; fate(alloc, planning)?, Some((false, false)));
    Ok(())
}
