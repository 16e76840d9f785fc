//! Editors of the tests: what is asked of one, what it answers, and what it leaves. All editors are opened here, at few types, as each
//! type at which a store's or an editor's function is called takes long to prove.

use crate::heaps::squeeze;
use crate::steps::{Step, commands_of};
use crate::volumes::{SIZE, is_same};
use linked_list_allocator::LocalHeap;
use std::alloc::{Allocator, Global};
use std::test::Fail;
use test_stores::FailStore;
use test_volumes::BuiltVolume;
use verity_build::{BuildParameters, build};
use verity_digest::Digest;
use verity_edit::{EditFault, Editor, Reply};
use verity_store::{BlockStore, MemStore};

// Which calls at a store fail: the one of this number, of number 0 none; or each read after so many.
#[derive(Clone, Copy)]
pub enum Failing {
    Call(u64),
    ReadsAfter(u64),
}

// Which calls fail at both stores.
#[derive(Clone, Copy)]
pub struct Failures {
    pub data: Failing,
    pub hash: Failing,
}

pub const NO_FAILURES: Failures = Failures {
    data: Failing::Call(0),
    hash: Failing::Call(0),
};

// A heap that has only so many bytes left.
#[derive(Clone, Copy)]
pub struct Short<'a> {
    pub heap: &'a LocalHeap,
    pub room: usize,
}

// What an editor is asked, over data blocks of `size` bytes: steps; then others while a heap is short, where there is one; then more.
// The room for the first `kept` replies is taken beforehand.
#[derive(Clone, Copy)]
pub struct Work<'a> {
    pub size: usize,
    pub kept: usize,
    pub before: &'a [Step],
    pub squeezed: &'a [Step],
    pub after: &'a [Step],
}

impl<'a> Work<'a> {
    // How many steps there are.
    pub fn len(&self) -> usize {
        self.before
            .len()
            .saturating_add(self.squeezed.len())
            .saturating_add(self.after.len())
    }
}

// Steps with all memory.
pub fn steps(steps: &[Step]) -> Work {
    Work {
        size: SIZE,
        kept: 0,
        before: steps,
        squeezed: &[],
        after: &[],
    }
}

// What is seen of an editor at the end.
#[derive(Clone, Copy)]
pub struct Seen {
    pub root: Digest,
    pub blocks: u64,
    pub broken: bool,
}

// What came of an editor: why it wasn't opened, or what is seen of it; its replies; and both stores.
#[derive(Drop)]
struct Ended<D> {
    opened: Result<Seen, EditFault>,
    replies: Vec<Reply>,
    data_store: D,
    hash_store: D,
}

// The same, and how many calls each store had.
#[derive(Drop)]
pub struct Left<D> {
    pub opened: Result<Seen, EditFault>,
    pub replies: Vec<Reply>,
    pub data_calls: u64,
    pub hash_calls: u64,
    pub data_store: D,
    pub hash_store: D,
}

// Does the steps, and adds the replies to these.
fn run<D: BlockStore, A: Allocator + Copy>(
    alloc: Global,
    editor: &mut Editor<D, D, A>,
    steps: &[Step],
    size: usize,
    replies: &mut Vec<Reply, A>,
) -> Result<(), Fail> {
    let commands = commands_of(alloc, steps, size)?;
    editor.run(&commands, replies)?;
    Ok(())
}

// The same where a heap is short. Where its bytes are too few for a reply, no other is added.
fn run_squeezed<D: BlockStore, A: Allocator + Copy>(
    alloc: Global,
    editor: &mut Editor<D, D, A>,
    short: Option<Short>,
    work: Work,
    replies: &mut Vec<Reply, A>,
) -> Result<(), Fail> {
    let Some(short) = short else {
        return Ok(());
    };
    let commands = commands_of(alloc, work.squeezed, work.size)?;
    let rest = squeeze(alloc, short.heap, short.room)?;
    let _short = editor.run(&commands, replies);
    drop(rest);
    Ok(())
}

// The replies to all steps.
fn replies_to<D: BlockStore, A: Allocator + Copy>(
    alloc: Global,
    edits_in: A,
    editor: &mut Editor<D, D, A>,
    short: Option<Short>,
    work: Work,
) -> Result<Vec<Reply>, Fail> {
    let mut replies = Vec::with_capacity(edits_in, work.kept)?;
    run(alloc, editor, work.before, work.size, &mut replies)?;
    run_squeezed(alloc, editor, short, work, &mut replies)?;
    run(alloc, editor, work.after, work.size, &mut replies)?;
    Ok(replies.as_slice().to_vec(alloc)?)
}

// What comes of an editor that is asked this.
fn worked<D: BlockStore + Drop, A: Allocator + Copy>(
    alloc: Global,
    edits_in: A,
    editor: Editor<D, D, A>,
    short: Option<Short>,
    work: Work,
) -> Result<Ended<D>, Fail> {
    let mut editor = editor;
    let replies = replies_to(alloc, edits_in, &mut editor, short, work)?;
    let seen = Seen {
        root: editor.root(),
        blocks: editor.blocks(),
        broken: editor.broken(),
    };
    let (data_store, hash_store) = editor.close();
    Ok(Ended {
        opened: Ok(seen),
        replies,
        data_store,
        hash_store,
    })
}

// The same of an editor over these stores.
fn worked_over<D: BlockStore + Drop, A: Allocator + Copy>(
    alloc: Global,
    edits_in: A,
    data_store: D,
    hash_store: D,
    short: Option<Short>,
    work: Work,
) -> Result<Ended<D>, Fail> {
    match Editor::open(edits_in, data_store, hash_store) {
        Ok(editor) => worked(alloc, edits_in, editor, short, work),
        Err(refused) => Ok(Ended {
            opened: Err(refused.fault),
            replies: Vec::new(alloc),
            data_store: refused.data_store,
            hash_store: refused.hash_store,
        }),
    }
}

fn failing_store<D: BlockStore + Drop>(store: D, failing: Failing) -> FailStore<D> {
    match failing {
        Failing::Call(call) => FailStore::at(store, call),
        Failing::ReadsAfter(reads) => FailStore::reads_after(store, reads),
    }
}

// The same, where calls at the stores fail.
fn left_over<D: BlockStore + Drop, A: Allocator + Copy>(
    alloc: Global,
    edits_in: A,
    data_store: D,
    hash_store: D,
    failures: Failures,
    short: Option<Short>,
    work: Work,
) -> Result<Left<D>, Fail> {
    let data_store = failing_store(data_store, failures.data);
    let hash_store = failing_store(hash_store, failures.hash);
    let ended = worked_over(alloc, edits_in, data_store, hash_store, short, work)?;
    Ok(Left {
        opened: ended.opened,
        replies: ended.replies,
        data_calls: ended.data_store.calls(),
        hash_calls: ended.hash_store.calls(),
        data_store: ended.data_store.into_inner(),
        hash_store: ended.hash_store.into_inner(),
    })
}

// What comes of an editor that is asked this over these stores, calls at which fail, where its edits take memory of `edits_in`.
pub fn left_in<S: Allocator + Drop, A: Allocator + Copy>(
    alloc: Global,
    edits_in: A,
    data_store: MemStore<S>,
    hash_store: MemStore<S>,
    failures: Failures,
    short: Option<Short>,
    work: Work,
) -> Result<Left<MemStore<S>>, Fail> {
    left_over(
        alloc, edits_in, data_store, hash_store, failures, short, work,
    )
}

// The same with all memory.
pub fn left_by(
    alloc: Global,
    volume: BuiltVolume,
    failures: Failures,
    asked: &[Step],
) -> Result<Left<MemStore>, Fail> {
    let work = steps(asked);
    left_in(
        alloc,
        alloc,
        volume.data_store,
        volume.hash_store,
        failures,
        None,
        work,
    )
}

// The same of an editor that is only opened.
pub fn opened_over(
    alloc: Global,
    data_store: MemStore,
    hash_store: MemStore,
) -> Result<Left<MemStore>, Fail> {
    left_in(
        alloc,
        alloc,
        data_store,
        hash_store,
        NO_FAILURES,
        None,
        steps(&[]),
    )
}

// The same of an editor in a heap that is short, over stores that don't fail.
pub fn left_in_heap(
    alloc: Global,
    heap: &LocalHeap,
    room: usize,
    volume: BuiltVolume,
    work: Work,
) -> Result<Left<MemStore>, Fail> {
    let BuiltVolume {
        data_store,
        hash_store,
        ..
    } = volume;
    let short = Some(Short { heap, room });
    left_in(
        alloc,
        heap,
        data_store,
        hash_store,
        NO_FAILURES,
        short,
        work,
    )
}

// Whether an editor wasn't broken, and it and both stores hold a volume.
pub fn is_left<S: Allocator>(left: &Left<MemStore<S>>, wanted: &BuiltVolume) -> bool {
    let is_right = match left.opened {
        Ok(seen) => !seen.broken && seen.root == wanted.root,
        Err(_) => false,
    };
    is_right && is_same(&left.data_store, &left.hash_store, wanted)
}

// The volume that is built over these stores.
pub fn built(
    alloc: Global,
    data_store: MemStore,
    hash_store: MemStore,
    params: &BuildParameters,
) -> Result<BuiltVolume, Fail> {
    let mut data_store = data_store;
    let mut hash_store = hash_store;
    let root = build(alloc, &mut data_store, &mut hash_store, params)?;
    Ok(BuiltVolume {
        data_store,
        hash_store,
        root,
    })
}

pub fn is_refused(reply: &Reply) -> bool {
    matches!(reply, Reply::Refused(_))
}
