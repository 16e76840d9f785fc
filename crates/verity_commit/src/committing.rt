//! A commit of an editor through a journal.
ghost use Rattle.std.specs.Prelude.{◌≡◌, ◌≢◌, ◌⊎◌, ◌<◌, true, Err, IfErr, IfOk, OnOk};
ghost use Rattle.std.specs.List.{concat};
ghost use Rattle.verity_disks.specs.Disks.{LeavesOnly};
ghost use Rattle.verity_journal.specs.Journal.{pair_of, recovered_pair};
ghost use Rattle.verity_edit.specs.Editing.{Commits, Stays};
ghost use Rattle.verity_trusted.specs.Line.{CommitsUnder, editing_of};
ghost use Rattle.verity_commit.specs.Committing.{IsEdit, ExplainsCommit, ExplainsEdit, Holds, IsOneOf};

use crate::CommitFault;
use std::alloc::Allocator;
use verity_disks::{DiskFault, Disks};
use verity_edit::{Committed, Editor};
use verity_journal::Keeper;
use verity_stage::{StagedStore, commit_staged};
use verity_trusted::LineEditor;

/// Commits the pending edits of an editor over two staged stores, and brings them through the journal to the devices, which hold
/// the stores below. The journal has these names of them.
///
/// An editor's fault leaves the devices as they were. Device comes where one failed, or where they weren't settled before; NoMemory
/// leaves what is read of them; Foreign never comes over devices that hold the stores below. After a fault of the devices a start comes
/// next, and the editor is of no more use. It writes each changed block twice, syncs five times, and takes memory for the changed
/// blocks three times.
pub fn commit_editor<K: Disks, D: StagedStore<A>, H: StagedStore<A>, A: Allocator + Copy>(
    alloc: A,
    keeper: &mut Keeper<K>,
    names: &[u8],
    editor: &mut Editor<D, H, A>,
) -> Result<Committed, CommitFault>
    ensures done { IfOk result (λ committed. Commits D.BlockStore H.BlockStore editor.old editor.new committed) }
    ensures refused { IfErr result (ExplainsCommit D.BlockStore H.BlockStore editor.old editor.new) }
    ensures made { OnOk result (Holds D.BlockStore H.BlockStore editor.old.data_store editor.old.hash_store (K.seen keeper.old.disks)
        → pair_of (K.seen keeper.new.disks) ≡ (concat (D.content editor.new.data_store), concat (H.content editor.new.hash_store))) }
    ensures any_moment { Holds D.BlockStore H.BlockStore editor.old.data_store editor.old.hash_store (K.seen keeper.old.disks)
        → keeper.old.is_settled ≡ true → IsEdit result ⊎ LeavesOnly K.moment K.left_since keeper.old.disks keeper.new.disks
        (IsOneOf names.now (pair_of (K.seen keeper.old.disks))
        (concat (D.content editor.new.data_store), concat (H.content editor.new.hash_store))) }
    ensures settled { OnOk result (keeper.new.is_settled ≡ true) }
    ensures failed { result ≡ Err (CommitFault.Disks DiskFault.Device) → keeper.old.is_settled ≡ true
        → K.faults keeper.old.disks < K.faults keeper.new.disks }
    ensures memory { result ≡ Err (CommitFault.Disks DiskFault.NoMemory) → K.seen keeper.new.disks ≡ K.seen keeper.old.disks }
    ensures own { Holds D.BlockStore H.BlockStore editor.old.data_store editor.old.hash_store (K.seen keeper.old.disks)
        → result ≢ Err (CommitFault.Disks DiskFault.Foreign) }
    ensures untouched { IsEdit result → keeper.new ≡ keeper.old }
    ensures stays { Stays D.BlockStore H.BlockStore editor.old editor.new }
{
    let committed = match editor.commit() {
        Ok(committed) => committed,
        Err(fault) => return Err(CommitFault::Edit(fault)),
    };
    match commit_staged(
        alloc,
        keeper,
        names,
        editor.data_store(),
        editor.hash_store(),
    ) {
        Ok(()) => Ok(committed),
        Err(fault) => Err(CommitFault::Disks(fault)),
    }
}

/// Commits the pending edits of an editor under a table line over two staged stores, and brings them through the journal to the
/// devices, which hold the stores below. The journal has these names of them. The editor comes back.
///
/// An editor's fault, E14 among them, leaves the devices as they were. After a fault of the devices, which come as `commit_editor` says,
/// a start comes next, and the editor is of no more use. What it writes, syncs and takes is as `commit_editor` says.
pub fn commit_line_editor<
    K: Disks,
    D: StagedStore<A>,
    H: StagedStore<A>,
    A: Allocator + Copy + Drop,
>(
    alloc: A,
    keeper: &mut Keeper<K>,
    names: &[u8],
    editor: LineEditor<D, H, A>,
) -> (LineEditor<D, H, A>, Result<Committed, CommitFault>)
    ensures done { IfOk result.1 (λ committed. CommitsUnder D.BlockStore H.BlockStore editor result.0 committed) }
    ensures refused { IfErr result.1 (ExplainsEdit D.BlockStore H.BlockStore editor result.0) }
    ensures made { OnOk result.1 (Holds D.BlockStore H.BlockStore editor.data_store editor.hash_store (K.seen keeper.old.disks)
        → pair_of (K.seen keeper.new.disks) ≡ (concat (D.content result.0.data_store), concat (H.content result.0.hash_store))) }
    ensures any_moment { Holds D.BlockStore H.BlockStore editor.data_store editor.hash_store (K.seen keeper.old.disks)
        → keeper.old.is_settled ≡ true → IsEdit result.1 ⊎ LeavesOnly K.moment K.left_since keeper.old.disks keeper.new.disks
        (IsOneOf names.now (pair_of (K.seen keeper.old.disks))
        (concat (D.content result.0.data_store), concat (H.content result.0.hash_store))) }
    ensures settled { OnOk result.1 (keeper.new.is_settled ≡ true) }
    ensures failed { result.1 ≡ Err (CommitFault.Disks DiskFault.Device) → keeper.old.is_settled ≡ true
        → K.faults keeper.old.disks < K.faults keeper.new.disks }
    ensures memory { result.1 ≡ Err (CommitFault.Disks DiskFault.NoMemory) → K.seen keeper.new.disks ≡ K.seen keeper.old.disks }
    ensures own { Holds D.BlockStore H.BlockStore editor.data_store editor.hash_store (K.seen keeper.old.disks)
        → result.1 ≢ Err (CommitFault.Disks DiskFault.Foreign) }
    ensures untouched { IsEdit result.1 → keeper.new ≡ keeper.old }
    ensures stays { Stays D.BlockStore H.BlockStore (editing_of editor) (editing_of result.0) }
{
    let (editor, committed) = editor.commit();
    let committed = match committed {
        Ok(committed) => committed,
        Err(fault) => return (editor, Err(CommitFault::Edit(fault))),
    };
    match commit_staged(
        alloc,
        keeper,
        names,
        editor.data_store(),
        editor.hash_store(),
    ) {
        Ok(()) => (editor, Ok(committed)),
        Err(fault) => (editor, Err(CommitFault::Disks(fault))),
    }
}
