//! A commit of an editor through a journal, of which a notice is told before the devices change.
ghost use Rattle.std.specs.Prelude.{◌≡◌, ◌≢◌, ◌⊎◌, ◌<◌, true, Err, IfErr, IfOk, OnOk};
ghost use Rattle.std.specs.List.{concat};
ghost use Rattle.verity_disks.specs.Disks.{LeavesOnly};
ghost use Rattle.verity_journal.specs.Journal.{pair_of, recovered_pair};
ghost use Rattle.verity_edit.specs.Editing.{Commits, Stays};
ghost use Rattle.verity_trusted.specs.Line.{CommitsUnder, editing_of};
ghost use Rattle.verity_commit.specs.Committing.{Holds, IsOneOf};
ghost use Rattle.verity_commit.specs.Noting.{ExplainsNoted, ExplainsNotedEdit, IsBefore, IsTold};

use crate::notice::{NotedFault, Notice};
use std::alloc::Global;
use verity_disks::{DiskFault, Disks};
use verity_edit::{Committed, Editor};
use verity_journal::Keeper;
use verity_stage::{StagedStore, commit_staged};
use verity_trusted::LineEditor;

/// Commits as `commit_editor` does, and tells a notice of the commit once the editor has made it, before the first change of the devices.
///
/// Where the notice doesn't let it go on, the devices are as they were, and the editor is of no more use: its staged stores are ahead of
/// them. All else is as `commit_editor` says.
pub fn commit_editor_noted<K: Disks, D: StagedStore<Global>, H: StagedStore<Global>, N: Notice>(
    alloc: Global,
    keeper: &mut Keeper<K>,
    names: &[u8],
    editor: &mut Editor<D, H>,
    notice: &mut N,
) -> Result<Committed, NotedFault<N::Fault, DiskFault>>
    ensures done { IfOk result (λ committed. Commits D.BlockStore H.BlockStore editor.old editor.new committed) }
    ensures refused { IfErr result (ExplainsNoted D.BlockStore H.BlockStore editor.old editor.new) }
    ensures noted { IsTold N.Notice notice.old notice.new editor.new.volume result }
    ensures made { OnOk result (Holds D.BlockStore H.BlockStore editor.old.data_store editor.old.hash_store (K.seen keeper.old.disks)
        → pair_of (K.seen keeper.new.disks) ≡ (concat (D.content editor.new.data_store), concat (H.content editor.new.hash_store))) }
    ensures any_moment { Holds D.BlockStore H.BlockStore editor.old.data_store editor.old.hash_store (K.seen keeper.old.disks)
        → keeper.old.is_settled ≡ true → IsBefore result ⊎ LeavesOnly K.moment K.left_since keeper.old.disks keeper.new.disks
        (IsOneOf names.now (pair_of (K.seen keeper.old.disks))
        (concat (D.content editor.new.data_store), concat (H.content editor.new.hash_store))) }
    ensures settled { OnOk result (keeper.new.is_settled ≡ true) }
    ensures failed { result ≡ Err (NotedFault.Devices DiskFault.Device) → keeper.old.is_settled ≡ true
        → K.faults keeper.old.disks < K.faults keeper.new.disks }
    ensures memory { result ≡ Err (NotedFault.Devices DiskFault.NoMemory) → K.seen keeper.new.disks ≡ K.seen keeper.old.disks }
    ensures own { Holds D.BlockStore H.BlockStore editor.old.data_store editor.old.hash_store (K.seen keeper.old.disks)
        → result ≢ Err (NotedFault.Devices DiskFault.Foreign) }
    ensures untouched { IsBefore result → keeper.new ≡ keeper.old }
    ensures stays { Stays D.BlockStore H.BlockStore editor.old editor.new }
{
    let committed = match editor.commit() {
        Ok(committed) => committed,
        Err(fault) => return Err(NotedFault::Edit(fault)),
    };
    if let Err(fault) = notice.note(editor.superblock(), &committed) {
        return Err(NotedFault::Notice(fault));
    }
    match commit_staged(
        alloc,
        keeper,
        names,
        editor.data_store(),
        editor.hash_store(),
    ) {
        Ok(()) => Ok(committed),
        Err(fault) => Err(NotedFault::Devices(fault)),
    }
}

/// Commits as `commit_line_editor` does, and tells a notice of the commit, as `commit_editor_noted` says. The editor comes back.
pub fn commit_line_editor_noted<
    K: Disks,
    D: StagedStore<Global>,
    H: StagedStore<Global>,
    N: Notice,
>(
    alloc: Global,
    keeper: &mut Keeper<K>,
    names: &[u8],
    editor: LineEditor<D, H>,
    notice: &mut N,
) -> (
    LineEditor<D, H>,
    Result<Committed, NotedFault<N::Fault, DiskFault>>,
)
    ensures done { IfOk result.1 (λ committed. CommitsUnder D.BlockStore H.BlockStore editor result.0 committed) }
    ensures refused { IfErr result.1 (ExplainsNotedEdit D.BlockStore H.BlockStore editor result.0) }
    ensures noted { IsTold N.Notice notice.old notice.new result.0.volume result.1 }
    ensures made { OnOk result.1 (Holds D.BlockStore H.BlockStore editor.data_store editor.hash_store (K.seen keeper.old.disks)
        → pair_of (K.seen keeper.new.disks) ≡ (concat (D.content result.0.data_store), concat (H.content result.0.hash_store))) }
    ensures any_moment { Holds D.BlockStore H.BlockStore editor.data_store editor.hash_store (K.seen keeper.old.disks)
        → keeper.old.is_settled ≡ true → IsBefore result.1 ⊎ LeavesOnly K.moment K.left_since keeper.old.disks keeper.new.disks
        (IsOneOf names.now (pair_of (K.seen keeper.old.disks))
        (concat (D.content result.0.data_store), concat (H.content result.0.hash_store))) }
    ensures settled { OnOk result.1 (keeper.new.is_settled ≡ true) }
    ensures failed { result.1 ≡ Err (NotedFault.Devices DiskFault.Device) → keeper.old.is_settled ≡ true
        → K.faults keeper.old.disks < K.faults keeper.new.disks }
    ensures memory { result.1 ≡ Err (NotedFault.Devices DiskFault.NoMemory) → K.seen keeper.new.disks ≡ K.seen keeper.old.disks }
    ensures own { Holds D.BlockStore H.BlockStore editor.data_store editor.hash_store (K.seen keeper.old.disks)
        → result.1 ≢ Err (NotedFault.Devices DiskFault.Foreign) }
    ensures untouched { IsBefore result.1 → keeper.new ≡ keeper.old }
    ensures stays { Stays D.BlockStore H.BlockStore (editing_of editor) (editing_of result.0) }
{
    let (editor, committed) = editor.commit();
    let committed = match committed {
        Ok(committed) => committed,
        Err(fault) => return (editor, Err(NotedFault::Edit(fault))),
    };
    if let Err(fault) = notice.note(editor.superblock(), &committed) {
        return (editor, Err(NotedFault::Notice(fault)));
    }
    match commit_staged(
        alloc,
        keeper,
        names,
        editor.data_store(),
        editor.hash_store(),
    ) {
        Ok(()) => (editor, Ok(committed)),
        Err(fault) => (editor, Err(NotedFault::Devices(fault))),
    }
}
