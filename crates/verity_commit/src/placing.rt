//! A commit of an editor in place: over files that have no journal.
ghost use Rattle.std.specs.Prelude.{◌≡◌, true, IfErr, IfOk, OnOk, Some, option_map};
ghost use Rattle.std.specs.List.{concat};
ghost use Rattle.verity_store.specs.RawFile.{HasLength};
ghost use Rattle.verity_journal.specs.Plan.{IsSide, changed, made};
ghost use Rattle.verity_stage.specs.Stage.{bytes_below};
ghost use Rattle.verity_edit.specs.Editing.{Commits, Stays};
ghost use Rattle.verity_trusted.specs.Line.{CommitsUnder, editing_of};
ghost use Rattle.verity_commit.specs.Noting.{ExplainsNoted, ExplainsNotedEdit, IsBefore, IsTold};

use crate::notice::{NotedFault, Notice};
use std::alloc::Global;
use std::io;
use thiserror::Error;
use verity_edit::{Committed, Editor};
use verity_journal::Side;
use verity_stage::StagedStore;
use verity_store::{RawFile, Which};
use verity_trusted::LineEditor;

/// Why files weren't changed in place.
#[derive(Clone, Copy, Debug, PartialEq, Eq, Error, Drop)]
pub enum PlaceFault {
    /// The file in which this store lies refused a call.
    #[error("the file of the {0} store refused a call")]
    File(Which),
    /// There is too little memory, and nothing was changed.
    #[error("there is too little memory")]
    NoMemory,
}

/// Commits the pending edits of an editor over two staged stores, tells a notice of the commit, and makes the changes in the two files in
/// which the stores below lie, DATA's first. A crash while the files change leaves them in part.
///
/// An editor's fault leaves the files as they were, as where the notice doesn't let the commit go on, or memory is refused; after the
/// latter two the editor is of no more use, as after a fault of a file. It writes each changed block once, syncs both files, and takes
/// memory for the changed blocks twice.
pub fn commit_editor_in_place<
    F: RawFile,
    D: StagedStore<Global>,
    H: StagedStore<Global>,
    N: Notice,
>(
    data_file: &mut F,
    hash_file: &mut F,
    editor: &mut Editor<D, H>,
    notice: &mut N,
) -> Result<Committed, NotedFault<N::Fault, PlaceFault>>
    ensures done { IfOk result (λ committed. Commits D.BlockStore H.BlockStore editor.old editor.new committed) }
    ensures refused { IfErr result (ExplainsNoted D.BlockStore H.BlockStore editor.old editor.new) }
    ensures noted { IsTold N.Notice notice.old notice.new editor.new.volume result }
    ensures data_made { OnOk result (F.bytes data_file.old ≡ Some (bytes_below (D.fixed editor.old.data_store))
        → F.bytes data_file.new ≡ Some (concat (D.content editor.new.data_store))) }
    ensures hash_made { OnOk result (F.bytes hash_file.old ≡ Some (bytes_below (H.fixed editor.old.hash_store))
        → F.bytes hash_file.new ≡ Some (concat (H.content editor.new.hash_store))) }
    ensures data_synced { OnOk result (F.synced data_file.new ≡ true) }
    ensures hash_synced { OnOk result (F.synced hash_file.new ≡ true) }
    ensures untouched_data { IsBefore result → data_file.new ≡ data_file.old }
    ensures untouched_hash { IsBefore result → hash_file.new ≡ hash_file.old }
    ensures stays { Stays D.BlockStore H.BlockStore editor.old editor.new }
{
    let committed = match editor.commit() {
        Ok(committed) => committed,
        Err(fault) => return Err(NotedFault::Edit(fault)),
    };
    if let Err(fault) = notice.note(editor.superblock(), &committed) {
        return Err(NotedFault::Notice(fault));
    }
    match place_both(
        editor.data_store(),
        editor.hash_store(),
        data_file,
        hash_file,
    ) {
        Ok(()) => Ok(committed),
        Err(fault) => Err(NotedFault::Devices(fault)),
    }
}

/// Commits the pending edits of an editor under a table line in place, as `commit_editor_in_place` says. The editor comes back.
pub fn commit_line_editor_in_place<
    F: RawFile,
    D: StagedStore<Global>,
    H: StagedStore<Global>,
    N: Notice,
>(
    data_file: &mut F,
    hash_file: &mut F,
    editor: LineEditor<D, H>,
    notice: &mut N,
) -> (
    LineEditor<D, H>,
    Result<Committed, NotedFault<N::Fault, PlaceFault>>,
)
    ensures done { IfOk result.1 (λ committed. CommitsUnder D.BlockStore H.BlockStore editor result.0 committed) }
    ensures refused { IfErr result.1 (ExplainsNotedEdit D.BlockStore H.BlockStore editor result.0) }
    ensures noted { IsTold N.Notice notice.old notice.new result.0.volume result.1 }
    ensures data_made { OnOk result.1 (F.bytes data_file.old ≡ Some (bytes_below (D.fixed editor.data_store))
        → F.bytes data_file.new ≡ Some (concat (D.content result.0.data_store))) }
    ensures hash_made { OnOk result.1 (F.bytes hash_file.old ≡ Some (bytes_below (H.fixed editor.hash_store))
        → F.bytes hash_file.new ≡ Some (concat (H.content result.0.hash_store))) }
    ensures data_synced { OnOk result.1 (F.synced data_file.new ≡ true) }
    ensures hash_synced { OnOk result.1 (F.synced hash_file.new ≡ true) }
    ensures untouched_data { IsBefore result.1 → data_file.new ≡ data_file.old }
    ensures untouched_hash { IsBefore result.1 → hash_file.new ≡ hash_file.old }
    ensures stays { Stays D.BlockStore H.BlockStore (editing_of editor) (editing_of result.0) }
{
    let (editor, committed) = editor.commit();
    let committed = match committed {
        Ok(committed) => committed,
        Err(fault) => return (editor, Err(NotedFault::Edit(fault))),
    };
    if let Err(fault) = notice.note(editor.superblock(), &committed) {
        return (editor, Err(NotedFault::Notice(fault)));
    }
    match place_both(
        editor.data_store(),
        editor.hash_store(),
        data_file,
        hash_file,
    ) {
        Ok(()) => (editor, Ok(committed)),
        Err(fault) => (editor, Err(NotedFault::Devices(fault))),
    }
}

/// Makes of two files what is staged over the stores that lie in them.
fn place_both<F: RawFile, D: StagedStore<Global>, H: StagedStore<Global>>(
    on_data: &D,
    on_hash: &H,
    data_file: &mut F,
    hash_file: &mut F,
) -> Result<(), PlaceFault>
    ensures data_made { OnOk result (F.bytes data_file.old ≡ Some (bytes_below (D.fixed on_data.now))
        → F.bytes data_file.new ≡ Some (concat (D.content on_data.now))) }
    ensures hash_made { OnOk result (F.bytes hash_file.old ≡ Some (bytes_below (H.fixed on_hash.now))
        → F.bytes hash_file.new ≡ Some (concat (H.content on_hash.now))) }
    ensures data_synced { OnOk result (F.synced data_file.new ≡ true) }
    ensures hash_synced { OnOk result (F.synced hash_file.new ≡ true) }
{
    on_data.facts();
    on_hash.facts();
    let (Ok(data_side), Ok(hash_side)) = (on_data.side(), on_hash.side()) else {
        return Err(PlaceFault::NoMemory);
    };
    if place(data_file, &data_side).is_err() {
        return Err(PlaceFault::File(Which::Data));
    }
    if place(hash_file, &hash_side).is_err() {
        return Err(PlaceFault::File(Which::Hash));
    }
    Ok(())
}

/// Makes what a side makes of a file, and asks for that to be kept: two changes of length, a write for each change, one sync.
fn place<F: RawFile>(file: &mut F, side: &Side) -> io::Result<()>
    requires { IsSide side.now }
    ensures made { OnOk result (F.bytes file.new ≡ option_map (made side.now) (F.bytes file.old)) }
    ensures synced { OnOk result (F.synced file.new ≡ true) }
{
    let keep = side.keep();
    let len = side.len();
    file.set_byte_len(keep)?;
    file.set_byte_len(len)?;
    write_changes(file, side)?;
    file.sync()
}

/// Makes the changes of a side.
fn write_changes<F: RawFile>(file: &mut F, side: &Side) -> io::Result<()>
    requires side { IsSide side.now }
    requires len { HasLength (F.bytes file.old) side.now.len }
    ensures { OnOk result (F.bytes file.new ≡ option_map (changed side.now.changes) (F.bytes file.old)) }
{
    let changes = side.changes();
    for change in changes {
        file.write_all_at(change.at(), change.bytes())?;
    }
    Ok(())
}
