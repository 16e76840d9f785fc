//! The editors whose commits go through a journal: over stores whose changes are kept beside a volume's files until then.
ghost use Rattle.std.specs.Prelude.{◌≡◌, ◌*◌, ◌/◌, min, Bool, false, true, length, IfOk, IfErr, OnErr, OnOk};
ghost use Rattle.verity_profile.specs.Profile.{IsBlockSize};
ghost use Rattle.os_host.specs.Lengths.{IsRagged};
ghost use Rattle.verity_commit.specs.Noting.{IsBefore, IsTold};
ghost use Rattle.cli_volume.specs.Refusals.{IsOfStore, IsOfStores};

use crate::edits::Edits;
use cli_faults::Fault;
use os_host::{Opened, Paths, VolumeStore, store_of_most};
use os_journal::FileKeeper;
use os_progress::{Meter, Watched};
use std::alloc::Global;
use verity_commit::{
    CommitFault, NotedFault, Notice, PlaceFault, commit_editor, commit_editor_in_place,
    commit_editor_noted, commit_line_editor, commit_line_editor_in_place, commit_line_editor_noted,
};
use verity_disks::DiskFault;
use verity_edit::{Committed, EditFault, Editor};
use verity_stage::{Staged, StagedStore};
use verity_store::{BlockStore, RawFile, StoreFault, Which};
use verity_trusted::LineEditor;

/// A store over one of a volume's files.
pub trait OverFile: BlockStore + Drop {
    /// A store over a file as it stands, of whose bytes nothing is known, or over the first blocks of a device, at most so many.
    /// S1 only where the system refused a call, S2 where the file is no whole number of blocks, S4 for all but the block sizes of the
    /// profile.
    fn over_file<P: Paths>(
        rt: &P,
        opened: Opened,
        size: usize,
        blocks: u64,
    ) -> Result<Self, StoreFault>
        ensures unknown { IfOk result (λ s. Self.tells s ≡ false) }
        ensures ragged { IfErr result (λ fault. fault ≡ StoreFault.Ragged → IsRagged P.Paths rt.now opened.identity opened.file
            (min blocks (opened.len / size) * size) size) }
        ensures wrong_size { IfErr result (λ fault. fault ≡ StoreFault.BlockSize → ¬ IsBlockSize size) }
        ensures system { IfErr result (λ fault. fault ≡ StoreFault.Device → P.refuses rt.now ≡ true) };
}

impl OverFile for VolumeStore {
    fn over_file<P: Paths>(
        rt: &P,
        opened: Opened,
        size: usize,
        blocks: u64,
    ) -> Result<VolumeStore, StoreFault> {
        store_of_most(rt, opened, size, blocks)
    }
}

/// Nobody watches it any more.
impl<'a, M: Meter> OverFile for Watched<VolumeStore, Option<&'a M>> {
    fn over_file<P: Paths>(
        rt: &P,
        opened: Opened,
        size: usize,
        blocks: u64,
    ) -> Result<Watched<VolumeStore, Option<&'a M>>, StoreFault> {
        let store = store_of_most(rt, opened, size, blocks)?;
        Ok(Watched::new(store, None))
    }
}

/// A staged store over one of a volume's files.
pub trait StagedFile: StagedStore<Global> + Drop {
    /// A store with nothing staged over a file that holds by now what this store does. E6 of this store where it hasn't its length, or
    /// for want of memory; S1 only where the system refused a call.
    fn restaged<P: Paths>(
        &self,
        rt: &P,
        alloc: Global,
        opened: Opened,
        which: Which,
    ) -> Result<Self, Fault>
        ensures size { IfOk result (λ s. Self.size s ≡ Self.size self.now) }
        ensures len { IfOk result (λ s. length (Self.content s) ≡ length (Self.content self.now)) }
        ensures unknown { IfOk result (λ s. Self.tells s ≡ false) }
        ensures starved { IfOk result (λ s. Self.starved s ≡ false) }
        ensures refused { IfErr result (IsOfStore (P.refuses rt.now ≡ true) which) };
}

impl<S: OverFile> StagedFile for Staged<S> {
    fn restaged<P: Paths>(
        &self,
        rt: &P,
        alloc: Global,
        opened: Opened,
        which: Which,
    ) -> Result<Staged<S>, Fault> {
        let size = self.block_size();
        let blocks = self.len();
        let store = S::over_file(rt, opened, size, blocks)?;
        match Staged::new(alloc, store) {
            Ok(staged) if staged.len() == blocks && staged.block_size() == size => Ok(staged),
            _ => Err(Fault::Edit(EditFault::Store(which))),
        }
    }
}

/// An editor over two staged stores.
pub trait StagedEdits: Edits {
    /// Whether memory for what is staged was refused.
    ghost starved: { Self → Bool };

    /// The same editor over two other stores.
    ghost restaged: { Self → Self → Type 0 };

    /// Goes on over files that hold by now what its stores do, with nothing staged. E6 where one hasn't its store's length; S1 only
    /// where the system refused a call.
    fn restage<P: Paths>(
        &mut self,
        rt: &P,
        alloc: Global,
        data: Opened,
        hash: Opened,
    ) -> Result<(), Fault>
        ensures same { OnOk result (restaged self.old self.new) }
        ensures unchanged { OnErr result (self.new ≡ self.old) }
        ensures fresh { OnOk result (starved self.new ≡ false) }
        ensures refused { IfErr result (IsOfStores (P.refuses rt.now ≡ true)) };

    /// Commits, and brings what is staged through a journal, which has these names of the volume, to the files. The editor comes back.
    fn commit_through(
        self,
        alloc: Global,
        keeper: &mut FileKeeper,
        names: &[u8],
    ) -> (Self, Result<Committed, CommitFault>)
        ensures { IfOk result.1 (Self.commits self result.0) };

    /// The same, where a notice is told of the commit before the first change of the files.
    fn commit_noted<N: Notice>(
        self,
        alloc: Global,
        keeper: &mut FileKeeper,
        names: &[u8],
        notice: &mut N,
    ) -> (Self, Result<Committed, NotedFault<N::Fault, DiskFault>>)
        ensures done { IfOk result.1 (Self.commits self result.0) }
        ensures noted { IsTold N.Notice notice.old notice.new (Self.volume result.0) result.1 }
        ensures untouched { IsBefore result.1 → keeper.new ≡ keeper.old };

    /// The same, where what is staged is written in place to two files that have no journal.
    fn commit_in_place<F: RawFile, N: Notice>(
        self,
        data_file: &mut F,
        hash_file: &mut F,
        notice: &mut N,
    ) -> (Self, Result<Committed, NotedFault<N::Fault, PlaceFault>>)
        ensures done { IfOk result.1 (Self.commits self result.0) }
        ensures noted { IsTold N.Notice notice.old notice.new (Self.volume result.0) result.1 }
        ensures untouched_data { IsBefore result.1 → data_file.new ≡ data_file.old }
        ensures untouched_hash { IsBefore result.1 → hash_file.new ≡ hash_file.old };

    /// Whether a commit failed since memory for what is staged was refused.
    fn is_starved(&self) -> bool
        ensures { result ≡ starved self.now };
}

impl<D: StagedFile, H: StagedFile> StagedEdits for Editor<D, H> {
    ghost use Rattle.std.specs.Prelude.{◌≡◌, ◌||◌};

    ghost starved = { λ e. D.starved e.data_store || H.starved e.hash_store };

    ghost restaged = { λ old new. new ≡ record old { data_store = new.data_store; hash_store = new.hash_store } };

    fn restage<P: Paths>(
        &mut self,
        rt: &P,
        alloc: Global,
        data: Opened,
        hash: Opened,
    ) -> Result<(), Fault> {
        let (old_data, old_hash) = stores_of(self);
        let data = old_data.restaged(rt, alloc, data, Which::Data)?;
        let hash = old_hash.restaged(rt, alloc, hash, Which::Hash)?;
        let _old = self.change_stores(data, hash);
        Ok(())
    }

    fn commit_through(
        self,
        alloc: Global,
        keeper: &mut FileKeeper,
        names: &[u8],
    ) -> (Self, Result<Committed, CommitFault>) {
        let mut editor = self;
        let done = commit_editor(alloc, keeper, names, &mut editor);
        (editor, done)
    }

    fn commit_noted<N: Notice>(
        self,
        alloc: Global,
        keeper: &mut FileKeeper,
        names: &[u8],
        notice: &mut N,
    ) -> (Self, Result<Committed, NotedFault<N::Fault, DiskFault>>) {
        let mut editor = self;
        let done = commit_editor_noted(alloc, keeper, names, &mut editor, notice);
        (editor, done)
    }

    fn commit_in_place<F: RawFile, N: Notice>(
        self,
        data_file: &mut F,
        hash_file: &mut F,
        notice: &mut N,
    ) -> (Self, Result<Committed, NotedFault<N::Fault, PlaceFault>>) {
        let mut editor = self;
        let done = commit_editor_in_place(data_file, hash_file, &mut editor, notice);
        (editor, done)
    }

    fn is_starved(&self) -> bool {
        let (data_store, hash_store) = stores_of(self);
        data_store.is_starved() || hash_store.is_starved()
    }
}

impl<D: StagedFile, H: StagedFile> StagedEdits for LineEditor<D, H> {
    ghost use Rattle.std.specs.Prelude.{◌≡◌, ◌||◌};

    ghost starved = { λ e. D.starved e.data_store || H.starved e.hash_store };

    ghost restaged = { λ old new. new ≡ record old { data_store = new.data_store; hash_store = new.hash_store } };

    fn restage<P: Paths>(
        &mut self,
        rt: &P,
        alloc: Global,
        data: Opened,
        hash: Opened,
    ) -> Result<(), Fault> {
        let (old_data, old_hash) = stores_under(self);
        let data = old_data.restaged(rt, alloc, data, Which::Data)?;
        let hash = old_hash.restaged(rt, alloc, hash, Which::Hash)?;
        let _old = self.change_stores(data, hash);
        Ok(())
    }

    fn commit_through(
        self,
        alloc: Global,
        keeper: &mut FileKeeper,
        names: &[u8],
    ) -> (Self, Result<Committed, CommitFault>) {
        commit_line_editor(alloc, keeper, names, self)
    }

    fn commit_noted<N: Notice>(
        self,
        alloc: Global,
        keeper: &mut FileKeeper,
        names: &[u8],
        notice: &mut N,
    ) -> (Self, Result<Committed, NotedFault<N::Fault, DiskFault>>) {
        commit_line_editor_noted(alloc, keeper, names, self, notice)
    }

    fn commit_in_place<F: RawFile, N: Notice>(
        self,
        data_file: &mut F,
        hash_file: &mut F,
        notice: &mut N,
    ) -> (Self, Result<Committed, NotedFault<N::Fault, PlaceFault>>) {
        commit_line_editor_in_place(data_file, hash_file, self, notice)
    }

    fn is_starved(&self) -> bool {
        let (data_store, hash_store) = stores_under(self);
        data_store.is_starved() || hash_store.is_starved()
    }
}

/// Both stores of an editor.
fn stores_of<D: BlockStore, H: BlockStore>(editor: &Editor<D, H>) -> (&D, &H)
    ensures data_store { result.0.now ≡ editor.now.data_store }
    ensures hash_store { result.1.now ≡ editor.now.hash_store }
{
    (editor.data_store(), editor.hash_store())
}

/// Both stores of an editor under a table line.
fn stores_under<D: BlockStore, H: BlockStore>(editor: &LineEditor<D, H>) -> (&D, &H)
    ensures data_store { result.0.now ≡ editor.now.data_store }
    ensures hash_store { result.1.now ≡ editor.now.hash_store }
{
    (editor.data_store(), editor.hash_store())
}
