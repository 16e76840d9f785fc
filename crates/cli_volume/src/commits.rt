//! How the commits of an editor reach a volume's files.
ghost use Rattle.std.specs.Prelude.{◌≡◌, ◌⊎◌, ℕ, Bool, List, IfOk, IfErr, false, true};
ghost use Rattle.cli_faults.specs.Errors.{IsOfSystem};
ghost use Rattle.verity_superblock.specs.Superblock.{Volume};
ghost use Rattle.cli_volume.specs.Noting.{HasKeeper, IsNoted, WasNoted};

use crate::edits::Edits;
use crate::staging::StagedEdits;
use cli_faults::Fault;
use os_host::{Host, Opened, Paths};
use os_journal::{FileKeeper, fault_of_disks, make_journal, names_of_volume};
use verity_commit::{CommitFault, NotedFault, Notice};
use verity_edit::{Committed, EditFault};
use verity_store::StoreFault;

/// How the commits of an editor of the type `V` reach a volume's files.
pub trait Commits<V: Edits> {
    /// Whether no commit is made any more, though the editor isn't broken.
    ghost stopped: { Self → Bool };

    /// An editor and what stands for it in a commit.
    ghost stands_for: { V → V → Type 0 };

    /// The system refused a call.
    ghost refuses: { Self → Bool };

    /// A call on what a commit keeps beside the files failed.
    ghost fails: { Self → Type 0 };

    /// Where a table line is kept in a file: it is that of this volume, with this root hash, and nothing else is there.
    ghost holds: { Self → Volume → List ℕ → Type 0 };

    /// What is kept beside the files went from the one to the other by commits alone.
    ghost keeps: { Self → Self → Type 0 };

    /// Any change of the volume's devices came after what is kept beside them was made ready for it.
    ghost begins: { Self → Self → Type 0 };

    /// Commits, and brings what was committed to the files. The editor comes back. S1 only where the system refused a call, or what is kept
    /// beside the files failed.
    fn commit(&mut self, editor: V) -> (V, Result<Committed, Fault>)
        ensures done { IfOk result.1 (λ committed. (begun : V) × stands_for editor begun × V.commits begun result.0 committed) }
        ensures system { IfErr result.1 (λ fault. fault ≡ Fault.Store StoreFault.Device → (refuses self.old ≡ true) ⊎ fails self.old) }
        ensures held { IfOk result.1 (λ committed. holds self.new (V.volume result.0) committed.root) }
        ensures kept { keeps self.old self.new }
        ensures first { begins self.old self.new };

    /// Whether no commit is made any more, though the editor isn't broken.
    fn is_broken(&self) -> bool
        ensures { result ≡ stopped self.now };

    /// No commit leaves it as it is.
    ghost keeps_itself: { (c : Self) → keeps c c };

    /// Commits, and then others.
    ghost keeps_on: { (a b c : Self) → keeps a b → keeps b c → keeps a c };
}

/// The stores are the files: what was committed is there.
#[derive(Drop)]
pub struct Direct;

impl<V: Edits> Commits<V> for Direct {
    ghost use Rattle.std.specs.Prelude.{◌≡◌, false, ⊤};

    ghost stopped = { λ _. false };

    ghost stands_for = { λ editor begun. begun ≡ editor };

    ghost refuses = { λ _. false };

    ghost fails = { λ _. ⊥ };

    ghost holds = { λ _ _ _. ⊤ };

    ghost keeps = { λ _ _. ⊤ };

    ghost begins = { λ _ _. ⊤ };

    ghost keeps_itself = { λ _. tt };

    ghost keeps_on = { λ _ _ _ _ _. tt };

    fn commit(&mut self, editor: V) -> (V, Result<Committed, Fault>) {
        match editor.commit() {
            (editor, Ok(committed)) => (editor, Ok(committed)),
            (editor, Err(fault)) => (editor, Err(Fault::Edit(fault))),
        }
    }

    fn is_broken(&self) -> bool {
        false
    }
}

/// The stores are staged over the files: what was committed goes through a journal.
#[derive(Drop)]
pub struct Journalled<'a, P> {
    rt: &'a P,
    path: &'a str,
    names: &'a str,
    offset: u64,
    data: Opened,
    hash: Opened,
    keeper: Option<FileKeeper>,
    is_staged: bool,
    is_broken: bool,
}

impl<'a, P: Paths + AllocGlobal> Journalled<'a, P> {
    /// Over these files, and a journal at this path, which has these names of them beside the volume's UUID and the offset of its
    /// superblock: where it was there, with what was found.
    pub fn new(
        rt: &'a P,
        path: &'a str,
        names: &'a str,
        data: Opened,
        hash: Opened,
        keeper: Option<FileKeeper>,
    ) -> Journalled<'a, P>
        ensures data_device { result.«data» ≡ «data» }
        ensures hash_device { result.hash ≡ hash }
        ensures names { result.names ≡ names.entry }
        ensures path { result.path ≡ path.entry }
        ensures keeper { result.keeper ≡ keeper }
        ensures rt { result.rt.now ≡ rt.now }
        ensures staged { result.is_staged ≡ false }
        ensures stopped { result.is_broken ≡ false }
    {
        Journalled {
            rt,
            path,
            names,
            offset: 0,
            data,
            hash,
            keeper,
            is_staged: false,
            is_broken: false,
        }
    }

    /// Notes the byte offset of the volume's superblock in HASH, which the journal has beside its UUID: at first it is 0.
    pub fn note_offset(&mut self, offset: u64)
        ensures { self.new ≡ record self.old { offset = offset } }
    {
        self.offset = offset;
    }

    /// The volume's files, once more: DATA and HASH. S1 or want of memory, where the system refuses one of them.
    pub fn files(&self) -> Result<(Opened, Opened), StoreFault>
        ensures data_device { IfOk result (λ both. (both.0.identity ≡ self.now.«data».identity) × (both.0.len ≡ self.now.«data».len)) }
        ensures hash_device { IfOk result (λ both. (both.1.identity ≡ self.now.hash.identity) × (both.1.len ≡ self.now.hash.len)) }
        ensures refused { IfErr result (IsOfSystem (P.refuses self.now.rt.now ≡ true)) }
    {
        Ok((self.rt.again(&self.data)?, self.rt.again(&self.hash)?))
    }

    /// Removes the journal where its gate is closed.
    pub fn end(self) {
        if self.keeper.is_some() && !self.is_broken {
            self.rt.remove(self.path);
        }
    }

    /// Whether no commit is made any more, though the editor isn't broken.
    pub(crate) fn is_stopped(&self) -> bool
        ensures { result ≡ self.now.is_broken }
    {
        self.is_broken
    }

    /// Makes ready for a commit: nothing is staged, and there is a journal.
    fn begin<V: StagedEdits>(&mut self, editor: &mut V) -> Result<(), Fault>
        ensures stands { (editor.new ≡ editor.old) ⊎ V.restaged editor.old editor.new }
        ensures system { IfErr result (λ fault. fault ≡ Fault.Store StoreFault.Device → P.refuses self.old.rt.now ≡ true) }
        ensures keeper { HasKeeper self.old.keeper self.new.keeper }
        ensures rt { self.new.rt.now ≡ self.old.rt.now }
    {
        if self.is_staged {
            let (data, hash) = self.files()?;
            editor.restage(self.rt, self.rt.alloc(), data, hash)?;
            self.is_staged = false;
        }
        if self.keeper.is_none() {
            let (data, hash) = self.files()?;
            self.keeper = Some(make_journal(&mut Host::new(self.rt), self.path, data, hash)?);
        }
        Ok(())
    }

    /// Commits, and tells a notice of it before the files change. The editor comes back. S1 only where the system refused a call, or the
    /// notice didn't let the commit go on. After that, as after a fault of the files, the editor is of no more use.
    pub(crate) fn commit_noted<V: StagedEdits, N: Notice<Fault = Fault>>(
        &mut self,
        editor: V,
        notice: &mut N,
    ) -> (V, Result<Committed, Fault>)
        ensures done { IfOk result.1 (λ committed. (begun : V) × ((begun ≡ editor) ⊎ V.restaged editor begun)
            × V.commits begun result.0 committed) }
        ensures noted { IsNoted N.Notice notice.old notice.new (V.volume result.0) result.1 }
        ensures system { IfErr result.1 (λ fault. fault ≡ Fault.Store StoreFault.Device
            → (P.refuses self.old.rt.now ≡ true) ⊎ N.declined notice.old notice.new fault) }
        ensures first { HasKeeper self.old.keeper self.new.keeper ⊎ WasNoted N.Notice notice.old notice.new }
        ensures rt { self.new.rt.now ≡ self.old.rt.now }
    {
        let mut current = editor;
        if let Err(fault) = self.begin(&mut current) {
            return (current, Err(fault));
        }
        let Some(keeper) = &mut self.keeper else {
            return (current, Err(Fault::Journal));
        };
        let alloc = self.rt.alloc();
        let uuid = current.superblock().uuid();
        let Ok(names) = names_of_volume(alloc, uuid, self.offset, self.names) else {
            return (current, Err(Fault::Store(StoreFault::NoMemory)));
        };
        let (editor, done) = current.commit_noted(alloc, keeper, &names, notice);
        let answer = match done {
            Ok(committed) => {
                self.is_staged = true;
                Ok(committed)
            }
            Err(NotedFault::Edit(_)) if editor.is_starved() => Err(Fault::Edit(
                EditFault::NoMemory,
            )),
            Err(NotedFault::Edit(fault)) => Err(Fault::Edit(fault)),
            Err(NotedFault::Notice(fault)) => Err(fault),
            Err(NotedFault::Devices(fault)) => {
                self.is_broken = true;
                Err(fault_of_disks(&Host::new(self.rt), keeper, fault))
            }
        };
        (editor, answer)
    }
}

impl<'a, P: Paths + AllocGlobal, V: StagedEdits> Commits<V> for Journalled<'a, P> {
    ghost use Rattle.std.specs.Prelude.{◌≡◌, ◌⊎◌, ⊤};

    ghost stopped = { λ c. c.is_broken };

    ghost stands_for = { λ editor begun. (begun ≡ editor) ⊎ V.restaged editor begun };

    ghost refuses = { λ c. P.refuses c.rt.now };

    ghost fails = { λ _. ⊥ };

    ghost holds = { λ _ _ _. ⊤ };

    ghost keeps = { λ _ _. ⊤ };

    ghost begins = { λ _ _. ⊤ };

    ghost keeps_itself = { λ _. tt };

    ghost keeps_on = { λ _ _ _ _ _. tt };

    fn commit(&mut self, editor: V) -> (V, Result<Committed, Fault>) {
        let mut editor = editor;
        if let Err(fault) = self.begin(&mut editor) {
            return (editor, Err(fault));
        }
        let Some(keeper) = &mut self.keeper else {
            return (editor, Err(Fault::Journal));
        };
        let alloc = self.rt.alloc();
        let uuid = editor.superblock().uuid();
        let Ok(names) = names_of_volume(alloc, uuid, self.offset, self.names) else {
            return (editor, Err(Fault::Store(StoreFault::NoMemory)));
        };
        let (editor, done) = editor.commit_through(alloc, keeper, &names);
        let answer = match done {
            Ok(committed) => {
                self.is_staged = true;
                Ok(committed)
            }
            Err(CommitFault::Edit(_)) if editor.is_starved() => Err(Fault::Edit(
                EditFault::NoMemory,
            )),
            Err(CommitFault::Edit(fault)) => Err(Fault::Edit(fault)),
            Err(CommitFault::Disks(fault)) => {
                self.is_broken = true;
                Err(fault_of_disks(&Host::new(self.rt), keeper, fault))
            }
        };
        (editor, answer)
    }

    fn is_broken(&self) -> bool {
        self.is_broken
    }
}
