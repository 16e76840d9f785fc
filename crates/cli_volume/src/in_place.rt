//! Commits that are staged and then written in place.
ghost use Rattle.std.specs.Prelude.{◌≡◌, ◌⊎◌, IfOk, IfErr, false, true};
ghost use Rattle.cli_faults.specs.Errors.{IsOfSystem};
ghost use Rattle.cli_volume.specs.Noting.{IsNoted};

use crate::staging::StagedEdits;
use cli_faults::Fault;
use os_host::{Opened, Paths, whole_file};
use verity_commit::{NotedFault, Notice, PlaceFault};
use verity_edit::{Committed, EditFault};
use verity_store::StoreFault;

/// The stores are staged over the files: what was committed is written there, with no journal.
#[derive(Drop)]
pub struct InPlace<'a, P> {
    rt: &'a P,
    data: Opened,
    hash: Opened,
    is_staged: bool,
    is_broken: bool,
}

impl<'a, P: Paths + AllocGlobal> InPlace<'a, P> {
    /// Over these files.
    pub fn new(rt: &'a P, data: Opened, hash: Opened) -> InPlace<'a, P>
        ensures data_device { result.«data» ≡ «data» }
        ensures hash_device { result.hash ≡ hash }
        ensures rt { result.rt.now ≡ rt.now }
        ensures stopped { result.is_broken ≡ false }
    {
        InPlace {
            rt,
            data,
            hash,
            is_staged: false,
            is_broken: false,
        }
    }

    /// The volume's files, once more: DATA and HASH. S1 or want of memory, where the system refuses one of them.
    pub fn files(&self) -> Result<(Opened, Opened), StoreFault>
        ensures data_device { IfOk result (λ both. (both.0.identity ≡ self.now.«data».identity) × (both.0.len ≡ self.now.«data».len)) }
        ensures hash_device { IfOk result (λ both. (both.1.identity ≡ self.now.hash.identity) × (both.1.len ≡ self.now.hash.len)) }
        ensures refused { IfErr result (IsOfSystem (P.refuses self.now.rt.now ≡ true)) }
    {
        Ok((self.rt.again(&self.data)?, self.rt.again(&self.hash)?))
    }

    /// Whether no commit is made any more, though the editor isn't broken.
    pub(crate) fn is_broken(&self) -> bool
        ensures { result ≡ self.now.is_broken }
    {
        self.is_broken
    }

    /// Makes ready for a commit: nothing is staged. It returns both files.
    fn begin<V: StagedEdits>(&mut self, editor: &mut V) -> Result<(Opened, Opened), Fault>
        ensures stands { (editor.new ≡ editor.old) ⊎ V.restaged editor.old editor.new }
        ensures rt { self.new.rt.now ≡ self.old.rt.now }
        ensures system { IfErr result (λ fault. fault ≡ Fault.Store StoreFault.Device → P.refuses self.old.rt.now ≡ true) }
    {
        if self.is_staged {
            let (data, hash) = self.files()?;
            editor.restage(self.rt, self.rt.alloc(), data, hash)?;
            self.is_staged = false;
        }
        Ok(self.files()?)
    }

    /// Commits, and tells a notice of it before the files change. The editor comes back. S1 only where the system refused a call, or the
    /// notice didn't let the commit go on; E6 of the store whose file failed. After both the editor is of no more use.
    pub(crate) fn commit_noted<V: StagedEdits, N: Notice<Fault = Fault>>(
        &mut self,
        editor: V,
        notice: &mut N,
    ) -> (V, Result<Committed, Fault>)
        ensures done { IfOk result.1 (λ committed. (begun : V) × ((begun ≡ editor) ⊎ V.restaged editor begun)
            × V.commits begun result.0 committed) }
        ensures noted { IsNoted N.Notice notice.old notice.new (V.volume result.0) result.1 }
        ensures system { IfErr result.1 (λ fault. fault ≡ Fault.Store StoreFault.Device
            → (P.refuses self.old.rt.now ≡ true) ⊎ N.declined notice.old notice.new fault) }
        ensures rt { self.new.rt.now ≡ self.old.rt.now }
    {
        let mut editor = editor;
        let (data, hash) = match self.begin(&mut editor) {
            Ok(both) => both,
            Err(fault) => return (editor, Err(fault)),
        };
        let mut data_file = whole_file(data);
        let mut hash_file = whole_file(hash);
        let (editor, done) = editor.commit_in_place(&mut data_file, &mut hash_file, notice);
        let answer = match done {
            Ok(committed) => {
                self.is_staged = true;
                Ok(committed)
            }
            Err(NotedFault::Edit(_)) if editor.is_starved() => Err(Fault::Edit(
                EditFault::NoMemory,
            )),
            Err(NotedFault::Edit(fault)) => Err(Fault::Edit(fault)),
            Err(NotedFault::Notice(fault)) => Err(fault),
            Err(NotedFault::Devices(fault)) => {
                self.is_broken = true;
                Err(fault_in_place(fault))
            }
        };
        (editor, answer)
    }
}

/// E6 with the store whose file failed, or want of memory.
fn fault_in_place(fault: PlaceFault) -> Fault
    ensures file { (which : _) → fault ≡ PlaceFault.File which → result ≡ Fault.Edit (EditFault.Store which) }
    ensures memory { fault ≡ PlaceFault.NoMemory → result ≡ Fault.Store StoreFault.NoMemory }
{
    match fault {
        PlaceFault::File(which) => Fault::Edit(EditFault::Store(which)),
        PlaceFault::NoMemory => Fault::Store(StoreFault::NoMemory),
    }
}
