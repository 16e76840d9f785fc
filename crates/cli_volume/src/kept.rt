//! Commits with which a volume's table line is kept in a file.
ghost use Rattle.std.specs.Prelude.{◌≡◌, ◌⊎◌, ◌<◌, IfOk, IfErr, IsSome, OnOk, false, option_map, true};
ghost use Rattle.os_line_file.specs.Folder.{KeepsLine, LeavesOnly, replaced};
ghost use Rattle.verity_line_file.specs.Standing.{Replaces};
ghost use Rattle.cli_faults.specs.Errors.{IsOfSystem};
ghost use Rattle.cli_volume.specs.Kept.{FolderFails, HasBegun, HoldsLine, IsBegun, IsUntouched, KeepsFile, WasBegun};
ghost use Rattle.cli_volume.specs.Kept.{begun_at, file_of, is_broken_way, is_stopped_line, system_of};
ghost use Rattle.cli_volume.specs.Lines.{IsOfLine, volume_line};
ghost use Rattle.cli_volume.specs.Noting.{IsNoted, WasNoted};

use crate::commits::{Commits, Journalled};
use crate::in_place::InPlace;
use crate::lines::{Devices, table_of_volume};
use crate::staging::StagedEdits;
use cli_faults::{Failure, Fault};
use os_host::{Opened, Paths};
use os_line_file::LineFolder;
use std::alloc::Global;
use verity_commit::Notice;
use verity_digest::Digest;
use verity_edit::{Committed, EditFault};
use verity_line_file::{LineFile, LineFileFault};
use verity_store::StoreFault;
use verity_superblock::{Superblock, Table, TableFault};

/// The file in which the table line of a volume on these devices is kept.
#[derive(Drop)]
pub struct KeptLine<'a, F: LineFolder> {
    alloc: Global,
    devices: Devices<'a>,
    file: LineFile<F>,
    is_stopped: bool,
}

impl<'a, F: LineFolder> KeptLine<'a, F> {
    /// The line of a volume on devices at these paths, in this file.
    pub fn new(
        alloc: Global,
        data_path: &'a str,
        hash_path: &'a str,
        file: LineFile<F>,
    ) -> KeptLine<'a, F>
        ensures data_path { result.devices.data_path.now ≡ data_path.now }
        ensures hash_path { result.devices.hash_path.now ≡ hash_path.now }
        ensures file { result.file ≡ file }
        ensures stopped { result.is_stopped ≡ false }
    {
        let devices = Devices {
            data_path,
            hash_path,
            hash_start_block: 0,
            data_room: 0,
            hash_room: 0,
        };
        KeptLine {
            alloc,
            devices,
            file,
            is_stopped: false,
        }
    }

    /// Notes the hash block at which the volume's tree begins: at first it is 0.
    fn note_start(&mut self, start: u64)
        ensures { self.new ≡ begun_at start self.old }
    {
        self.devices.hash_start_block = start;
    }

    /// The table line that FILE holds; none where there is no FILE. L1 to L9 where it holds none.
    pub fn table(&self) -> Result<Option<Table>, TableFault> {
        self.file.line(self.alloc)
    }

    /// Begins the line of a commit that made this volume: FILE.next has it, and FILE is as it was.
    fn begin(&mut self, superblock: &Superblock, root: Digest) -> Result<(), Fault>
        ensures begun { OnOk result (IsBegun F.LineFolder self.old.file.folder self.new.file.folder
            (volume_line self.old.devices superblock.now root)) }
        ensures any_moment { LeavesOnly F.moment F.left_since self.old.file.folder self.new.file.folder
            (KeepsLine (F.may_leave self.old.file.folder)) }
        ensures failed { IfErr result (λ e. e ≡ Fault.Store StoreFault.Device
            → F.failures self.old.file.folder < F.failures self.new.file.folder) }
        ensures same { self.new ≡ record self.old { file = self.new.file } }
    {
        let table = match table_of_volume(self.alloc, self.devices, superblock, root) {
            Ok(table) => table,
            Err(failure) => return Err(fault_of_failure(failure)),
        };
        match self.file.begin(self.alloc, &table) {
            Ok(()) => Ok(()),
            Err(fault) => Err(fault_of_line_file(fault)),
        }
    }

    /// Puts the line that was begun in FILE's place.
    fn finish(&mut self) -> Result<(), Fault>
        requires { IsSome (F.seen self.old.file.folder).next }
        ensures finished { OnOk result (F.seen self.new.file.folder ≡ replaced (F.seen self.old.file.folder)) }
        ensures any_moment { LeavesOnly F.moment F.left_since self.old.file.folder self.new.file.folder
            (Replaces (F.seen self.old.file.folder) (F.may_leave self.old.file.folder)) }
        ensures failed { IfErr result (λ e. (e ≡ Fault.Store StoreFault.Device) × (self.new.is_stopped ≡ true)
            × (F.failures self.old.file.folder < F.failures self.new.file.folder)) }
        ensures going { OnOk result (self.new.is_stopped ≡ self.old.is_stopped) }
        ensures devices { self.new.devices ≡ self.old.devices }
    {
        match self.file.finish() {
            Ok(()) => Ok(()),
            Err(fault) => {
                self.is_stopped = true;
                Err(fault_of_line_file(fault))
            }
        }
    }
}

/// Before the files change, FILE.next has the line of what they are to be.
impl<'a, F: LineFolder> Notice for KeptLine<'a, F> {
    ghost use Rattle.std.specs.Prelude.{◌≡◌, ◌<◌, false, true};
    ghost use Rattle.os_line_file.specs.Folder.{KeepsLine, LeavesOnly};
    ghost use Rattle.cli_faults.specs.declared.fault.Fault.TheVariants.{Store};
    ghost use Rattle.verity_store.specs.declared.fault.StoreFault.TheVariants.{Device};
    ghost use Rattle.cli_volume.specs.Kept.{IsBegun, WasBegun};
    ghost use Rattle.cli_volume.specs.Lines.{volume_line};

    type Fault = Fault;

    ghost noted = { λ old new volume committed. WasBegun F.LineFolder old.file.folder new.file.folder
        (volume_line old.devices volume committed.root) × (new ≡ record old { file = new.file }) };

    ghost declined = { λ old new fault. (new.devices ≡ old.devices) × (new.is_stopped ≡ true)
        × LeavesOnly F.moment F.left_since old.file.folder new.file.folder (KeepsLine (F.may_leave old.file.folder))
        × (fault ≡ Store Device → F.failures old.file.folder < F.failures new.file.folder) };

    fn note(&mut self, superblock: &Superblock, committed: &Committed) -> Result<(), Fault> {
        let begun = self.begin(superblock, committed.root);
        if begun.is_err() {
            self.is_stopped = true;
        }
        begun
    }
}

/// Why a line isn't begun, as the fault of a commit.
fn fault_of_failure(failure: Failure) -> Fault
    requires { IsOfLine failure }
    ensures { result ≡ Fault.Store StoreFault.Device → failure ≡ Failure.Refused (Fault.Store StoreFault.Device) }
{
    match failure {
        Failure::Refused(fault) => fault,
        Failure::NoMemory => Fault::Store(StoreFault::NoMemory),
        Failure::Word(_) | Failure::Output => unreachable!(),
    }
}

/// The fault of the file of a line: L1, S1 where the folder failed, want of memory, or E13.
fn fault_of_line_file(fault: LineFileFault) -> Fault
    ensures folder { fault ≡ LineFileFault.Folder → result ≡ Fault.Store StoreFault.Device }
    ensures other { result ≡ Fault.Store StoreFault.Device → fault ≡ LineFileFault.Folder }
{
    match fault {
        LineFileFault::Line(fault) => Fault::Table(fault),
        LineFileFault::Folder => Fault::Store(StoreFault::Device),
        LineFileFault::NoMemory => Fault::Store(StoreFault::NoMemory),
        LineFileFault::Values | LineFileFault::Top => Fault::Edit(EditFault::Line),
    }
}

/// Lets every commit go on.
#[derive(Drop)]
struct Unnoted;

impl Notice for Unnoted {
    ghost use Rattle.std.specs.Prelude.{⊤};

    type Fault = Fault;

    ghost noted = { λ _ _ _ _. ⊤ };

    ghost declined = { λ _ _ _. ⊥ };

    fn note(&mut self, _superblock: &Superblock, _committed: &Committed) -> Result<(), Fault> {
        Ok(())
    }
}

/// The way of what is staged to the files.
#[derive(Drop)]
pub enum Way<'a, P> {
    /// Through a journal.
    Journalled(Journalled<'a, P>),
    /// In place.
    InPlace(InPlace<'a, P>),
}

impl<'a, P: Paths + AllocGlobal> Way<'a, P> {
    /// The volume's files, once more: DATA and HASH. S1 or want of memory, where the system refuses one of them.
    pub fn files(&self) -> Result<(Opened, Opened), StoreFault>
        ensures refused { IfErr result (IsOfSystem (P.refuses (system_of self.now) ≡ true)) }
    {
        match self {
            Way::Journalled(commits) => commits.files(),
            Way::InPlace(commits) => commits.files(),
        }
    }

    /// Notes the byte offset of the volume's superblock in HASH, for a journal.
    fn note_offset(&mut self, offset: u64)
        ensures { system_of self.new ≡ system_of self.old }
    {
        match self {
            Way::Journalled(commits) => commits.note_offset(offset),
            Way::InPlace(_) => {}
        }
    }

    /// Removes a journal where its gate is closed.
    pub fn end(self) {
        match self {
            Way::Journalled(commits) => commits.end(),
            Way::InPlace(_) => {}
        }
    }

    fn is_broken(&self) -> bool
        ensures { result ≡ is_broken_way self.now }
    {
        match self {
            Way::Journalled(commits) => commits.is_stopped(),
            Way::InPlace(commits) => commits.is_broken(),
        }
    }

    /// Commits. The editor comes back. S1 only where the system refused a call.
    fn commit<V: StagedEdits>(&mut self, editor: V) -> (V, Result<Committed, Fault>)
        ensures done { IfOk result.1 (λ committed. (begun : V) × ((begun ≡ editor) ⊎ V.restaged editor begun)
            × V.commits begun result.0 committed) }
        ensures system { IfErr result.1 (λ fault. fault ≡ Fault.Store StoreFault.Device → P.refuses (system_of self.old) ≡ true) }
    {
        match self {
            Way::Journalled(commits) => commits.commit(editor),
            Way::InPlace(commits) => commits.commit_noted(editor, &mut Unnoted),
        }
    }

    /// Commits, and tells a notice of it before the files change. The editor comes back. S1 only where the system refused a call, or the
    /// notice didn't let the commit go on.
    fn commit_noted<V: StagedEdits, N: Notice<Fault = Fault>>(
        &mut self,
        editor: V,
        notice: &mut N,
    ) -> (V, Result<Committed, Fault>)
        ensures done { IfOk result.1 (λ committed. (begun : V) × ((begun ≡ editor) ⊎ V.restaged editor begun)
            × V.commits begun result.0 committed) }
        ensures noted { IsNoted N.Notice notice.old notice.new (V.volume result.0) result.1 }
        ensures system { IfErr result.1 (λ fault. fault ≡ Fault.Store StoreFault.Device
            → (P.refuses (system_of self.old) ≡ true) ⊎ N.declined notice.old notice.new fault) }
        ensures first { IsUntouched self.old self.new ⊎ WasNoted N.Notice notice.old notice.new }
        ensures same { system_of self.new ≡ system_of self.old }
    {
        match self {
            Way::Journalled(commits) => commits.commit_noted(editor, notice),
            Way::InPlace(commits) => commits.commit_noted(editor, notice),
        }
    }
}

/// Commits over staged stores, with which the volume's table line is kept in a file, where there is one.
///
/// FILE.next has the line of a commit before the first change of the volume's files, and takes FILE's place after the last one. Where the
/// folder fails no commit is made any more.
#[derive(Drop)]
pub struct StagedCommits<'a, P, F: LineFolder> {
    way: Way<'a, P>,
    line: Option<KeptLine<'a, F>>,
}

impl<'a, P: Paths + AllocGlobal, F: LineFolder> StagedCommits<'a, P, F> {
    /// By this way, with this line.
    pub fn new(way: Way<'a, P>, line: Option<KeptLine<'a, F>>) -> StagedCommits<'a, P, F>
        ensures way { result.way ≡ way.entry }
        ensures line { result.line ≡ line.entry }
    {
        StagedCommits { way, line }
    }

    /// The volume's files, once more: DATA and HASH. S1 or want of memory, where the system refuses one of them.
    pub fn files(&self) -> Result<(Opened, Opened), StoreFault>
        ensures refused { IfErr result (IsOfSystem (P.refuses (system_of self.now.way) ≡ true)) }
    {
        self.way.files()
    }

    /// Notes the byte offset of the volume's superblock in HASH, and the hash block at which its tree begins.
    pub fn note_start(&mut self, offset: u64, start: u64)
        ensures same { system_of self.new.way ≡ system_of self.old.way }
        ensures line { self.new.line ≡ option_map (begun_at start) self.old.line }
    {
        self.way.note_offset(offset);
        if let Some(line) = &mut self.line {
            line.note_start(start);
        }
    }

    /// Removes a journal where its gate is closed. It returns the file of the line, where there is one, as the commits have left it.
    pub fn end(self) -> Option<LineFile<F>>
        ensures { result ≡ file_of self.entry.line }
    {
        self.way.end();
        match self.line {
            Some(line) => Some(line.file),
            None => None,
        }
    }
}

/// Commits with a line: it is begun before the files change, and in FILE's place after that.
fn commit_kept<P: Paths + AllocGlobal, F: LineFolder, V: StagedEdits>(
    way: &mut Way<'_, P>,
    line: &mut KeptLine<'_, F>,
    editor: V,
) -> (V, Result<Committed, Fault>)
    ensures done { IfOk result.1 (λ committed. (begun : V) × ((begun ≡ editor) ⊎ V.restaged editor begun)
        × V.commits begun result.0 committed) }
    ensures system { IfErr result.1 (λ fault. fault ≡ Fault.Store StoreFault.Device
        → (P.refuses (system_of way.old) ≡ true) ⊎ FolderFails F.LineFolder) }
    ensures held { IfOk result.1 (λ committed. HoldsLine F.LineFolder line.new (V.volume result.0) committed.root) }
    ensures kept { KeepsFile F.LineFolder line.old line.new }
    ensures first { IsUntouched way.old way.new ⊎ HasBegun F.LineFolder line.old }
    ensures same { system_of way.new ≡ system_of way.old }
{
    if line.is_stopped {
        return (editor, Err(Fault::Edit(EditFault::Broken)));
    }
    let (editor, done) = way.commit_noted(editor, line);
    let committed = match done {
        Ok(committed) => committed,
        Err(fault) => return (editor, Err(fault)),
    };
    match line.finish() {
        Ok(()) => (editor, Ok(committed)),
        Err(fault) => (editor, Err(fault)),
    }
}

impl<'a, P: Paths + AllocGlobal, F: LineFolder, V: StagedEdits> Commits<V>
    for StagedCommits<'a, P, F> {
    ghost use Rattle.std.specs.Prelude.{◌≡◌, ◌⊎◌, ◌||◌};
    ghost use Rattle.cli_volume.specs.Kept.{HasBegunOf, HoldsLineOf, IsUntouched, KeepsFileOf, LineFails};
    ghost use Rattle.cli_volume.specs.Kept.{is_broken_way, is_stopped_line, system_of};
    ghost use Rattle.cli_volume.specs.Keeping.{file_as_it_is, file_goes_on};

    ghost stopped = { λ c. is_broken_way c.way || is_stopped_line c.line };

    ghost stands_for = { λ editor begun. (begun ≡ editor) ⊎ V.restaged editor begun };

    ghost refuses = { λ c. P.refuses (system_of c.way) };

    ghost fails = { λ c. LineFails F.LineFolder c.line };

    ghost holds = { λ c volume root. HoldsLineOf F.LineFolder c.line volume root };

    ghost keeps = { λ a b. KeepsFileOf F.LineFolder a.line b.line };

    ghost begins = { λ a b. IsUntouched a.way b.way ⊎ HasBegunOf F.LineFolder a.line };

    ghost keeps_itself = { λ c. file_as_it_is
        (record { seen = F.seen; may_leave = F.may_leave; moment = F.moment; left_since = F.left_since; failures = F.failures })
        F.only_now c.line };

    ghost keeps_on = { λ a b c one two. file_goes_on
        (record { seen = F.seen; may_leave = F.may_leave; moment = F.moment; left_since = F.left_since; failures = F.failures })
        F.counts_now a.line b.line c.line one two };

    fn commit(&mut self, editor: V) -> (V, Result<Committed, Fault>) {
        match &mut self.line {
            Some(line) => commit_kept(&mut self.way, line, editor),
            None => self.way.commit(editor),
        }
    }

    fn is_broken(&self) -> bool {
        self.way.is_broken() || is_stopped(&self.line)
    }
}

/// Whether no line is begun any more.
fn is_stopped<F: LineFolder>(line: &Option<KeptLine<'_, F>>) -> bool
    ensures { result ≡ is_stopped_line line.now }
{
    match line {
        Some(line) => line.is_stopped,
        None => false,
    }
}
