//! The two files of a volume's table line.
ghost use Rattle.std.specs.Prelude.{◌≡◌, ◌≢◌, ◌<◌, ◌↔◌, ℕ, List, None, IsTrue, IsSome, IfSome, IfOk, IfErr, OnOk, MatchOption, ⊤};
ghost use Rattle.os_line_file.specs.Folder.{with_next, replaced, KeepsLine, IsDurable, LeavesOnly};
ghost use Rattle.verity_superblock.specs.Line.{TableLine};
ghost use Rattle.verity_line_file.specs.Lines.{line_of, is_one_line, text_of, Holds, HoldsWhole};
ghost use Rattle.verity_line_file.specs.Outcome.{IsSettled, IsRefused, IsOther};
ghost use Rattle.verity_line_file.specs.Standing.{IsLineOf, IsWholeLineOf, Replaces, Settles};

use crate::fault::LineFileFault;
use crate::shown::Shown;
use crate::text::{table_in, text_for, whole_table_in};
use os_line_file::LineFolder;
use std::alloc::{AllocError, Global};
use verity_superblock::{Table, TableFault, laws};

/// What was done about a FILE.next.
#[derive(Clone, Copy, Debug, PartialEq, Eq)]
pub enum Settled {
    /// There was none.
    Nothing,
    /// It was removed, and FILE stays.
    Kept,
    /// It was put in FILE's place.
    Taken,
}

/// The table line of a volume, in FILE, and in FILE.next the one that is to follow while a commit is under way.
#[derive(Drop)]
pub struct LineFile<F: LineFolder> {
    pub folder: F,
}

impl<F: LineFolder> LineFile<F> {
    /// The line in the two files of a folder.
    pub fn new(folder: F) -> LineFile<F>
        ensures { result.folder ≡ folder }
    {
        LineFile { folder }
    }

    /// Whether there is a FILE.next: a commit is under way, or was cut short.
    pub fn is_under_way(&self) -> bool
        ensures { IsTrue result ↔ IsSome (F.seen self.now.folder).next }
    {
        self.folder.next().is_some()
    }

    /// The table line that FILE holds; none where there is no FILE. L1 where it has more than one line or isn't UTF-8, else the first of
    /// L1 to L9 that applies.
    pub fn line(&self, alloc: Global) -> Result<Option<Table>, TableFault>
        ensures holds { IfOk result (λ found. MatchOption found ((F.seen self.now.folder).line ≡ None)
            (λ table. (text : List ℕ) × ((F.seen self.now.folder).line ≡ Some text) × Holds text table)) }
        ensures refused { IfErr result (λ e. e ≢ TableFault.NoMemory
            → (text : List ℕ) → (F.seen self.now.folder).line ≡ Some text → (t : TableLine) → ¬ Holds text t) }
        ensures there { (F.seen self.now.folder).line ≡ None → result ≡ Ok None }
    {
        match self.folder.line() {
            Some(text) => Ok(Some(table_in(alloc, text)?)),
            None => Ok(None),
        }
    }

    /// Makes FILE.next anew with a table line, before the first change of the commit whose line it is. FILE isn't touched.
    ///
    /// L1 where a line feed stands in the line. After Folder nothing is known of FILE.next, and no change of the volume may follow.
    pub fn begin(&mut self, alloc: Global, table: &Table) -> Result<(), LineFileFault>
        ensures begun { OnOk result (F.seen self.new.folder ≡ with_next (Some (text_of table.now)) (F.seen self.old.folder)) }
        ensures whole { OnOk result (HoldsWhole (text_of table.now) table.now) }
        ensures durable { OnOk result (IsDurable (F.seen self.new.folder) (F.may_leave self.new.folder)) }
        ensures any_moment { LeavesOnly F.moment F.left_since self.old.folder self.new.folder (KeepsLine (F.may_leave self.old.folder)) }
        ensures failed { IfErr result (λ e. e ≡ LineFileFault.Folder → F.failures self.old.folder < F.failures self.new.folder) }
        ensures unchanged { IfErr result (λ e. e ≢ LineFileFault.Folder → self.new.folder ≡ self.old.folder) }
        ensures refused { IfErr result (λ e. e ≢ LineFileFault.Folder → e ≢ LineFileFault.NoMemory
            → (e ≡ LineFileFault.Line TableFault.Fields) × ¬ IsTrue (is_one_line (line_of (text_of table.now)))) }
    {
        let text = match text_for(alloc, table) {
            Ok(text) => text,
            Err(TableFault::NoMemory) => return Err(LineFileFault::NoMemory),
            Err(_) => return Err(LineFileFault::Line(TableFault::Fields)),
        };
        match self.folder.write_next(&text) {
            Ok(()) => Ok(()),
            Err(fault) => Err(fault.into()),
        }
    }

    /// Puts FILE.next in FILE's place, once the commit is whole. After Folder, as after a crash, [`LineFile::settle`] of both files as they
    /// are opened anew does what is left to be done.
    pub fn finish(&mut self) -> Result<(), LineFileFault>
        requires { IsSome (F.seen self.old.folder).next }
        ensures finished { OnOk result (F.seen self.new.folder ≡ replaced (F.seen self.old.folder)) }
        ensures durable { OnOk result (IsDurable (F.seen self.new.folder) (F.may_leave self.new.folder)) }
        ensures any_moment { LeavesOnly F.moment F.left_since self.old.folder self.new.folder
            (Replaces (F.seen self.old.folder) (F.may_leave self.old.folder)) }
        ensures failed { IfErr result (λ e. (e ≡ LineFileFault.Folder) × (F.failures self.old.folder < F.failures self.new.folder)) }
    {
        match self.folder.replace() {
            Ok(()) => Ok(()),
            Err(fault) => Err(fault.into()),
        }
    }

    /// Looks which of both files holds the line of a volume that shows this, and leaves it in FILE: FILE.next takes FILE's place where it
    /// holds that line, whole; else it is removed, where FILE holds it or there is no FILE. It writes nothing.
    ///
    /// Where neither holds it, both stay: Top where FILE's line has the volume's values and another root hash, Values where it has others,
    /// Line where FILE holds none.
    pub fn settle(&mut self, alloc: Global, shown: &Shown) -> Result<Settled, LineFileFault>
        ensures settled { IfOk result (IsSettled shown.now (F.seen self.old.folder) (F.seen self.new.folder)) }
        ensures untouched { result ≡ Ok Settled.Nothing → self.new.folder ≡ self.old.folder }
        ensures durable { IfOk result (λ done. done ≢ Settled.Nothing → IsDurable (F.seen self.new.folder) (F.may_leave self.new.folder)) }
        ensures refused { IfErr result (IsRefused shown.now (F.seen self.old.folder)) }
        ensures stays { IfErr result (λ e. e ≢ LineFileFault.Folder → self.new.folder ≡ self.old.folder) }
        ensures failed { IfErr result (λ e. e ≡ LineFileFault.Folder → F.failures self.old.folder < F.failures self.new.folder) }
        ensures any_moment { LeavesOnly F.moment F.left_since self.old.folder self.new.folder
            (Settles shown.now (F.seen self.old.folder) (F.may_leave self.old.folder)) }
    {
        let Some(next) = self.folder.next() else {
            return Ok(Settled::Nothing);
        };
        if is_whole_line_of(alloc, next, shown)? {
            self.folder.replace()?;
            return Ok(Settled::Taken);
        }
        check_line(alloc, self.folder.line(), shown)?;
        self.folder.remove_next()?;
        Ok(Settled::Kept)
    }
}

/// Whether a text holds, whole, the line of a volume that shows this.
fn is_whole_line_of(alloc: Global, text: &[u8], shown: &Shown) -> Result<bool, LineFileFault>
    ensures value { IfOk result (λ is. IsTrue is ↔ IsWholeLineOf shown.now text.now) }
    ensures fault { IfErr result (λ e. e ≡ LineFileFault.NoMemory) }
{
    laws::determines_line();
    match whole_table_in(alloc, text) {
        Ok(Some(table)) => Ok(shown.shows(&table)),
        Ok(None) => Ok(false),
        Err(AllocError) => Err(LineFileFault::NoMemory),
    }
}

/// That FILE, where it is there, holds the line of a volume that shows this.
fn check_line(alloc: Global, text: Option<&[u8]>, shown: &Shown) -> Result<(), LineFileFault>
    ensures fits { OnOk result (MatchOption text.entry ⊤ (λ text. IsLineOf shown.now text.now)) }
    ensures refused { IfErr result (λ e. e ≢ LineFileFault.NoMemory → IfSome text.entry (λ text. IsOther shown.now text.now e)) }
    ensures fault { IfErr result (λ e. e ≢ LineFileFault.Folder) }
    ensures there { IfErr result (λ e. e ≢ LineFileFault.NoMemory → IsSome text.entry) }
{
    laws::determines_line();
    let Some(text) = text else {
        return Ok(());
    };
    let table = match table_in(alloc, text) {
        Ok(table) => table,
        Err(TableFault::NoMemory) => return Err(LineFileFault::NoMemory),
        Err(fault) => return Err(LineFileFault::Line(fault)),
    };
    if !shown.has_sizes(&table) {
        return Err(LineFileFault::Values);
    }
    if !shown.shows(&table) {
        return Err(LineFileFault::Top);
    }
    Ok(())
}
