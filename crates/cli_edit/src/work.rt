//! What is done over a volume, and over which one.
ghost use Rattle.std.specs.Prelude.{◌≡◌, ◌⊎◌, IfOk, IfErr, OnOk, MatchOption, true};
ghost use Rattle.cli_faults.specs.Errors.{IsS1For};
ghost use Rattle.cli_faults.specs.declared.failure.Word.{Word};
ghost use Rattle.os_commit_flag.specs.Refusals.{BlamesNone};
ghost use Rattle.cli_volume.specs.Kept.{IsLeft, LeftLine};
ghost use Rattle.cli_edit.specs.Work.{BlamesOwn, Leaves, LeavesAsBefore, Prints, PrintsAsBefore, Reason};

use cli_faults::{Command, Failure};
use cli_volume::{Commits, Devices, Edits};
use os_host::{Opened, Paths};
use std::io::{Eprint, Write};
use std::time::Clock;
use verity_update::Edited;

/// The words that say which volume, and how it is committed to.
#[derive(Clone, Copy)]
pub struct Words<'a> {
    pub command: Command,
    pub data_path: &'a str,
    pub hash_path: &'a str,
    pub offset: u64,
    pub table: Option<&'a str>,
    /// FILE, in which the table line is kept: it is trusted where it is there, in place of `table`.
    pub table_file: Option<&'a str>,
    pub journal: Option<&'a str>,
    /// Whether someone looks on.
    pub is_watched: bool,
}

/// What is done over a volume.
pub trait Work {
    /// What it prints over a volume on these devices, and its status, by the bytes that are read at a path, where they are known.
    ghost prints: { Prints Self };

    /// What it prints there, its status, and what its commits leave of a table line that is kept with them.
    ghost leaves: { Leaves Self };

    /// Which words it may blame, as it begins.
    ghost blamed: { Word → Type 0 };

    /// Why it blames one.
    ghost reason: { Reason Self };

    /// What more it reads failed, which the system of the volume needn't have refused.
    ghost fails: { Self → Type 0 };

    /// What more is read was opened.
    ghost begun: { Self → Type 0 };

    /// What more is read can be read.
    ghost seen: { Self → Type 0 };

    /// Opens what more is read, once both files are opened, of which DATA may be missing. S1 where the system refuses a call,
    /// or what more is read fails.
    fn begin<R: Paths + AllocGlobal>(
        &mut self,
        rt: &R,
        data: Option<&Opened>,
        hash: &Opened,
    ) -> Result<(), Failure>
        ensures begun { OnOk result (begun self.new) }
        ensures prints { PrintsAsBefore prints self.old self.new }
        ensures leaves { LeavesAsBefore leaves self.old self.new }
        ensures fails { fails self.new → fails self.old }
        ensures system { IfErr result (IsS1For ((R.refuses rt.now ≡ true) ⊎ fails self.old)) }
        ensures blames { IfErr result (BlamesOwn blamed (reason self.old (R.opens rt.now) (λ identity. (identity ≡ hash.now.identity)
            ⊎ MatchOption «data».entry ⊥ (λ opened. identity ≡ opened.now.identity)))) };

    /// Makes it ready to be read, once the size of a data block is known, and whether the volume is opened under a table line. S1 as above.
    fn see<R: Paths + AllocGlobal>(
        &mut self,
        rt: &R,
        data_block_size: usize,
        is_trusted: bool,
    ) -> Result<(), Failure>
        requires { begun self.old }
        ensures seen { OnOk result (seen self.new) }
        ensures system { IfErr result (IsS1For ((R.refuses rt.now ≡ true) ⊎ fails self.old)) }
        ensures prints { PrintsAsBefore prints self.old self.new }
        ensures leaves { LeavesAsBefore leaves self.old self.new }
        ensures fails { fails self.new → fails self.old }
        ensures blames { IfErr result BlamesNone };

    /// Does it. `hash` is HASH, to be read once more. S1 as above, and where the system refuses a call of a commit, or what is kept with
    /// the commits fails.
    fn run<
        R: Paths + Clock + Eprint + AllocGlobal,
        V: Edits + Edited,
        C: Commits<V>,
        W: Write,
        E: Write,
    >(
        &mut self,
        rt: &R,
        editor: V,
        commits: &mut C,
        hash: Opened,
        devices: Devices<'_>,
        output: &mut W,
        errors: &mut E,
    ) -> Result<u8, Failure>
        requires { seen self.old }
        ensures done { IfOk result (λ status. prints self.old (R.text rt.now) devices.entry
            (W.contents output.old) (W.contents output.new) status) }
        ensures kept { IfOk result (λ status. (left : LeftLine) × leaves self.old (R.text rt.now) devices.entry
            (W.contents output.old) (W.contents output.new) status left × IsLeft C.holds commits.old commits.new left) }
        ensures lasting { C.keeps commits.old commits.new }
        ensures system { IfErr result (IsS1For ((R.refuses rt.now ≡ true)
            ⊎ ((C.refuses commits.old ≡ true) ⊎ (C.fails commits.old ⊎ fails self.old)))) }
        ensures blames { IfErr result BlamesNone };
}
