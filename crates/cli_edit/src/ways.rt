//! The two ways to a volume's files: at once, or by what is staged and a journal.
ghost use Rattle.std.specs.Prelude.{◌≡◌, ◌⊎◌, true, IfOk, IfErr, IsErr};
ghost use Rattle.cli_faults.specs.Errors.{IsOfSystem, IsS1For};
ghost use Rattle.os_commit_flag.specs.Refusals.{BlamesNone};
ghost use Rattle.cli_volume.specs.Kept.{HoldsLineOf, IsLeft, KeepsFileOf, LeftLine, LineFails, system_of};
ghost use Rattle.cli_edit.specs.LineFiles.{BeginsAt, IsAtPaths, IsChangedBy, IsKeptBy};
ghost use Rattle.cli_edit.specs.Work.{IsDoneAt};

use crate::rest::{Rest, rest_of};
use crate::running::{open_under, open_whole, run_by, run_direct};
use crate::work::{Words, Work};
use cli_faults::Failure;
use cli_volume::{
    OpenedVolume, OverFile, StagedCommits, StagedFile, end_progress, open_volume, progress_of,
};
use os_host::{Opened, Paths};
use os_line_file::LineFolder;
use os_progress::{Progress, Watched};
use std::alloc::Global;
use std::io::{Eprint, Write};
use std::time::Clock;
use verity_edit::EditFault;
use verity_stage::Staged;
use verity_store::{BlockStore, StoreFault, Which};
use verity_superblock::Table;

/// What a work is done over: the table line, where one is trusted, and what was opened at both paths, of which DATA may be missing.
#[derive(Drop)]
pub(crate) struct Given {
    pub(crate) line: Option<Table>,
    pub(crate) data: Result<Opened, StoreFault>,
    pub(crate) hash: Opened,
}

/// The stores of a volume that isn't opened yet: under a table line, or, where none is trusted, by the superblock at an offset of HASH.
#[derive(Drop)]
struct Unopened<D, H> {
    line: Option<Table>,
    data_store: D,
    hash_store: H,
    offset: u64,
}

/// Works on the files themselves.
pub(crate) fn do_in_place<R: Paths + Clock + Eprint + AllocGlobal, T: Work, W: Write, E: Write>(
    rt: &R,
    words: &Words<'_>,
    work: &mut T,
    given: Given,
    output: &mut W,
    errors: &mut E,
) -> Result<u8, Failure>
    requires ready { T.begun work.old }
    requires missing { IfErr given.«data» (IsOfSystem (R.refuses rt.now ≡ true)) }
    ensures done { IfOk result (λ status. IsDoneAt (T.prints work.old (R.text rt.now)) words.now.data_path.now words.now.hash_path.now
        (W.contents output.old) (W.contents output.new) status) }
    ensures none { IsErr given.«data» → IsErr result }
    ensures blames { IfErr result BlamesNone }
    ensures system { IfErr result (IsS1For ((R.refuses rt.now ≡ true) ⊎ T.fails work.old)) }
{
    let Given { line, data, hash } = given;
    let volume = open_volume(rt, &line, words.offset, data, hash)?;
    work.see(rt, volume.sizes.data_block_size, line.is_some())?;
    run_in_place(rt, words, line, work, volume, output, errors)
}

/// Works on the stores of a volume, whose opening is watched where it is read whole.
fn run_in_place<R: Paths + Clock + Eprint + AllocGlobal, T: Work, W: Write, E: Write>(
    rt: &R,
    words: &Words<'_>,
    line: Option<Table>,
    work: &mut T,
    volume: OpenedVolume,
    output: &mut W,
    errors: &mut E,
) -> Result<u8, Failure>
    requires { T.seen work.old }
    ensures done { IfOk result (λ status. IsDoneAt (T.prints work.old (R.text rt.now)) words.now.data_path.now words.now.hash_path.now
        (W.contents output.old) (W.contents output.new) status) }
    ensures blames { IfErr result BlamesNone }
    ensures system { IfErr result (IsS1For ((R.refuses rt.now ≡ true) ⊎ T.fails work.old)) }
{
    let rest = rest_of(words, volume.again, volume.sizes);
    let is_watched = words.is_watched && line.is_none();
    let progress = progress_of(rt, is_watched, &volume.data_store);
    let data_store = Watched::new(volume.data_store, progress.as_ref());
    let unopened = Unopened {
        line,
        data_store,
        hash_store: volume.hash_store,
        offset: words.offset,
    };
    run_opened(rt, work, unopened, progress.as_ref(), rest, output, errors)
}

/// Opens two stores under a table line, or reads them whole, and does the work. The meter's line is cleared in between.
fn run_opened<
    R: Paths + Clock + Eprint + AllocGlobal,
    T: Work,
    D: BlockStore + Drop,
    H: BlockStore + Drop,
    W: Write,
    E: Write,
>(
    rt: &R,
    work: &mut T,
    unopened: Unopened<D, H>,
    progress: Option<&Progress<'_, R>>,
    rest: Rest<'_>,
    output: &mut W,
    errors: &mut E,
) -> Result<u8, Failure>
    requires { T.seen work.old }
    ensures done { IfOk result (λ status. T.prints work.old (R.text rt.now) rest.entry.devices
        (W.contents output.old) (W.contents output.new) status) }
    ensures blames { IfErr result BlamesNone }
    ensures system { IfErr result (IsS1For ((R.refuses rt.now ≡ true) ⊎ T.fails work.old)) }
{
    let Unopened {
        line,
        data_store,
        hash_store,
        offset,
    } = unopened;
    match line {
        Some(table) => {
            let opened = open_under(rt.alloc(), data_store, hash_store, table);
            run_direct(rt, work, opened, rest, output, errors)
        }
        None => {
            let opened = open_whole(rt.alloc(), data_store, hash_store, offset);
            end_progress(progress);
            run_direct(rt, work, opened, rest, output, errors)
        }
    }
}

/// Works on stores that are staged over the files.
pub(crate) fn do_staged<
    R: Paths + Clock + Eprint + AllocGlobal,
    F: LineFolder,
    T: Work,
    W: Write,
    E: Write,
>(
    rt: &R,
    words: &Words<'_>,
    line: Option<Table>,
    work: &mut T,
    commits: &mut StagedCommits<'_, R, F>,
    output: &mut W,
    errors: &mut E,
) -> Result<u8, Failure>
    requires ready { T.begun work.old }
    requires same { system_of commits.old.way ≡ rt.now }
    requires paths { IsAtPaths commits.old.line words.now.data_path.now words.now.hash_path.now }
    ensures done { IfOk result (λ status. IsDoneAt (T.prints work.old (R.text rt.now)) words.now.data_path.now words.now.hash_path.now
        (W.contents output.old) (W.contents output.new) status) }
    ensures kept { IfOk result (λ status. IsKeptBy F.LineFolder commits.old.line commits.new.line (T.leaves work.old (R.text rt.now))
        words.now.data_path.now words.now.hash_path.now (W.contents output.old) (W.contents output.new) status) }
    ensures lasting { IsChangedBy F.LineFolder commits.old.line commits.new.line words.now.data_path.now words.now.hash_path.now }
    ensures blames { IfErr result BlamesNone }
    ensures system { IfErr result (IsS1For (((R.refuses rt.now ≡ true) ⊎ T.fails work.old)
        ⊎ LineFails F.LineFolder commits.old.line)) }
{
    let (data, hash) = commits.files()?;
    let volume = open_volume(rt, &line, words.offset, Ok(data), hash)?;
    commits.note_start(
        volume.sizes.superblock_offset(),
        volume.sizes.hash_start_block,
    );
    work.see(rt, volume.sizes.data_block_size, line.is_some())?;
    run_through(rt, words, line, work, volume, commits, output, errors)
}

/// Works on stores that are staged over those of a volume, whose opening is watched where it is read whole.
fn run_through<R: Paths + Clock + Eprint + AllocGlobal, F: LineFolder, T: Work, W: Write, E: Write>(
    rt: &R,
    words: &Words<'_>,
    line: Option<Table>,
    work: &mut T,
    volume: OpenedVolume,
    commits: &mut StagedCommits<'_, R, F>,
    output: &mut W,
    errors: &mut E,
) -> Result<u8, Failure>
    requires ready { T.seen work.old }
    requires same { system_of commits.old.way ≡ rt.now }
    requires paths { IsAtPaths commits.old.line words.now.data_path.now words.now.hash_path.now }
    requires start { BeginsAt commits.old.line volume.sizes.hash_start_block }
    ensures done { IfOk result (λ status. IsDoneAt (T.prints work.old (R.text rt.now)) words.now.data_path.now words.now.hash_path.now
        (W.contents output.old) (W.contents output.new) status) }
    ensures kept { IfOk result (λ status. IsKeptBy F.LineFolder commits.old.line commits.new.line (T.leaves work.old (R.text rt.now))
        words.now.data_path.now words.now.hash_path.now (W.contents output.old) (W.contents output.new) status) }
    ensures lasting { KeepsFileOf F.LineFolder commits.old.line commits.new.line }
    ensures blames { IfErr result BlamesNone }
    ensures system { IfErr result (IsS1For (((R.refuses rt.now ≡ true) ⊎ T.fails work.old)
        ⊎ LineFails F.LineFolder commits.old.line)) }
{
    let rest = rest_of(words, volume.again, volume.sizes);
    let is_watched = words.is_watched && line.is_none();
    let progress = progress_of(rt, is_watched, &volume.data_store);
    let data_store = Watched::new(volume.data_store, progress.as_ref());
    let unopened = Unopened {
        line,
        data_store,
        hash_store: volume.hash_store,
        offset: words.offset,
    };
    run_over(
        rt,
        work,
        unopened,
        progress.as_ref(),
        commits,
        rest,
        output,
        errors,
    )
}

/// Stages nothing yet over two stores, and does the work over that.
fn run_over<
    R: Paths + Clock + Eprint + AllocGlobal,
    F: LineFolder,
    T: Work,
    D: OverFile,
    H: OverFile,
    W: Write,
    E: Write,
>(
    rt: &R,
    work: &mut T,
    unopened: Unopened<D, H>,
    progress: Option<&Progress<'_, R>>,
    commits: &mut StagedCommits<'_, R, F>,
    rest: Rest<'_>,
    output: &mut W,
    errors: &mut E,
) -> Result<u8, Failure>
    requires ready { T.seen work.old }
    requires same { system_of commits.old.way ≡ rt.now }
    ensures done { IfOk result (λ status. T.prints work.old (R.text rt.now) rest.entry.devices
        (W.contents output.old) (W.contents output.new) status) }
    ensures kept { IfOk result (λ status. (left : LeftLine) × T.leaves work.old (R.text rt.now) rest.entry.devices
        (W.contents output.old) (W.contents output.new) status left
        × IsLeft (λ c. HoldsLineOf F.LineFolder c.line) commits.old commits.new left) }
    ensures lasting { KeepsFileOf F.LineFolder commits.old.line commits.new.line }
    ensures blames { IfErr result BlamesNone }
    ensures system { IfErr result (IsS1For (((R.refuses rt.now ≡ true) ⊎ T.fails work.old)
        ⊎ LineFails F.LineFolder commits.old.line)) }
{
    let data = staged(rt.alloc(), unopened.data_store, Which::Data)?;
    let hash = staged(rt.alloc(), unopened.hash_store, Which::Hash)?;
    let over = Unopened {
        line: unopened.line,
        data_store: data,
        hash_store: hash,
        offset: unopened.offset,
    };
    run_staged(rt, work, over, progress, commits, rest, output, errors)
}

/// A store over which nothing is staged yet. E6 of this store where it has more than 2^41 blocks.
fn staged<S: OverFile>(alloc: Global, store: S, which: Which) -> Result<Staged<S>, EditFault>
    ensures { IfErr result (λ e. e ≡ EditFault.Store which) }
{
    match Staged::new(alloc, store) {
        Ok(staged) => Ok(staged),
        Err(_) => Err(EditFault::Store(which)),
    }
}

/// Opens two staged stores under a table line, or reads them whole, and does the work. The meter's line is cleared in between.
fn run_staged<
    R: Paths + Clock + Eprint + AllocGlobal,
    F: LineFolder,
    T: Work,
    D: StagedFile,
    H: StagedFile,
    W: Write,
    E: Write,
>(
    rt: &R,
    work: &mut T,
    unopened: Unopened<D, H>,
    progress: Option<&Progress<'_, R>>,
    commits: &mut StagedCommits<'_, R, F>,
    rest: Rest<'_>,
    output: &mut W,
    errors: &mut E,
) -> Result<u8, Failure>
    requires ready { T.seen work.old }
    requires same { system_of commits.old.way ≡ rt.now }
    ensures done { IfOk result (λ status. T.prints work.old (R.text rt.now) rest.entry.devices
        (W.contents output.old) (W.contents output.new) status) }
    ensures kept { IfOk result (λ status. (left : LeftLine) × T.leaves work.old (R.text rt.now) rest.entry.devices
        (W.contents output.old) (W.contents output.new) status left
        × IsLeft (λ c. HoldsLineOf F.LineFolder c.line) commits.old commits.new left) }
    ensures lasting { KeepsFileOf F.LineFolder commits.old.line commits.new.line }
    ensures blames { IfErr result BlamesNone }
    ensures system { IfErr result (IsS1For (((R.refuses rt.now ≡ true) ⊎ T.fails work.old)
        ⊎ LineFails F.LineFolder commits.old.line)) }
{
    let Unopened {
        line,
        data_store,
        hash_store,
        offset,
    } = unopened;
    match line {
        Some(table) => {
            let opened = open_under(rt.alloc(), data_store, hash_store, table);
            run_by(rt, work, opened, commits, rest, output, errors)
        }
        None => {
            let opened = open_whole(rt.alloc(), data_store, hash_store, offset);
            end_progress(progress);
            run_by(rt, work, opened, commits, rest, output, errors)
        }
    }
}
