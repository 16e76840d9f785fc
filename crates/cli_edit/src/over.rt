//! A volume, opened to be edited, and its journal.
ghost use Rattle.std.specs.Prelude.{◌≡◌, ◌⊎◌, true, Ok, IfSome, IfOk, IfErr, OnOk, string_bytes};
ghost use Rattle.cli_faults.specs.declared.failure.Word.TheVariants as word;
ghost use Rattle.os_host.specs.declared.opening.Opened.{Opened};
ghost use Rattle.cli_faults.specs.Errors.{IsOfSystem, IsS1For};
ghost use Rattle.os_commit_flag.specs.Refusals.{BlamesNone, BlamesAtMost};
ghost use Rattle.cli_edit.specs.Journals.{IsJournalPath, IsOneOf};
ghost use Rattle.cli_edit.specs.LineFiles.{FileFails, IsKeptAt, IsLeftAt};
ghost use Rattle.cli_volume.specs.Kept.{system_of};
ghost use Rattle.cli_edit.specs.Work.{BlamesOver, BlamesOwn, IsDoneAt, IsReasonAt, LeavesAsBefore, PrintsAsBefore};

use crate::line_files::{check_line_file, close_file, kept_line};
use crate::ways::{Given, do_in_place, do_staged};
use crate::work::{Words, Work};
use cli_arguments::{explain_no_journal, explain_recovered};
use cli_faults::Failure;
use cli_volume::{InPlace, Journalled, StagedCommits, Way, open_both};
use os_commit_flag::check_other_gate;
use os_files::System;
use os_host::{Host, Opened, Paths, VolumeStore};
use os_journal::{FileKeeper, journal_path, recover_at, volume_names};
use os_line_file::LineFolders;
use std::io::{Eprint, Write};
use std::time::Clock;
use verity_store::{BlockStore, StoreFault};
use verity_superblock::Table;

/// Opens both files and tells them apart, makes whole what stands in the journal, opens the volume, and does the work.
///
/// Where FILE is named, it is none of these files. Once the journal is whole, FILE.next is settled, and FILE's line, where it is there, is
/// trusted; each commit leaves its own line there. Without a journal commits are staged in memory then, and written in place.
pub fn do_over<
    'r,
    R: Paths + Clock + Eprint + AllocGlobal,
    L: LineFolders,
    T: Work,
    W: Write,
    E: Write,
>(
    rt: &'r R,
    folders: &mut L,
    words: &Words<'_>,
    work: &mut T,
    output: &mut W,
    errors: &mut E,
) -> Result<u8, Failure>
    ensures done { IfOk result (λ status. IsDoneAt (T.prints work.old (R.text rt.now)) words.now.data_path.now words.now.hash_path.now
        (W.contents output.old) (W.contents output.new) status) }
    ensures kept { IfOk result (λ status. IsKeptAt R.Paths ⟦<Host<'r, R> as System>⟧ ⟦<VolumeStore as BlockStore>⟧ L.LineFolders
        L.Folder.LineFolder rt.now words.now.data_path.now words.now.hash_path.now folders.old folders.new words.now.table_file
        (T.leaves work.old (R.text rt.now)) (W.contents output.old) (W.contents output.new) status) }
    ensures left { IfErr result (IsLeftAt R.Paths ⟦<Host<'r, R> as System>⟧ ⟦<VolumeStore as BlockStore>⟧ L.LineFolders
        L.Folder.LineFolder rt.now words.now.data_path.now words.now.hash_path.now folders.old folders.new words.now.table_file) }
    ensures blames { IfErr result (BlamesOver R.Paths rt.now words.now T.blamed (IsReasonAt (T.reason work.old (R.opens rt.now))
        (R.opens rt.now) words.now.data_path.now words.now.hash_path.now)) }
    ensures system { IfErr result (IsS1For (((R.refuses rt.now ≡ true) ⊎ T.fails work.old)
        ⊎ FileFails L.LineFolders L.Folder.LineFolder folders.old words.now.table_file)) }
{
    let line = match words.table {
        Some(text) => Some(Table::parse(rt.alloc(), text)?),
        None => None,
    };
    let (data, hash) = open_both(rt, words.data_path, words.hash_path, words.command)?;
    let given = Given { line, data, hash };
    begin(rt, words, work, &given.data, &given.hash)?;
    let path = journal_of(rt, words, &given.hash)?;
    check_line_file(rt, words, &path)?;
    match path {
        Some(path) => do_through(rt, folders, words, work, &path, given, output, errors),
        None => {
            if words.journal.is_none() {
                explain_no_journal(words.hash_path, errors);
            }
            do_without(rt, folders, words, work, given, output, errors)
        }
    }
}

/// Begins the work over what was opened at both paths, of which DATA may be missing.
fn begin<R: Paths + AllocGlobal, T: Work>(
    rt: &R,
    words: &Words<'_>,
    work: &mut T,
    data: &Result<Opened, StoreFault>,
    hash: &Opened,
) -> Result<(), Failure>
    requires data { IfOk «data».now (R.opens rt.now words.now.data_path.now) }
    requires hash { R.opens rt.now words.now.hash_path.now hash.now }
    ensures begun { OnOk result (T.begun work.new) }
    ensures prints { PrintsAsBefore T.prints work.old work.new }
    ensures leaves { LeavesAsBefore T.leaves work.old work.new }
    ensures fails { T.fails work.new → T.fails work.old }
    ensures blames { IfErr result (BlamesOwn T.blamed (IsReasonAt (T.reason work.old (R.opens rt.now)) (R.opens rt.now)
        words.now.data_path.now words.now.hash_path.now)) }
    ensures system { IfErr result (IsS1For ((R.refuses rt.now ≡ true) ⊎ T.fails work.old)) }
{
    match data {
        Ok(image) => work.begin(rt, Some(image), hash),
        Err(_) => work.begin(rt, None, hash),
    }
}

/// The path of the journal, if there is to be one. S6 where one is named, and a commit is under way in another.
fn journal_of<R: Paths + AllocGlobal>(
    rt: &R,
    words: &Words<'_>,
    hash: &Opened,
) -> Result<Option<String>, Failure>
    ensures path { IfOk result (λ path. IfSome path (λ path. IsJournalPath R.Paths rt.now words.now.journal words.now.hash_path.now
        (string_bytes path))) }
    ensures refused { IfErr result BlamesNone }
    ensures system { IfErr result (IsS1For ⊥) }
{
    let host = Host::new(rt);
    if let Some(named) = words.journal {
        check_other_gate(&host, words.hash_path, named)?;
    }
    journal_path(&host, words.journal, hash.identity, words.hash_path)
}

/// Works through a journal, which is removed at the end where its gate is closed.
fn do_through<
    'r,
    R: Paths + Clock + Eprint + AllocGlobal,
    L: LineFolders,
    T: Work,
    W: Write,
    E: Write,
>(
    rt: &'r R,
    folders: &mut L,
    words: &Words<'_>,
    work: &mut T,
    path: &str,
    given: Given,
    output: &mut W,
    errors: &mut E,
) -> Result<u8, Failure>
    requires ready { T.begun work.old }
    requires data { IfOk given.«data» (R.opens rt.now words.now.data_path.now) }
    requires hash { R.opens rt.now words.now.hash_path.now given.hash }
    requires missing { IfErr given.«data» (IsOfSystem (R.refuses rt.now ≡ true)) }
    ensures done { IfOk result (λ status. IsDoneAt (T.prints work.old (R.text rt.now)) words.now.data_path.now words.now.hash_path.now
        (W.contents output.old) (W.contents output.new) status) }
    ensures kept { IfOk result (λ status. IsKeptAt R.Paths ⟦<Host<'r, R> as System>⟧ ⟦<VolumeStore as BlockStore>⟧ L.LineFolders
        L.Folder.LineFolder rt.now words.now.data_path.now words.now.hash_path.now folders.old folders.new words.now.table_file
        (T.leaves work.old (R.text rt.now)) (W.contents output.old) (W.contents output.new) status) }
    ensures left { IfErr result (IsLeftAt R.Paths ⟦<Host<'r, R> as System>⟧ ⟦<VolumeStore as BlockStore>⟧ L.LineFolders
        L.Folder.LineFolder rt.now words.now.data_path.now words.now.hash_path.now folders.old folders.new words.now.table_file) }
    ensures word { IfErr result (λ e. e ≡ Failure.Word word.Journal → (image : Opened) × (given.«data» ≡ Ok image)
        × IsOneOf R.Paths rt.now path.now image.identity given.hash.identity) }
    ensures refused { IfErr result (BlamesAtMost word.Journal) }
    ensures system { IfErr result (IsS1For (((R.refuses rt.now ≡ true) ⊎ T.fails work.old)
        ⊎ FileFails L.LineFolders L.Folder.LineFolder folders.old words.now.table_file)) }
{
    let Given { line, data, hash } = given;
    let Ok(data) = data else {
        return do_in_place(rt, words, work, Given { line, data, hash }, output, errors);
    };
    let host = Host::new(rt);
    let names = volume_names(
        &host,
        data.identity,
        words.data_path,
        hash.identity,
        words.hash_path,
    )?;
    let way = Way::Journalled(journalled(rt, words, path, &names, &data, &hash, errors)?);
    let files = Both { line, data, hash };
    do_by(rt, folders, words, work, way, files, output, errors)
}

/// Works without a journal: on the files themselves, or, where FILE is named, by what is staged and written in place.
fn do_without<
    'r,
    R: Paths + Clock + Eprint + AllocGlobal,
    L: LineFolders,
    T: Work,
    W: Write,
    E: Write,
>(
    rt: &'r R,
    folders: &mut L,
    words: &Words<'_>,
    work: &mut T,
    given: Given,
    output: &mut W,
    errors: &mut E,
) -> Result<u8, Failure>
    requires ready { T.begun work.old }
    requires data { IfOk given.«data» (R.opens rt.now words.now.data_path.now) }
    requires hash { R.opens rt.now words.now.hash_path.now given.hash }
    requires missing { IfErr given.«data» (IsOfSystem (R.refuses rt.now ≡ true)) }
    ensures done { IfOk result (λ status. IsDoneAt (T.prints work.old (R.text rt.now)) words.now.data_path.now words.now.hash_path.now
        (W.contents output.old) (W.contents output.new) status) }
    ensures kept { IfOk result (λ status. IsKeptAt R.Paths ⟦<Host<'r, R> as System>⟧ ⟦<VolumeStore as BlockStore>⟧ L.LineFolders
        L.Folder.LineFolder rt.now words.now.data_path.now words.now.hash_path.now folders.old folders.new words.now.table_file
        (T.leaves work.old (R.text rt.now)) (W.contents output.old) (W.contents output.new) status) }
    ensures left { IfErr result (IsLeftAt R.Paths ⟦<Host<'r, R> as System>⟧ ⟦<VolumeStore as BlockStore>⟧ L.LineFolders
        L.Folder.LineFolder rt.now words.now.data_path.now words.now.hash_path.now folders.old folders.new words.now.table_file) }
    ensures refused { IfErr result BlamesNone }
    ensures system { IfErr result (IsS1For (((R.refuses rt.now ≡ true) ⊎ T.fails work.old)
        ⊎ FileFails L.LineFolders L.Folder.LineFolder folders.old words.now.table_file)) }
{
    let Given { line, data, hash } = given;
    match (data, words.table_file) {
        (Ok(data), Some(_)) => {
            let way = Way::InPlace(InPlace::new(rt, rt.again(&data)?, rt.again(&hash)?));
            let files = Both { line, data, hash };
            do_by(rt, folders, words, work, way, files, output, errors)
        }
        (data, _) => do_in_place(rt, words, work, Given { line, data, hash }, output, errors),
    }
}

/// What a work is done over: the table line, where one is trusted, and what was opened at both paths.
#[derive(Drop)]
struct Both {
    line: Option<Table>,
    data: Opened,
    hash: Opened,
}

/// Works by a way of what is staged to the files, once FILE is settled, where it is named. A journal is removed at the end where its
/// gate is closed.
fn do_by<'r, R: Paths + Clock + Eprint + AllocGlobal, L: LineFolders, T: Work, W: Write, E: Write>(
    rt: &'r R,
    folders: &mut L,
    words: &Words<'_>,
    work: &mut T,
    way: Way<'_, R>,
    files: Both,
    output: &mut W,
    errors: &mut E,
) -> Result<u8, Failure>
    requires ready { T.begun work.old }
    requires same { system_of way ≡ rt.now }
    requires data { R.opens rt.now words.now.data_path.now files.«data» }
    requires hash { R.opens rt.now words.now.hash_path.now files.hash }
    ensures done { IfOk result (λ status. IsDoneAt (T.prints work.old (R.text rt.now)) words.now.data_path.now words.now.hash_path.now
        (W.contents output.old) (W.contents output.new) status) }
    ensures kept { IfOk result (λ status. IsKeptAt R.Paths ⟦<Host<'r, R> as System>⟧ ⟦<VolumeStore as BlockStore>⟧ L.LineFolders
        L.Folder.LineFolder rt.now words.now.data_path.now words.now.hash_path.now folders.old folders.new words.now.table_file
        (T.leaves work.old (R.text rt.now)) (W.contents output.old) (W.contents output.new) status) }
    ensures left { IfErr result (IsLeftAt R.Paths ⟦<Host<'r, R> as System>⟧ ⟦<VolumeStore as BlockStore>⟧ L.LineFolders
        L.Folder.LineFolder rt.now words.now.data_path.now words.now.hash_path.now folders.old folders.new words.now.table_file) }
    ensures refused { IfErr result BlamesNone }
    ensures system { IfErr result (IsS1For (((R.refuses rt.now ≡ true) ⊎ T.fails work.old)
        ⊎ FileFails L.LineFolders L.Folder.LineFolder folders.old words.now.table_file)) }
{
    let (kept, own) = match kept_line(rt, folders, words, &files.data, &files.hash) {
        Ok(found) => found,
        Err(failure) => {
            way.end();
            return Err(failure);
        }
    };
    let line = match own {
        Some(own) => Some(own),
        None => files.line,
    };
    let mut commits = StagedCommits::new(way, kept);
    let done = do_staged(rt, words, line, work, &mut commits, output, errors);
    close_file(folders, commits.end());
    done
}

/// The commits through a journal, once what stands in it is made whole.
fn journalled<'a, R: Paths + AllocGlobal, E: Write>(
    rt: &'a R,
    words: &Words<'_>,
    path: &'a str,
    names: &'a str,
    data: &Opened,
    hash: &Opened,
    errors: &mut E,
) -> Result<Journalled<'a, R>, Failure>
    ensures rt { IfOk result (λ commits. commits.rt.now ≡ rt.now) }
    ensures word { IfErr result (λ e. e ≡ Failure.Word word.Journal
        → IsOneOf R.Paths rt.now path.now data.now.identity hash.now.identity) }
    ensures refused { IfErr result (BlamesAtMost word.Journal) }
    ensures system { IfErr result (IsS1For (R.refuses rt.now ≡ true)) }
{
    let keeper = make_whole(rt, words, path, data, hash, names, errors)?;
    let data = rt.seen_again(data)?;
    let hash = rt.seen_again(hash)?;
    Ok(Journalled::new(rt, path, names, data, hash, keeper))
}

/// Makes whole what stands in the journal, which `errors` is told, and answers the journal where it is there.
fn make_whole<R: Paths + AllocGlobal, E: Write>(
    rt: &R,
    words: &Words<'_>,
    path: &str,
    data: &Opened,
    hash: &Opened,
    names: &str,
    errors: &mut E,
) -> Result<Option<FileKeeper>, Failure>
    ensures word { IfErr result (λ e. e ≡ Failure.Word word.Journal
        → IsOneOf R.Paths rt.now path.now data.now.identity hash.now.identity) }
    ensures refused { IfErr result (BlamesAtMost word.Journal) }
    ensures system { IfErr result (IsS1For (R.refuses rt.now ≡ true)) }
{
    let image = rt.again(data)?;
    let device = rt.again(hash)?;
    let Some(found) = recover_at(&mut Host::new(rt), path, image, device, names)? else {
        return Ok(None);
    };
    if found.is_recovered {
        explain_recovered(words.hash_path, errors);
    }
    Ok(Some(found.keeper))
}
