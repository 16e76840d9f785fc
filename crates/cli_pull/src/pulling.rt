//! The command `pull`.
ghost use Rattle.std.specs.Prelude.{◌≡◌, ◌≤◌, ◌^◌, ◌+◌, length, IfOk, OnOk};
ghost use Rattle.std.specs.Io.KnownBytes.{Appends};
ghost use Rattle.verity_chain.specs.Table.{tree_len};
ghost use Rattle.verity_superblock.specs.Line.{IsTableLine};
ghost use Rattle.cli_pull.specs.Printed.{pulled_text, IsDoneBy, IsFilled, IsMade, IsPulledThere, IsReady};
ghost use Rattle.cli_pull.specs.Words.{own_line, IsAsked, IsElsewhere};

use crate::faults::failure_of;
use crate::line::{Asked, old_root, read_asked, tree_at};
use crate::local::{Local, look_at_local, open_local, unmake};
use crate::meter::Pace;
use crate::source::{Source, open_source};
use crate::superblock::superblock_of;
use cli_arguments::{PullWords, explain_recovered, explain_unused_line};
use cli_faults::{Failure, Fault, check_paths};
use os_commit_flag::check_gate;
use os_files::System;
use os_journal::recover_volume;
use os_progress::Watched;
use std::alloc::Global;
use std::io::{Eprint, IsTerminal, Write};
use std::time::Clock;
use verity_chain::Tree;
use verity_moved::Moved;
use verity_pull::{Counts, pull_either};
use verity_store::BlockStore;
use verity_superblock::Table;

/// Makes DATA and HASH the volume of the line `--to`, from the devices that it names, and prints how many data blocks were fetched and
/// kept, and the line of the volume.
///
/// The words are read first, and a commit that a crash cut short in HASH's journal is recovered; then the source is opened, DATA and HASH
/// are opened or made, told apart from the source and locked. DATA and HASH that were made are removed where nothing was written to them.
/// Where `errors` is a terminal, it shows how far it is.
pub fn pull<R: Clock + Eprint + AllocGlobal, S: System, W: Write, E: Write + IsTerminal>(
    rt: &R,
    system: &mut S,
    words: &PullWords<'_>,
    output: &mut W,
    errors: &mut E,
) -> Result<(), Failure>
    ensures pulled { OnOk result (IsPulledThere S.System S.Store.BlockStore S.Journalled.Disks ⟦<Moved<S::Store> as BlockStore>⟧
        system.old system.new words.now (W.contents output.old) (W.contents output.new)) }
{
    let read = prepare(rt.alloc(), words)?;
    let (asked, tree) = read;
    let mut tree = tree;
    let text = tree.table().text()?;
    let counts = fill(rt, system, words, &asked, &mut tree, errors)?;
    print_pulled(counts, &text, output)
}

/// Reads the words: what they ask for, and the tree of the line of the volume that is made.
pub(crate) fn prepare(alloc: Global, words: &PullWords<'_>) -> Result<(Asked, Tree), Failure>
    ensures asked { IfOk result (λ read. IsAsked words.now read.0) }
    ensures line { IfOk result (λ read. read.1 ≡ own_line words.now read.0) }
    ensures profile { IfOk result (λ read. IsTableLine read.1) }
    ensures near { IfOk result (λ read. read.0.start ≤ 2 ^ 40) }
{
    check_paths(words.data_path, words.hash_path)?;
    let asked = read_asked(alloc, words)?;
    let tree = tree_at(
        alloc,
        &asked.to,
        words.data_path,
        words.hash_path,
        asked.start,
    )?;
    Ok((asked, tree))
}

/// Looks whether the source can be opened, and DATA and HASH, where they are there, with the faults that these have. Nothing is changed.
pub(crate) fn look_first<S: System>(
    system: &S,
    words: &PullWords<'_>,
    asked: &Asked,
    tree: &Tree,
) -> Result<(), Failure> {
    let opened = open_source(system, &asked.to, source_end(&asked.to, tree))?;
    look_at_local(system, words, &opened)
}

/// Recovers a commit that was cut short, opens the four files and pulls: all that is done to the volume's files.
pub(crate) fn fill<R: Clock + Eprint + AllocGlobal, S: System, E: Write + IsTerminal>(
    rt: &R,
    system: &mut S,
    words: &PullWords<'_>,
    asked: &Asked,
    tree: &mut Tree,
    errors: &mut E,
) -> Result<Counts, Failure>
    requires line { tree.old ≡ own_line words.now asked.now }
    requires near { asked.now.start ≤ 2 ^ 40 }
    ensures made { IfOk result (IsMade S.System S.Store.BlockStore S.Journalled.Disks ⟦<Moved<S::Store> as BlockStore>⟧ system.old
        system.new words.now asked.now) }
    ensures same { tree.new ≡ tree.old }
{
    let is_recovered = recover_first(system, words)?;
    tell_recovered(is_recovered, words.hash_path, errors);
    pull_files(rt, system, words, asked, tree, errors)
}

/// Prints the counts, and the line of the volume.
pub(crate) fn print_pulled<W: Write>(
    counts: Counts,
    line: &str,
    output: &mut W,
) -> Result<(), Failure>
    ensures printed { OnOk result (Appends (W.contents output.old) (W.contents output.new) (pulled_text counts line.now)) }
{
    let Counts { fetched, kept } = counts;
    writeln!(output, "fetched {fetched}")?;
    writeln!(output, "kept {kept}")?;
    writeln!(output, "pulled {line}")?;
    Ok(())
}

/// Recovers the volume at the paths of DATA and HASH where the commit flag of the journal beside HASH is open. It tells whether it was.
fn recover_first<S: System>(system: &mut S, words: &PullWords<'_>) -> Result<bool, Failure>
    ensures ready { OnOk result (IsReady S.System S.Journalled.Disks system.old system.new words.now) }
{
    match check_gate(system, words.hash_path) {
        Err(Failure::Refused(Fault::UnderWay)) => {
            recover_volume(system, words.data_path, words.hash_path, None)
        }
        checked => {
            checked?;
            Ok(false)
        }
    }
}

/// Says so, where a commit was recovered.
fn tell_recovered<E: Write>(is_recovered: bool, hash_path: &str, errors: &mut E) {
    if is_recovered {
        explain_recovered(hash_path, errors);
    }
}

/// Opens the four files, pulls, and closes DATA and HASH. Either of them that was made is removed where nothing was written to it.
fn pull_files<R: Clock + Eprint + AllocGlobal, S: System, E: Write + IsTerminal>(
    rt: &R,
    system: &mut S,
    words: &PullWords<'_>,
    asked: &Asked,
    tree: &mut Tree,
    errors: &mut E,
) -> Result<Counts, Failure>
    requires line { tree.old ≡ own_line words.now asked.now }
    requires near { asked.now.start ≤ 2 ^ 40 }
    ensures filled { IfOk result (IsFilled S.System S.Store.BlockStore ⟦<Moved<S::Store> as BlockStore>⟧ system.old system.new words.now
        asked.now) }
    ensures same { tree.new ≡ tree.old }
{
    let source = open_source(system, &asked.to, source_end(&asked.to, tree))?;
    check_gate(system, words.hash_path)?;
    let local = open_local(system, words, tree, &source)?;
    let Local {
        data_store,
        hash_store,
        makes_data,
        makes_hash,
    } = local;
    let mut data_store = data_store;
    let mut hash_store = hash_store;
    match pull_watched(
        rt,
        asked,
        tree,
        &mut data_store,
        &mut hash_store,
        source,
        errors,
    ) {
        Ok(counts) => {
            system.close(words.data_path, data_store)?;
            system.close(words.hash_path, hash_store)?;
            Ok(counts)
        }
        Err(failure) => {
            drop(data_store);
            drop(hash_store);
            unmake(system, words, makes_data, makes_hash);
            Err(failure)
        }
    }
}

/// The number in the source's hash device behind the tree's last block.
fn source_end(to: &Table, tree: &Tree) -> u64
    ensures { result ≡ to.now.hash_start_block + tree_len tree.now }
{
    let blocks = tree.end() - tree.table().hash_start_block();
    to.hash_start_block() + blocks
}

/// Pulls from a source into two stores, which someone may look at.
fn pull_watched<R: Clock + Eprint + AllocGlobal, D: BlockStore + Drop, E: Write + IsTerminal>(
    rt: &R,
    asked: &Asked,
    tree: &mut Tree,
    data_store: &mut D,
    hash_store: &mut D,
    source: Source<D>,
    errors: &mut E,
) -> Result<Counts, Failure>
    requires line { IsElsewhere asked.now.to tree.old }
    ensures done { IfOk result (IsDoneBy D.BlockStore ⟦<Moved<D> as BlockStore>⟧ asked.now tree.old data_store.old data_store.new
        hash_store.old hash_store.new source.data_store source.hash_store) }
    ensures same { tree.new ≡ tree.old }
{
    let Source {
        data_store: source_data,
        hash_store: source_hash,
        ..
    } = source;
    let mut source_data = source_data;
    let mut source_hash = source_hash;
    let superblock = superblock_of(rt.alloc(), asked, tree, hash_store, &mut source_hash)?;
    let old = old_root(&asked.old, tree, data_store.len(), hash_store.len());
    if asked.old.is_some() && old.is_none() {
        explain_unused_line(errors);
    }
    let here = tree.table().hash_start_block();
    let count = tree.end() - here;
    let there = asked.to.hash_start_block();
    let pace = Pace::new(rt, !asked.is_quiet && errors.is_terminal(), tree);
    let mut source_hash = Watched::new(Moved::new(source_hash, here, there, count), &pace);
    let pulled = pull_either(
        rt.alloc(),
        tree,
        old,
        &superblock,
        data_store,
        hash_store,
        &mut source_data,
        &mut source_hash,
    );
    pace.end();
    match pulled {
        Ok(counts) => Ok(counts),
        Err(fault) => Err(failure_of(fault)),
    }
}
