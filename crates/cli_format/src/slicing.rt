//! The command `format --slice`: makes the blocks of level 0 of one slice.
ghost use Rattle.std.specs.Prelude.{◌≡◌, IfOk, OnOk};
ghost use Rattle.std.specs.Io.KnownBytes.{Appends};
ghost use Rattle.cli_faults.specs.declared.command.Command.TheVariants as commands;
ghost use Rattle.cli_format.specs.Asked.{run_line};
ghost use Rattle.cli_format.specs.Made.{LiesFor};
ghost use Rattle.cli_format.specs.Opening.{IsOpenedBeside};
ghost use Rattle.cli_format.specs.Sliced.{asked_for, IsLeftBy, IsSliceMade, IsSliced};

use crate::formatting::{Shape, open_data, read_shape};
use cli_arguments::{FormatWords, slice};
use cli_faults::{Command, Failure, Word, check_paths, salt, salt_bytes};
use cli_volume::{end_progress, is_watched, progress_of};
use os_commit_flag::check_gate;
use os_files::{Identity, Part, System, check_apart, check_block_size};
use os_progress::Watched;
use std::alloc::Global;
use std::io::{Eprint, IsTerminal, Write};
use std::time::Clock;
use verity_build::{BuildFault, BuildParameters};
use verity_slice::{Run, Slice};
use verity_slices::build_slice;
use verity_store::{BlockStore, Which};

/// Makes the blocks of level 0 of one slice of HASH, the hash device of DATA, and prints which they are: `slice A B`.
///
/// The arguments are read first, then DATA is opened and locked, HASH opened, or created where its superblock stands at its beginning,
/// and locked beside other slices, and the slice made. HASH is never cut, and a HASH that was created stays, since other slices may be
/// at work in it. Where `errors` is a terminal, it shows how much of DATA was read.
pub fn format_slice<R: Clock + Eprint + AllocGlobal, S: System, W: Write, E: IsTerminal>(
    rt: &R,
    system: &mut S,
    words: &FormatWords<'_>,
    asked: &str,
    output: &mut W,
    errors: &E,
) -> Result<(), Failure>
    ensures printed { OnOk result (IsSliced S.Store.BlockStore
        (LiesFor commands.Slice S.System S.Store.BlockStore system.old words.now.data_path.now)
        (IsLeftBy S.System commands.Slice system.old system.new words.now.hash_path.now)
        words.now asked.now (W.contents output.old) (W.contents output.new)) }
{
    check_paths(words.data_path, words.hash_path)?;
    let slice = slice(asked)?;
    if words.is_joined {
        return Err(Failure::Word(Word::Slice));
    }
    let shape = read_shape(words)?;
    let bytes = salt_bytes(rt.alloc(), words.salt)?;
    let is_watched = is_watched(words.is_quiet, errors.is_terminal());
    let run = make_slice(rt, system, words, &shape, &bytes, slice, is_watched)?;
    print_run(rt.alloc(), run, output)
}

/// Prints which blocks were made. The line is written in one piece, since other slices may print to the same file.
fn print_run<W: Write>(alloc: Global, run: Run, output: &mut W) -> Result<(), Failure>
    ensures printed { OnOk result (Appends (W.contents output.old) (W.contents output.new) (run_line run)) }
{
    let first = run.first;
    let end = run.end;
    let mut line = Vec::new(alloc);
    writeln!(line, "slice {first} {end}")?;
    output.write_all(&line)?;
    Ok(())
}

/// Opens both files, and makes the slice.
fn make_slice<R: Clock + Eprint + AllocGlobal, S: System>(
    rt: &R,
    system: &mut S,
    words: &FormatWords<'_>,
    shape: &Shape,
    salt_bytes: &[u8],
    slice: Slice,
    is_watched: bool,
) -> Result<Run, Failure>
    ensures made { IfOk result (λ run. IsSliceMade S.Store.BlockStore
        (LiesFor commands.Slice S.System S.Store.BlockStore system.old words.now.data_path.now shape.now)
        (IsLeftBy S.System commands.Slice system.old system.new words.now.hash_path.now)
        (asked_for shape.now salt_bytes.now) shape.now.hash_offset slice run) }
{
    let params = BuildParameters::new(salt(rt.alloc(), salt_bytes)?, shape.uuid, shape.algorithm);
    let (data_store, data) = open_data(system, words.data_path, shape, Command::Slice)?;
    check_gate(system, words.hash_path)?;
    let makes = shape.hash_offset == 0;
    let mut hash_store = open_beside(system, words.hash_path, shape, data, Command::Slice, makes)?;
    let offset = shape.hash_offset;
    let run = slice_watched(
        rt,
        is_watched,
        data_store,
        &mut hash_store,
        &params,
        offset,
        slice,
    )?;
    system.close(words.hash_path, hash_store)?;
    Ok(run)
}

/// A store over HASH as it stands, which is another file than DATA, opened and locked for a command; it is created where there is none
/// and `makes` says so.
pub(crate) fn open_beside<S: System>(
    system: &mut S,
    path: &str,
    shape: &Shape,
    data: Identity,
    command: Command,
    makes: bool,
) -> Result<S::Store, Failure>
    ensures opened { IfOk result (λ target. IsOpenedBeside S.System command system.old path.now «data» target system.new) }
    ensures size { IfOk result (λ target. S.Store.size target ≡ shape.now.hash_block_size) }
{
    check_block_size(shape.hash_block_size)?;
    let (hash, _is_new) = system.open_to_write(path, makes)?;
    check_apart(data, system.identity_of(&hash))?;
    system.lock(&hash, command.lock(), Which::Hash)?;
    Ok(system.store(hash, Part::AtMost(u64::MAX), shape.hash_block_size)?)
}

/// Makes the slice, which is shown where someone looks on.
fn slice_watched<R: Clock + Eprint + AllocGlobal, D: BlockStore + Drop>(
    rt: &R,
    is_watched: bool,
    data_store: D,
    hash_store: &mut D,
    params: &BuildParameters,
    offset: u64,
    slice: Slice,
) -> Result<Run, BuildFault>
    ensures { IfOk result (λ run. IsSliceMade D.BlockStore (λ source. source ≡ data_store)
        (λ target target'. (target ≡ hash_store.old) × (target' ≡ hash_store.new)) params.now offset slice run) }
{
    let progress = progress_of(rt, is_watched, &data_store);
    let mut data_store = Watched::new(data_store, progress.as_ref());
    let made = build_slice(
        rt.alloc(),
        &mut data_store,
        hash_store,
        params,
        offset,
        slice,
    );
    end_progress(progress.as_ref());
    let run = made?;
    Ok(run)
}
