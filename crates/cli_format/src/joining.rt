//! The command `format --join`: makes of slices a hash device.
ghost use Rattle.std.specs.Prelude.{◌≡◌, length, IfOk, OnOk};
ghost use Rattle.cli_faults.specs.declared.command.Command.TheVariants as commands;
ghost use Rattle.verity_superblock.specs.Image.{start_behind};
ghost use Rattle.cli_format.specs.Made.{LiesFor};
ghost use Rattle.cli_format.specs.Sliced.{asked_for, IsJoinMade, IsJoined, IsLeftBy};

use crate::asked::runs_in;
use crate::formatting::{Made, Shape, made_line, open_data, read_shape};
use crate::slicing::open_beside;
use cli_arguments::FormatWords;
use cli_faults::{Command, Failure, Fault, check_paths, salt, salt_bytes};
use os_commit_flag::check_gate;
use os_files::{System, read_script};
use std::alloc::Global;
use std::io::{Read, Write};
use verity_build::BuildParameters;
use verity_digest::Digest;
use verity_slice::Run;
use verity_slices::{JoinFault, build_joined};
use verity_store::BlockStore;
use verity_superblock::tree_start;

/// Makes HASH, the hash device of DATA, of slices, whose lines are read from `input`, and prints the table line.
///
/// The arguments are read first, then the input to its end, then DATA is opened and locked, HASH, which has to be there, opened and
/// locked, and the levels above level 0, the superblock and the length made.
pub fn format_join<S: System, I: Read, W: Write>(
    alloc: Global,
    system: &mut S,
    words: &FormatWords<'_>,
    input: &mut I,
    output: &mut W,
) -> Result<(), Failure>
    ensures printed { OnOk result (IsJoined S.Store.BlockStore
        (LiesFor commands.Format S.System S.Store.BlockStore system.old words.now.data_path.now)
        (IsLeftBy S.System commands.Format system.old system.new words.now.hash_path.now)
        words.now (I.remaining input.old) (W.contents output.old) (W.contents output.new)) }
{
    check_paths(words.data_path, words.hash_path)?;
    let shape = read_shape(words)?;
    let bytes = salt_bytes(alloc, words.salt)?;
    let text = read_script(alloc, input)?;
    let mut runs = runs_in(alloc, &text)?;
    let made = join(alloc, system, words, &shape, &bytes, &mut runs)?;
    let line = made_line(alloc, words, &shape, &made, &bytes)?;
    writeln!(output, "{line}")?;
    Ok(())
}

/// Opens both files, and makes the device.
fn join<S: System>(
    alloc: Global,
    system: &mut S,
    words: &FormatWords<'_>,
    shape: &Shape,
    salt_bytes: &[u8],
    runs: &mut Vec<Run>,
) -> Result<Made, Failure>
    ensures joined { IfOk result (λ made. IsJoinMade S.Store.BlockStore
        (LiesFor commands.Format S.System S.Store.BlockStore system.old words.now.data_path.now shape.now)
        (IsLeftBy S.System commands.Format system.old system.new words.now.hash_path.now)
        (asked_for shape.now salt_bytes.now) shape.now.hash_offset runs.old.items made.data_blocks made.root) }
    ensures start { IfOk result (λ made. made.hash_start_block ≡ start_behind shape.now.hash_offset shape.now.hash_block_size) }
{
    let params = BuildParameters::new(salt(alloc, salt_bytes)?, shape.uuid, shape.algorithm);
    let (data_store, data) = open_data(system, words.data_path, shape, Command::Format)?;
    check_gate(system, words.hash_path)?;
    let mut hash_store = open_beside(system, words.hash_path, shape, data, Command::Format, false)?;
    let hash_size = hash_store.block_size();
    let data_blocks = data_store.len();
    let mut data_store = data_store;
    let offset = shape.hash_offset;
    let root = joined(
        alloc,
        &mut data_store,
        &mut hash_store,
        &params,
        offset,
        runs,
    )?;
    system.close(words.hash_path, hash_store)?;
    Ok(Made {
        data_blocks,
        hash_start_block: tree_start(offset, hash_size)?,
        root,
    })
}

/// Joins slices, and answers the root hash.
fn joined<D: BlockStore>(
    alloc: Global,
    data_store: &mut D,
    hash_store: &mut D,
    params: &BuildParameters,
    offset: u64,
    runs: &mut Vec<Run>,
) -> Result<Digest, Fault>
    ensures { IfOk result (λ digest. IsJoinMade D.BlockStore (λ source. source ≡ data_store.old)
        (λ target target'. (target ≡ hash_store.old) × (target' ≡ hash_store.new)) params.now offset runs.old.items
        (length (D.content data_store.old)) digest) }
{
    match build_joined(alloc, data_store, hash_store, params, offset, runs) {
        Ok(root) => Ok(root),
        Err(JoinFault::Uncovered) => Err(Fault::Uncovered),
        Err(JoinFault::Build(fault)) => Err(Fault::Build(fault)),
    }
}
