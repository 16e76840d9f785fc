//! The run without words: a volume in memory, and a script over it.
ghost use Rattle.std.specs.Prelude.{IfOk, IfErr, OnOk, ◌≡◌, true};
ghost use Rattle.os_commit_flag.specs.Refusals.{BlamesNone};
ghost use Rattle.std.specs.Io.KnownBytes.{Appends};
ghost use Rattle.verity_superblock.specs.Line.{canonical};
ghost use Rattle.cli_faults.specs.Errors.{IsS1For};
ghost use Rattle.cli_faults.specs.Faults.{line};
ghost use Rattle.cli_volume.specs.Lines.{volume_line};
ghost use Rattle.cli_edit.specs.Printing.{IsEdited, IsOfZeros, IsScratch};

use crate::script::{Script, run_script};
use cli_faults::{Failure, salt};
use cli_volume::{Devices, Direct, committed_line};
use os_host::Paths;
use std::alloc::Global;
use std::io::{Read, Write};
use uuid::Uuid;
use verity_build::{BuildParameters, build};
use verity_digest::Algorithm;
use verity_edit::Editor;
use verity_store::MemStore;

const DATA_BLOCK_SIZE: usize = 1024;

const HASH_BLOCK_SIZE: usize = 512;

const DEVICES: Devices<'static> = Devices {
    data_path: "scratch-data",
    hash_path: "scratch-hash",
    hash_start_block: 1,
    data_room: u64::MAX,
    hash_room: u64::MAX,
};

/// Builds a volume of one zero block in memory, prints its table line, and does the input's lines over it.
pub fn scratch<R: Paths + AllocGlobal, I: Read, W: Write, E: Write>(
    rt: &R,
    input: &mut I,
    output: &mut W,
    errors: &mut E,
) -> Result<u8, Failure>
    ensures done { IfOk result (λ status. IsScratch (I.remaining input.old) (W.contents output.old) (W.contents output.new) status) }
    ensures blames { IfErr result BlamesNone }
    ensures system { IfErr result (IsS1For (R.refuses rt.now ≡ true)) }
{
    let editor = zero_volume(rt.alloc())?;
    print_line(rt.alloc(), &editor, DEVICES, output)?;
    answer_all(rt, editor, DEVICES, input, output, errors)
}

/// Does the input's lines over an editor.
fn answer_all<R: Paths + AllocGlobal, I: Read, W: Write, E: Write>(
    rt: &R,
    editor: Editor<MemStore, MemStore>,
    devices: Devices<'_>,
    input: &mut I,
    output: &mut W,
    errors: &mut E,
) -> Result<u8, Failure>
    ensures done { IfOk result (λ status. IsEdited (I.remaining input.old) devices.entry (W.contents output.old)
        (W.contents output.new) status) }
    ensures blames { IfErr result BlamesNone }
    ensures system { IfErr result (IsS1For (R.refuses rt.now ≡ true)) }
{
    let bytes = rt.script_in(rt.alloc(), input)?;
    let script = Script {
        path: "standard input",
        bytes: &bytes,
    };
    run_script(
        rt.alloc(),
        editor,
        &mut Direct,
        devices,
        script,
        output,
        errors,
    )
}

/// Builds the volume of one block of zeros, and opens it.
fn zero_volume(alloc: Global) -> Result<Editor<MemStore, MemStore>, Failure>
    ensures zeros { IfOk result (λ editor. IsOfZeros editor.volume editor.root) }
    ensures blames { IfErr result BlamesNone }
    ensures system { IfErr result (IsS1For ⊥) }
{
    let mut data_store = MemStore::zeroed(alloc, DATA_BLOCK_SIZE, 1)?;
    let mut hash_store = MemStore::zeroed(alloc, HASH_BLOCK_SIZE, 0)?;
    let params = BuildParameters::new(salt(alloc, &[])?, Uuid::nil(), Algorithm::Sha256);
    build(alloc, &mut data_store, &mut hash_store, &params)?;
    match Editor::open(alloc, data_store, hash_store) {
        Ok(editor) => Ok(editor),
        Err(refused) => Err(refused.fault.into()),
    }
}

fn print_line<W: Write>(
    alloc: Global,
    editor: &Editor<MemStore, MemStore>,
    devices: Devices<'_>,
    output: &mut W,
) -> Result<(), Failure>
    ensures printed { OnOk result (Appends (W.contents output.old) (W.contents output.new)
        (line (canonical (volume_line devices.entry editor.now.volume editor.now.root)))) }
    ensures blames { IfErr result BlamesNone }
    ensures system { IfErr result (IsS1For ⊥) }
{
    let line = committed_line(alloc, devices, editor.superblock(), editor.root())?;
    writeln!(output, "{line}")?;
    Ok(())
}
