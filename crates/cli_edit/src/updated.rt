//! What an update prints.

ghost use Rattle.std.specs.Prelude.{OnOk, IfErr};
ghost use Rattle.std.specs.Io.KnownBytes.{Appends};
ghost use Rattle.cli_volume.specs.Lines.{volume_line};
ghost use Rattle.cli_edit.specs.Printed.{EndsAnswers, update_lines};

use cli_faults::Failure;
use cli_volume::{Devices, committed_line};
use std::alloc::Global;
use std::io::Write;
use verity_digest::Digest;
use verity_superblock::Superblock;

/// Prints how many blocks an update wrote or added, and the table line of its commit. It fails only for want of memory, where there is
/// no table line, or where the output can't be written.
pub fn print_update<W: Write>(
    alloc: Global,
    changed: u64,
    devices: Devices<'_>,
    superblock: &Superblock,
    root: Digest,
    output: &mut W,
) -> Result<(), Failure>
    ensures printed { OnOk result (Appends (W.contents output.old) (W.contents output.new)
        (update_lines changed (volume_line devices.entry superblock.now root))) }
    ensures ended { IfErr result EndsAnswers }
{
    let line = committed_line(alloc, devices, superblock, root)?;
    writeln!(output, "changed {changed}")?;
    writeln!(output, "committed {line}")?;
    Ok(())
}
