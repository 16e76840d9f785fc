//! What stands at a path, opened to be read.
ghost use Rattle.std.specs.Prelude.{◌≡◌, true, IfOk, IfErr};
ghost use Rattle.cli_faults.specs.Commands.{lock_of};
ghost use Rattle.cli_faults.specs.Errors.{IsOfLock};
ghost use Rattle.os_files.specs.Reached.{IsShutOutAt};

use crate::system::System;
use cli_faults::{Command, Fault};
use verity_store::Which;

/// Opens one of a volume's files for a command that only reads it, and takes the command's lock. S1 where it isn't there, or is neither a
/// file nor a block device, which is not waited for; S3 for want of memory; S5 where another program has a lock that shuts it out.
pub fn open_to_read<S: System>(
    system: &S,
    path: &str,
    command: Command,
    which: Which,
) -> Result<S::File, Fault>
    ensures opened { IfOk result (S.opens system.now path.now) }
    ensures locked { IfOk result (λ file. S.locks system.now file (lock_of command)) }
    ensures refused { IfErr result (IsOfLock (S.refuses system.now ≡ true) (IsShutOutAt S.System system.now path.now (lock_of command))
        which) }
{
    let file = system.open(path)?;
    system.lock(&file, command.lock(), which)?;
    Ok(file)
}
