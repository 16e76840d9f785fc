//! The journal beside a hash device.
ghost use Rattle.std.specs.Prelude.{◌≡◌, IfOk, IfErr, string_bytes};
ghost use Rattle.cli_faults.specs.Blames.{journal_fault_of};
ghost use Rattle.os_files.specs.Reached.{BesideAt};

use crate::system::System;
use cli_faults::{Failure, Fault};
use verity_store::StoreFault;

/// The path beside a hash device: its own, of a link that of the file that it leads to, with `.journal` behind it.
pub fn path_beside<S: System>(system: &S, hash_path: &str) -> Result<String, Failure>
    ensures beside { IfOk result (λ path. BesideAt S.System system.now hash_path.now (string_bytes path)) }
    ensures refused { IfErr result (λ e. e ≡ Failure.NoMemory) }
{
    let mut path = system.real_path(hash_path)?;
    path.push_str(".journal")?;
    Ok(path)
}

/// Why a journal isn't opened: S3 for want of memory, S7 for all else.
pub fn journal_fault(fault: StoreFault) -> Fault
    ensures { result ≡ journal_fault_of fault }
{
    match fault {
        StoreFault::NoMemory => Fault::Store(StoreFault::NoMemory),
        _ => Fault::Journal,
    }
}
