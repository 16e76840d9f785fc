//! The locks on a volume's files.
ghost use Rattle.std.specs.Prelude.{◌≡◌, ◌↔◌, ⊤, IsOk, IfErr, Err};
ghost use Rattle.cli_faults.specs.Errors.{IsOfLock};
ghost use Rattle.os_host.specs.Locks.{told_of};
ghost use Rattle.cli_faults.specs.declared.fault.Fault.TheVariants as fault;

use cli_faults::{Fault, Lock, is_want_of_memory};
use std::fs::{File, TryLockError};
use verity_store::{StoreFault, Which};

/// What the system says of a lock that was asked for.
#[derive(Clone, Copy, Debug, PartialEq, Eq)]
enum Told {
    Locked,
    InUse,
    NoMemory,
    Failed,
}

/// Takes a lock on one of a volume's files, which holds until the file is closed. S5 where another has one that shuts it
/// out; S1 where the system fails, S3 for want of memory.
pub(crate) fn take_lock(file: &File, lock: Lock, which: Which) -> Result<(), Fault>
    ensures open { lock ≡ Lock.Open → IsOk result }
    ensures refused { IfErr result (IsOfLock ⊤ ⊤ which) }
{
    answer(ask(file, lock), which)
}

fn ask(file: &File, lock: Lock) -> Told
    ensures { lock ≡ Lock.Open → result ≡ Told.Locked }
{
    match lock {
        Lock::Open => Told::Locked,
        Lock::Shared => told_by(file.try_lock_shared()),
        Lock::Alone => told_by(file.try_lock()),
    }
}

fn told_by(asked: Result<(), TryLockError>) -> Told
    ensures { result ≡ told_of asked }
{
    match asked {
        Ok(()) => Told::Locked,
        Err(TryLockError::WouldBlock) => Told::InUse,
        Err(TryLockError::Error(error)) if is_want_of_memory(&error) => Told::NoMemory,
        Err(TryLockError::Error(_)) => Told::Failed,
    }
}

fn answer(told: Told, which: Which) -> Result<(), Fault>
    ensures locked { IsOk result ↔ (told ≡ Told.Locked) }
    ensures in_use { (result ≡ Err (fault.InUse which)) ↔ (told ≡ Told.InUse) }
    ensures memory { (result ≡ Err (fault.Store StoreFault.NoMemory)) ↔ (told ≡ Told.NoMemory) }
    ensures refused { IfErr result (IsOfLock ⊤ ⊤ which) }
    ensures failed { (result ≡ Err (fault.Store StoreFault.Device)) ↔ (told ≡ Told.Failed) }
{
    match told {
        Told::Locked => Ok(()),
        Told::InUse => Err(Fault::InUse(which)),
        Told::NoMemory => Err(Fault::Store(StoreFault::NoMemory)),
        Told::Failed => Err(Fault::Store(StoreFault::Device)),
    }
}
