//! What a fault of a pull is refused with.
ghost use Rattle.std.specs.Prelude.{◌≡◌};
ghost use Rattle.cli_pull.specs.Faults.{failure_by};

use cli_faults::Failure;
use verity_build::BuildFault;
use verity_check::CheckFault;
use verity_pull::{PullFault, Role};
use verity_store::Which;

/// V1 where a store isn't one of the line, V2 and the place, V3 of the source, U2 of a local store; or want of memory.
pub fn failure_of(fault: PullFault) -> Failure
    ensures { result ≡ failure_by fault }
{
    match fault {
        PullFault::Store(Role::LocalData) => BuildFault::Store(Which::Data).into(),
        PullFault::Store(Role::LocalHash) => BuildFault::Store(Which::Hash).into(),
        PullFault::Store(Role::SourceData) => CheckFault::Store(Which::Data).into(),
        PullFault::Store(Role::SourceHash) => CheckFault::Store(Which::Hash).into(),
        PullFault::Wrong(place) => CheckFault::Mismatch(place).into(),
        PullFault::Unsuited(_) => CheckFault::Lengths.into(),
        PullFault::NoMemory => Failure::NoMemory,
    }
}
