//! Why the devices of a volume and its journal failed.
ghost use Rattle.std.specs.Prelude.{◌≡◌};
ghost use Rattle.os_journal.specs.Blamed.{laid_to};

use cli_faults::Fault;
use os_files::System;
use verity_disks::{Device, DiskFault};
use verity_edit::EditFault;
use verity_journal::Keeper;
use verity_store::{StoreFault, Which};

/// The fault of a journal or a store: S3 for want of memory, E6 and the store that failed last, else S7.
pub fn fault_of_disks<S: System>(
    system: &S,
    keeper: &Keeper<S::Journalled>,
    fault: DiskFault,
) -> Fault
    ensures { result ≡ laid_to fault (S.failed_last keeper.now.disks) }
{
    match (fault, system.last_failed(keeper.disks())) {
        (DiskFault::NoMemory, _) => Fault::Store(StoreFault::NoMemory),
        (DiskFault::Device, Some(Device::Data)) => Fault::Edit(EditFault::Store(Which::Data)),
        (DiskFault::Device, Some(Device::Hash)) => Fault::Edit(EditFault::Store(Which::Hash)),
        (DiskFault::Device, _) | (DiskFault::Foreign, _) => Fault::Journal,
    }
}
