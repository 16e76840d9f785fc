//! Why an update is refused.

use std::alloc::AllocError;
use thiserror::Error;
use verity_edit::EditFault;

/// Why an update is refused.
#[derive(Clone, Copy, Debug, PartialEq, Eq, Error, Drop)]
pub enum UpdateFault {
    /// A read of NEW failed.
    #[error("S1")]
    New,
    /// The editor's; or the hash store's, as the editor would say it.
    #[error("{0}")]
    Edit(EditFault),
}

impl From<EditFault> for UpdateFault {
    ghost use Rattle.std.specs.Prelude.{◌≡◌};
    ghost use Rattle.verity_update.specs.declared.fault.UpdateFault.TheVariants.{Edit};

    ghost from_gives = { λ fault f. f ≡ Edit fault };

    fn from(fault: EditFault) -> UpdateFault {
        UpdateFault::Edit(fault)
    }
}

impl From<AllocError> for UpdateFault {
    ghost use Rattle.std.specs.Prelude.{◌≡◌};
    ghost use Rattle.verity_update.specs.declared.fault.UpdateFault.TheVariants.{Edit};
    ghost use Rattle.verity_pending.specs.declared.fault.EditFault.TheVariants as fault;

    ghost from_gives = { λ _ f. f ≡ Edit fault.NoMemory };

    fn from(_refused: AllocError) -> UpdateFault {
        UpdateFault::Edit(EditFault::NoMemory)
    }
}
