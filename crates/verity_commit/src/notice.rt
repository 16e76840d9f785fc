//! What is told of a commit before the devices change.
ghost use Rattle.std.specs.Prelude.{IfErr, OnOk};
ghost use Rattle.verity_edit.specs.declared.command.Committed.{Committed};
ghost use Rattle.verity_superblock.specs.Superblock.{Volume};

use verity_edit::{Committed, EditFault};
use verity_superblock::Superblock;

/// What is told of a commit once an editor has made it over its staged stores, and before the first change of the devices.
pub trait Notice {
    /// Why a commit doesn't go on.
    type Fault: Drop;

    /// It was told of a commit that made a volume of this superblock, and lets it go on.
    ghost noted: { Self → Self → Volume → Committed → Type 0 };

    /// It was told of one, and doesn't let it go on for this reason.
    ghost declined: { Self → Self → Self.Fault → Type 0 };

    /// Tells of the commit that made the volume of this superblock.
    fn note(&mut self, superblock: &Superblock, committed: &Committed) -> Result<(), Self::Fault>
        ensures noted { OnOk result (noted self.old self.new superblock.now committed.now) }
        ensures declined { IfErr result (declined self.old self.new) };
}

/// Why a commit of which a notice is told failed.
#[derive(Clone, Copy, Debug, PartialEq, Eq, Drop)]
pub enum NotedFault<F, E> {
    /// The editor's fault. The notice was told of nothing.
    Edit(EditFault),
    /// The notice doesn't let the commit go on.
    Notice(F),
    /// The fault of the devices, once the notice was told.
    Devices(E),
}
