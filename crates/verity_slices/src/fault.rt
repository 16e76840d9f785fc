//! Why slices weren't joined.
ghost use Rattle.std.specs.Prelude.{◌≡◌, Some};

use std::fmt;
use thiserror::Error;
use verity_build::BuildFault;

/// Why slices weren't joined. Its text is its number: `J1`, or that of the fault of a build.
#[derive(Clone, Copy, Debug, PartialEq, Eq, Error)]
pub enum JoinFault {
    /// J1: the runs don't have each block of level 0 among them.
    Uncovered,
    /// U1 to U4, as a build.
    Build(BuildFault),
}

impl From<BuildFault> for JoinFault {
    ghost use Rattle.verity_slices.specs.declared.fault.JoinFault.TheVariants as fault;

    ghost from_gives = { λ built joined. joined ≡ fault.Build built };

    /// This fault of a build.
    fn from(built: BuildFault) -> Self {
        JoinFault::Build(built)
    }
}

impl fmt::Display for JoinFault {
    ghost use Rattle.verity_slices.specs.Texts.{join_text};

    ghost output = { λ fault. Some (join_text fault) };

    fn fmt<W: fmt::Write>(&self, f: &mut fmt::Formatter<W>) -> fmt::Result {
        match self {
            JoinFault::Uncovered => f.write_str("J1"),
            JoinFault::Build(fault) => write!(f, "{fault}"),
        }
    }
}
