//! Why nothing was built or compared.
ghost use Rattle.std.specs.Prelude.{◌≡◌, Some};

use std::alloc::AllocError;
use std::fmt;
use thiserror::Error;
use verity_geometry::GeometryFault;
use verity_store::Which;

/// Why a hash device wasn't built, or not compared. Its text is its number, `U1` to `U4`, and that of
/// what it carries.
#[derive(Clone, Copy, Debug, PartialEq, Eq, Error)]
pub enum BuildFault {
    /// U1: there is no tree over the data store's blocks.
    Geometry(GeometryFault),
    /// U2: a call on this store failed.
    Store(Which),
    /// U3: memory was refused.
    NoMemory,
    /// U4: no tree can begin behind a superblock at this byte offset.
    Offset,
}

impl From<Which> for BuildFault {
    ghost use Rattle.verity_build.specs.declared.fault.BuildFault.TheVariants as fault;

    ghost from_gives = { λ which built. built ≡ fault.Store which };

    /// U2 with this store.
    fn from(which: Which) -> Self {
        BuildFault::Store(which)
    }
}

impl From<AllocError> for BuildFault {
    ghost use Rattle.verity_build.specs.declared.fault.BuildFault.TheVariants as fault;

    ghost from_gives = { λ _ built. built ≡ fault.NoMemory };

    /// U3.
    fn from(_refused: AllocError) -> Self {
        BuildFault::NoMemory
    }
}

impl fmt::Display for BuildFault {
    ghost use Rattle.verity_build.specs.Texts.{build_text};

    ghost output = { λ fault. Some (build_text fault) };

    fn fmt<W: fmt::Write>(&self, f: &mut fmt::Formatter<W>) -> fmt::Result {
        match self {
            BuildFault::Geometry(fault) => write!(f, "U1 {fault}"),
            BuildFault::Store(which) => write!(f, "U2 {which}"),
            BuildFault::NoMemory => f.write_str("U3"),
            BuildFault::Offset => f.write_str("U4"),
        }
    }
}
