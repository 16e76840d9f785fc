//! Why there is no geometry.
use std::fmt;
use thiserror::Error;

/// Why there is no geometry of these sizes and this count.
#[derive(Clone, Copy, Debug, PartialEq, Eq, Error)]
pub enum GeometryFault {
    /// M1: a block size is no power of two from 512 to 524,288.
    BadSize,
    /// M2: the count of data blocks is 0 or over 2^40.
    BadCount,
    /// M3: the size of a digest is neither 32 nor 64.
    DigestSize,
}

impl fmt::Display for GeometryFault {
    ghost use Rattle.std.specs.Prelude.{Some};
    ghost use Rattle.verity_geometry.specs.Texts.{geometry_text};

    ghost output = { λ fault. Some (geometry_text fault) };

    fn fmt<W: fmt::Write>(&self, f: &mut fmt::Formatter<W>) -> fmt::Result {
        match self {
            GeometryFault::BadSize => f.write_str("M1"),
            GeometryFault::BadCount => f.write_str("M2"),
            GeometryFault::DigestSize => f.write_str("M3"),
        }
    }
}
