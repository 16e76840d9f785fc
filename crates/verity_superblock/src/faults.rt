//! Why bytes are no superblock, and why a text is no table line.
ghost use Rattle.std.specs.Prelude.{Some};

use std::fmt;
use thiserror::Error;

/// Why bytes are no superblock of the profile, or values make none.
#[derive(Clone, Copy, Debug, PartialEq, Eq, Error)]
pub enum SuperFault {
    /// B1: fewer than 512 bytes.
    Short,
    /// B2: the signature isn't `verity` and two zero bytes.
    Signature,
    /// B3: the version isn't 1.
    Version,
    /// B4: the hash type isn't 1.
    HashType,
    /// B5: the algorithm's field up to its first zero byte isn't `sha256` or `sha512`.
    Algorithm,
    /// B6: a block size isn't a power of two from 512 to 524,288.
    BadSize,
    /// B7: the count of data blocks is 0 or over 2^40.
    BadCount,
    /// B8: the salt size is over 256.
    SaltSize,
    /// B9: memory was refused.
    NoMemory,
    /// B10: no tree can begin behind a superblock at this byte offset.
    Offset,
}

impl fmt::Display for SuperFault {
    ghost use Rattle.verity_superblock.specs.Texts.{super_text};

    ghost output = { λ fault. Some (super_text fault) };

    fn fmt<W: fmt::Write>(&self, f: &mut fmt::Formatter<W>) -> fmt::Result {
        match self {
            SuperFault::Short => f.write_str("B1"),
            SuperFault::Signature => f.write_str("B2"),
            SuperFault::Version => f.write_str("B3"),
            SuperFault::HashType => f.write_str("B4"),
            SuperFault::Algorithm => f.write_str("B5"),
            SuperFault::BadSize => f.write_str("B6"),
            SuperFault::BadCount => f.write_str("B7"),
            SuperFault::SaltSize => f.write_str("B8"),
            SuperFault::NoMemory => f.write_str("B9"),
            SuperFault::Offset => f.write_str("B10"),
        }
    }
}

/// Why a text is no table line, or values make none.
#[derive(Clone, Copy, Debug, PartialEq, Eq, Error)]
pub enum TableFault {
    /// L1: not ten fields apart by one space each, or an empty one; a path that is empty or holds a
    /// space.
    Fields,
    /// L2: the version isn't the text `1`.
    Version,
    /// L3: one of the four numbers isn't 1 to 20 decimal digits whose value fits 64 bits.
    Number,
    /// L4: a block size isn't a power of two from 512 to 524,288.
    Size,
    /// L5: the count of data blocks is 0 or over 2^40, or the start block is over 2^40.
    Count,
    /// L6: the algorithm is neither `sha256` nor `sha512`.
    Algorithm,
    /// L7: the root hash isn't as many hexadecimal digits as the algorithm's digests have.
    Digest,
    /// L8: the salt is neither `-` nor an even number of hexadecimal digits from 2 to 512.
    Salt,
    /// L9: memory was refused.
    NoMemory,
}

impl fmt::Display for TableFault {
    ghost use Rattle.verity_superblock.specs.Texts.{table_text};

    ghost output = { λ fault. Some (table_text fault) };

    fn fmt<W: fmt::Write>(&self, f: &mut fmt::Formatter<W>) -> fmt::Result {
        match self {
            TableFault::Fields => f.write_str("L1"),
            TableFault::Version => f.write_str("L2"),
            TableFault::Number => f.write_str("L3"),
            TableFault::Size => f.write_str("L4"),
            TableFault::Count => f.write_str("L5"),
            TableFault::Algorithm => f.write_str("L6"),
            TableFault::Digest => f.write_str("L7"),
            TableFault::Salt => f.write_str("L8"),
            TableFault::NoMemory => f.write_str("L9"),
        }
    }
}
