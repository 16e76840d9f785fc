//! What a store answers where it fails, and which of two stores it was.
ghost use Rattle.std.specs.Prelude.{Some};

use std::fmt;
use thiserror::Error;

/// Why a store refused a call. Its text is its number, `S1` to `S4`.
#[derive(Clone, Copy, Debug, PartialEq, Eq, Error)]
pub enum StoreFault {
    /// S1: the device failed.
    Device,
    /// S2: the length isn't a multiple of the block size.
    Ragged,
    /// S3: memory was refused.
    NoMemory,
    /// S4: not a block size of the profile.
    BlockSize,
}

impl fmt::Display for StoreFault {
    ghost use Rattle.verity_store.specs.Texts.{fault_text};

    ghost output = { λ fault. Some (fault_text fault) };

    fn fmt<W: fmt::Write>(&self, f: &mut fmt::Formatter<W>) -> fmt::Result {
        match self {
            StoreFault::Device => f.write_str("S1"),
            StoreFault::Ragged => f.write_str("S2"),
            StoreFault::NoMemory => f.write_str("S3"),
            StoreFault::BlockSize => f.write_str("S4"),
        }
    }
}

/// Which of two stores: the one of the data blocks or the one of the hash blocks. Its text is `data` or `hash`.
#[derive(Clone, Copy, Debug, PartialEq, Eq)]
pub enum Which {
    /// The data store.
    Data,
    /// The hash store.
    Hash,
}

impl fmt::Display for Which {
    ghost use Rattle.verity_store.specs.Texts.{which_text};

    ghost output = { λ which. Some (which_text which) };

    fn fmt<W: fmt::Write>(&self, f: &mut fmt::Formatter<W>) -> fmt::Result {
        match self {
            Which::Data => f.write_str("data"),
            Which::Hash => f.write_str("hash"),
        }
    }
}
