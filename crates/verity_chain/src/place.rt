//! Places of a volume.
ghost use Rattle.std.specs.Prelude.{Some};

use std::fmt;

/// The place of a block. Its text is `data N` or `level L index I`.
#[derive(Clone, Copy, Debug, PartialEq, Eq)]
pub enum Place {
    /// A data block, by its number.
    Data(u64),
    /// A hash block, by its level, from level 0 up, and its index in it.
    Hash {
        /// The level; level 0 holds the digests of the data blocks.
        level: usize,
        /// The index within the level.
        index: u64,
    },
}

impl fmt::Display for Place {
    ghost use Rattle.verity_chain.specs.Texts.{place_text};

    ghost output = { λ place. Some (place_text place) };

    fn fmt<W: fmt::Write>(&self, f: &mut fmt::Formatter<W>) -> fmt::Result {
        match self {
            Place::Data(n) => write!(f, "data {n}"),
            Place::Hash { level, index } => write!(f, "level {level} index {index}"),
        }
    }
}
