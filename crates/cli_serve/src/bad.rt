//! A place of which READs are refused.
ghost use Rattle.std.specs.Prelude.{◌≡◌, Some};
ghost use Rattle.cli_serve.specs.BadPlaces.{bad_of, unread_of};

use std::fmt;
use verity_check::{CheckFault, Place};
use verity_store::Which;

/// A place of which READs are refused. Its text is for a person, and says which block it is and what is wrong with it.
#[derive(Clone, Copy, Debug, PartialEq, Eq)]
pub enum Bad {
    /// V2: the block at this place isn't the one that the table line vouches for.
    Wrong(Place),
    /// V3: this data block can't be read, or, of the hash store, a hash block above it.
    Unread(Which, u64),
    /// V3: one of the data blocks from the first to the last can't be read, or, of the hash store, a hash block above one of them.
    UnreadAmong {
        /// The store.
        store: Which,
        /// The first data block that the READ touched.
        first: u64,
        /// The last data block that the READ touched.
        last: u64,
    },
}

impl Bad {
    /// The place for which a READ of these data blocks was refused; none where it was refused for another reason.
    pub fn of(fault: CheckFault, first: u64, last: u64) -> Option<Bad>
        ensures { result ≡ bad_of fault first last }
    {
        match fault {
            CheckFault::Mismatch(place) => Some(Bad::Wrong(place)),
            CheckFault::Store(store) => Some(unread(store, first, last)),
            CheckFault::Lengths | CheckFault::NoMemory | CheckFault::CacheSize => None,
        }
    }
}

/// What of this store couldn't be read, of a READ that touches these data blocks.
fn unread(store: Which, first: u64, last: u64) -> Bad
    ensures { result ≡ unread_of store first last }
{
    if first == last {
        Bad::Unread(store, first)
    } else {
        Bad::UnreadAmong { store, first, last }
    }
}

impl fmt::Display for Bad {
    ghost use Rattle.cli_serve.specs.BadPlaces.{bad_text};

    ghost output = { λ bad. Some (bad_text bad) };

    fn fmt<W: fmt::Write>(&self, f: &mut fmt::Formatter<W>) -> fmt::Result {
        match self {
            Bad::Wrong(Place::Data(n)) => write!(
                f,
                "data block {n} isn't the one that the table line vouches for (V2); READs that touch it get EIO"
            ),
            Bad::Wrong(Place::Hash { level, index }) => write!(
                f,
                "hash block {index} of level {level} isn't the one that the table line vouches for (V2); READs of data under it get EIO"
            ),
            Bad::Unread(Which::Data, block) => {
                write!(f, "data block {block} can't be read (V3)")
            }
            Bad::Unread(Which::Hash, block) => {
                write!(
                    f,
                    "a hash block above data block {block} can't be read (V3)"
                )
            }
            Bad::UnreadAmong {
                store: Which::Data,
                first,
                last,
            } => write!(f, "a data block from {first} to {last} can't be read (V3)"),
            Bad::UnreadAmong {
                store: Which::Hash,
                first,
                last,
            } => write!(
                f,
                "a hash block above data blocks {first} to {last} can't be read (V3)"
            ),
        }
    }
}
