//! Where the two stores' logs stood.
ghost use Rattle.std.specs.Prelude.{◌≡◌, ℕ, length};

use base_count::Mark;
use std::marker::Model;
use verity_store::BlockStore;

/// How many blocks each store had given at some moment. It has no bytes; contracts alone see it.
#[derive(Drop)]
pub(crate) struct Since {
    of_data: Mark,
    of_hash: Mark,
}

impl Model for Since {
    ghost use Rattle.verity_report.specs.Stores.{Marks};

    ghost Value = { Marks };

    ghost view = { λ s. record { of_data = s.of_data.steps; of_hash = s.of_hash.steps } };
}

impl Since {
    /// This moment.
    pub(crate) fn now<D: BlockStore, H: BlockStore>(data_store: &D, hash_store: &H) -> Since
        ensures { result ≡ record { of_data = length (D.given data_store.now); of_hash = length (H.given hash_store.now) } }
    {
        Since {
            of_data: end_of(data_store),
            of_hash: end_of(hash_store),
        }
    }
}

// A mark at the end of what a store gave so far.
fn end_of<S: BlockStore>(_store: &S) -> Mark
    ghost count: { ℕ }
    requires { count ≡ length (S.given _store.now) }
    ensures { result.steps ≡ count }
{
    Mark::at()
}
