//! What was true of a store, kept without bytes.
ghost use Rattle.std.specs.Prelude.{◌≡◌, ℕ, List};
ghost use Rattle.std.specs.Borrow.{ftrue};
ghost use Rattle.verity_chain.specs.Origin.{facts_of, rows_of};

use std::marker::Model;
use verity_store::BlockStore;

/// What was true of a store when this was made, in numbers and lists of bytes. A contract reads it as `rows`; no code can.
#[derive(Drop)]
pub struct Origin {
    pub ghost rows: { List (ℕ × List ℕ) },
}

impl Model for Origin {
    ghost also_owns = { λ _. ftrue };
}

// What is true of a store now.
pub fn origin_of<S: BlockStore>(_store: &S) -> Origin
    ghost rows: { List (ℕ × List ℕ) }
    requires { rows ≡ rows_of (facts_of S.BlockStore _store.now) }
    ensures { result.rows ≡ rows }
{
    origin_at()
}

// An origin of these rows.
fn origin_at() -> Origin
    ghost rows: { List (ℕ × List ℕ) }
    ensures { result.rows ≡ rows }
{
    Origin {}
}
