//! What was true of a store, kept without bytes.
ghost use Rattle.std.specs.Prelude.{◌≡◌, ℕ, List};
ghost use Rattle.std.specs.Borrow.{ftrue};
ghost use Rattle.verity_portion.specs.Portion.{facts_of, rows_of};

use std::marker::Model;
use verity_store::BlockStore;

/// What was true of a store when this was made, in numbers and lists of bytes. A contract reads it as `rows`; no code can.
#[derive(Drop)]
pub struct Past {
    pub ghost rows: { List (ℕ × List ℕ) },
}

impl Model for Past {
    ghost also_owns = { λ _. ftrue };
}

// What is true of a store now.
pub fn past_of<S: BlockStore>(_store: &S) -> Past
    ghost rows: { List (ℕ × List ℕ) }
    requires { rows ≡ rows_of (facts_of S.BlockStore _store.now) }
    ensures { result.rows ≡ rows }
{
    past_at()
}

// A past of these rows.
fn past_at() -> Past
    ghost rows: { List (ℕ × List ℕ) }
    ensures { result.rows ≡ rows }
{
    Past {}
}
