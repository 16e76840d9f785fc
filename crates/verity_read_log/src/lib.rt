//! A log of blocks that contracts see and that takes no bytes when the program runs.
//!
//! A `Given` begins empty, and each `note` adds one block with its number behind those that are there. It has no bytes and
//! costs nothing. There is no error, and nothing takes memory.
//!
//! What it is worth: no call but `new` and `note` changes a log. Whoever holds a `&mut Given` can put a new one, an empty one,
//! in its place, or note what was never given. So it stays a private field of the store whose reads it keeps, where no other
//! code reaches it.
#![tactic(auto)]

ghost use Rattle.std.specs.Prelude.{◌≡◌, ℕ, List, [], ◌∷◌, ◌++◌};
ghost use Rattle.std.specs.Borrow.{ftrue};

use std::marker::Model;

/// Which blocks were given, each after its number, in the order in which they were given. A contract reads them as `blocks`;
/// no code can.
#[derive(Drop)]
pub struct Given {
    pub ghost blocks: { List (ℕ × List ℕ) },
}

impl Model for Given {
    ghost also_owns = { λ _. ftrue };
}

impl Given {
    /// A log of nothing.
    pub fn new() -> Given
        ensures { result.blocks ≡ [] }
    {
        given_at()
    }

    /// Adds this block with its number.
    pub fn note(&mut self, n: u64, block: &[u8])
        ensures { self.new.blocks ≡ self.old.blocks ++ (n, block.now) ∷ [] }
    {
        *self = self.next(n, block);
    }

    // A log with one block more than this one.
    fn next(&self, n: u64, block: &[u8]) -> Given
        ensures { result.blocks ≡ self.now.blocks ++ (n, block.now) ∷ [] }
    {
        next_after(self, n, block)
    }
}

// A log of these blocks.
fn next_after(_given: &Given, _n: u64, _block: &[u8]) -> Given
    ghost blocks: { List (ℕ × List ℕ) }
    ensures { result.blocks ≡ blocks }
{
    given_at()
}

// A log of these blocks. Only `new` and `next` reach it, so no other code makes a log that holds any.
fn given_at() -> Given
    ghost blocks: { List (ℕ × List ℕ) }
    ensures { result.blocks ≡ blocks }
{
    Given {}
}
