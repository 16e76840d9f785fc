//! What a script says.
ghost use Rattle.std.specs.Prelude.{IsTrue, ◌↔◌};

use std::alloc::{Allocator, Global};
use verity_store::Block;

/// What a read of a `ScriptStore` answers.
#[derive(Drop)]
pub enum Answer<A: Allocator = Global> {
    /// It gives these bytes.
    Block(Block<A>),
    /// It fails.
    Fault,
}

impl<A: Allocator> Answer<A> {
    ghost use Rattle.test_stores.specs.Script.{IsSized};

    // Its block, if it has one, has this size.
    pub(crate) fn is_sized(&self, size: usize) -> bool
        ensures { IsTrue result ↔ IsSized size self.now }
    {
        match self {
            Answer::Block(block) => block.as_slice().len() == size,
            Answer::Fault => true,
        }
    }
}
