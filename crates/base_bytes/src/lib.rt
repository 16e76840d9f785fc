//! Bytes on the heap, which contracts see as the list of them: the bytes of a block, or of a piece of a conversation.
//!
//! Nothing here takes memory or fails.
#![tactic(auto)]

ghost use Rattle.std.specs.Prelude.{◌≡◌, List, ℕ};

use std::alloc::{Allocator, Global};
use std::marker::Model;

/// Bytes on the heap. A contract sees the list of them.
#[derive(Drop)]
pub struct HeldBytes<A: Allocator = Global> {
    bytes: Vec<u8, A>,
}

impl<A: Allocator> Model for HeldBytes<A> {
    ghost Value = { List ℕ };

    ghost view = { λ held. held.bytes.items };
}

impl<A: Allocator> HeldBytes<A> {
    /// Takes over these bytes, of any count. It takes no memory.
    pub fn new(bytes: Vec<u8, A>) -> HeldBytes<A>
        ensures { result ≡ bytes.items }
    {
        HeldBytes { bytes }
    }

    /// The bytes.
    pub fn as_slice(&self) -> &[u8]
        ensures { result.now ≡ self.now }
    {
        self.bytes.as_slice()
    }
}
