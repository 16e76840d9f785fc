//! A hash block that is being filled.
ghost use Rattle.std.specs.Prelude.{◌≡◌, ℕ, ◌+◌, ◌/◌, ◌^◌, ◌<◌, ◌≤◌, ◌↔◌, ◌++◌, ◌∷◌, [], length, vec_len, take, drop};
ghost use Rattle.std.specs.Prelude.{slice_index_or, IsTrue, IfOk};
ghost use Rattle.verity_digest.specs.Tree.{Hashing, hash_block};

use std::alloc::{AllocError, Allocator, Global};
use std::marker::Model;
use verity_digest::Digest;

/// A hash block that is being filled: its bytes, how many digests are in it, and its index in its
/// level. Behind the digests are zeros. A contract sees the digests.
#[derive(Drop)]
pub struct OpenBlock<A: Allocator = Global> {
    bytes: Vec<u8, A>,
    digest_size: usize,
    filled: usize,
    index: u64,
}

impl<A: Allocator> Model for OpenBlock<A> {
    ghost use Rattle.verity_tree.specs.Open.{Open};

    ghost Value = { Open };

    ghost use Rattle.verity_tree.specs.Filled.{open_of, IsFilled};

    ghost view = { open_of };

    ghost invariant = { IsFilled };
}

// Writes `part` over the bytes from `at` on.
pub(crate) fn write_over<A: Allocator>(bytes: &mut Vec<u8, A>, at: usize, part: &[u8])
    requires { at + length part.now ≤ vec_len bytes.old }
    ensures { bytes.new.items ≡ take at bytes.old.items ++ (part.now ++ drop (at + length part.now) bytes.old.items) }
{
    let end = at + part.len();
    bytes[at..end].copy_from_slice(part);
}

impl<A: Allocator> OpenBlock<A> {
    ghost use Rattle.verity_tree.specs.Open.{most};

    /// Block 0 of a level, with no digest in it yet. It takes memory for its bytes.
    pub(crate) fn new(alloc: A, block_size: usize, digest_size: usize) -> Result<Self, AllocError>
        requires { 0 < digest_size }
        ensures { IfOk result (λ block. block ≡ record { block_size = block_size; digest_size = digest_size; digests = []; index = 0 }) }
    {
        let bytes = Vec::from_elem(alloc, 0u8, block_size)?;
        Ok(OpenBlock {
            bytes,
            digest_size,
            filled: 0,
            index: 0,
        })
    }

    /// Whether no digest fits in any more behind so many that come to it.
    pub(crate) fn is_full(&self, coming: usize) -> bool
        requires { length self.now.digests + coming ≤ most self.now }
        ensures { IsTrue result ↔ (length self.now.digests + coming ≡ most self.now) }
    {
        self.bytes.len() - (self.filled + coming) * self.digest_size < self.digest_size
    }

    /// Its index in its level.
    pub(crate) fn index(&self) -> u64
        ensures { result ≡ self.now.index }
    {
        self.index
    }

    /// Its bytes: the digests in order, and zeros.
    pub(crate) fn bytes(&self) -> &[u8]
        ensures value { (h : Hashing) → h.block_size ≡ self.now.block_size → result.now ≡ hash_block h self.now.digests }
        ensures len { length result.now ≡ self.now.block_size }
    {
        &self.bytes
    }

    /// Puts a digest behind those that are in it.
    pub(crate) fn put(&mut self, digest: &Digest)
        requires sized { length digest.now ≡ self.old.digest_size }
        requires room { length self.old.digests < most self.old }
        ensures { self.new ≡ record self.old { digests = self.old.digests ++ digest.now ∷ [] } }
    {
        let at = self.filled * self.digest_size;
        write_over(&mut self.bytes, at, digest.bytes());
        self.filled += 1;
    }

    /// Puts digests behind those that are in it, in their order.
    pub(crate) fn put_all(&mut self, digests: &[Digest])
        requires sized { (j : ℕ) → j < length digests.now → length (slice_index_or digests.now j []) ≡ self.old.digest_size }
        requires room { length self.old.digests + length digests.now ≤ most self.old }
        ensures { self.new ≡ record self.old { digests = self.old.digests ++ digests.now } }
    {
        'each: for j in 0..digests.len() {
            self.put(&digests[j]);
        }
    }

    /// Goes on to the next block of the level, with no digest in it yet.
    pub(crate) fn next(&mut self)
        requires { self.old.index < 2 ^ 41 }
        ensures { self.new ≡ record self.old { digests = []; index = self.old.index + 1 } }
    {
        self.bytes.fill(0);
        self.filled = 0;
        self.index += 1;
    }
}
