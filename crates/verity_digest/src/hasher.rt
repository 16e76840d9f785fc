//! What makes the digests of a volume's blocks.
ghost use Rattle.std.specs.Prelude.{◌≡◌, ◌+◌, ◌≤◌, length};
ghost use Rattle.verity_digest.specs.Hash.{salted_digest};

use crate::{Algorithm, Digest, Salt};
use base_count::Count;
use sha2::{Digest as HashFunction, Sha256, Sha512};
use std::alloc::{Allocator, Global};
use std::marker::Model;

mod many;

/// Makes the digests of blocks under one algorithm and salt. A contract sees these, and how many
/// digests it made.
#[derive(Drop)]
pub struct Hasher<A: Allocator = Global> {
    algorithm: Algorithm,
    salt: Salt<A>,
    count: Count,
}

impl<A: Allocator> Model for Hasher<A> {
    ghost use Rattle.verity_digest.specs.Hash.{Hashed};

    ghost Value = { Hashed };

    ghost view = { λ h. record { salted = record { algorithm = h.algorithm; salt = h.salt }; hashed = h.count.steps } };
}

impl<A: Allocator> Hasher<A> {
    /// A hasher with this salt and algorithm, which has hashed nothing yet. It takes no memory.
    pub fn new(salt: Salt<A>, algorithm: Algorithm) -> Self
        ensures salted { result.salted ≡ record { algorithm = algorithm; salt = salt } }
        ensures hashed { result.hashed ≡ 0 }
    {
        Hasher {
            algorithm,
            salt,
            count: Count::new(),
        }
    }

    /// The digest of a block: that of the salt followed by the block, whatever its length. It takes
    /// no memory, and is counted.
    pub fn digest(&mut self, block: &[u8]) -> Digest
        ensures digest { result ≡ salted_digest self.old.salted block.now }
        ensures salted { self.new.salted ≡ self.old.salted }
        ensures counted { self.new.hashed ≡ self.old.hashed + 1 }
    {
        self.count.step();
        match self.algorithm {
            Algorithm::Sha256 => {
                let mut hasher = Sha256::new();
                hasher.update(self.salt.bytes());
                hasher.update(block);
                Digest::from_bytes(hasher.finalize())
            }
            Algorithm::Sha512 => {
                let mut hasher = Sha512::new();
                hasher.update(self.salt.bytes());
                hasher.update(block);
                Digest::from_wide(hasher.finalize())
            }
        }
    }

    /// Its algorithm.
    pub fn algorithm(&self) -> Algorithm
        ensures { result ≡ self.now.salted.algorithm }
    {
        self.algorithm
    }

    /// Its salt.
    pub fn salt(&self) -> &Salt<A>
        ensures { result.now ≡ self.now.salted.salt }
    {
        &self.salt
    }
}
