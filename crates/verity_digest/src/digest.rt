//! The digest of a block.
ghost use Rattle.std.specs.Prelude.{◌≡◌, ◌≤◌, ◌+◌, ◌*◌, length, take, drop};
ghost use Rattle.verity_digest.specs.Hash.{size_of};

use crate::Algorithm;
use std::marker::Model;

/// The digest of a block: 32 bytes of SHA-256, or 64 of SHA-512. A contract sees the list of its
/// bytes, and its length tells the algorithm.
#[derive(Clone, Copy, Debug, PartialEq, Eq)]
pub struct Digest {
    bytes: [u8; 64],
    algorithm: Algorithm,
}

impl Model for Digest {
    ghost use Rattle.std.specs.Prelude.{ℕ, List};

    ghost Value = { List ℕ };

    ghost use Rattle.verity_digest.specs.Padded.{shown, stored, IsPadded};
    ghost use Rattle.verity_digest.specs.Stored.{stored-shown};

    ghost view = { shown };

    ghost invariant = { IsPadded };

    ghost inverse = { stored };

    ghost inverse_ok = { stored-shown };
}

impl Digest {
    /// The SHA-256 digest of these bytes.
    pub fn from_bytes(bytes: [u8; 32]) -> Self
        ensures { result ≡ bytes }
    {
        let mut wide = [0; 64];
        wide[..32].copy_from_slice(&bytes);
        Digest {
            bytes: wide,
            algorithm: Algorithm::Sha256,
        }
    }

    /// The SHA-512 digest of these bytes.
    pub fn from_wide(bytes: [u8; 64]) -> Self
        ensures { result ≡ bytes }
    {
        let mut wide = [0; 64];
        wide.copy_from_slice(&bytes);
        Digest {
            bytes: wide,
            algorithm: Algorithm::Sha512,
        }
    }

    /// The digest in a slot of a hash block, whose slots have the size of this algorithm's digests.
    pub fn in_block(block: &[u8], slot: usize, algorithm: Algorithm) -> Self
        requires { slot * size_of algorithm + size_of algorithm ≤ length block.now }
        ensures value { result ≡ take (size_of algorithm) (drop (slot * size_of algorithm) block.now) }
        ensures size { length result ≡ size_of algorithm }
    {
        let at = slot * algorithm.size();
        match algorithm {
            Algorithm::Sha256 => {
                let mut bytes = [0; 32];
                bytes.copy_from_slice(&block[at..at + 32]);
                Digest::from_bytes(bytes)
            }
            Algorithm::Sha512 => {
                let mut bytes = [0; 64];
                bytes.copy_from_slice(&block[at..at + 64]);
                Digest::from_wide(bytes)
            }
        }
    }

    /// Its bytes, as many as its algorithm gives.
    pub fn bytes(&self) -> &[u8]
        ensures { result.now ≡ self.now }
    {
        match self.algorithm {
            Algorithm::Sha256 => &self.bytes[..32],
            Algorithm::Sha512 => &self.bytes[..64],
        }
    }

    /// The algorithm that it is a digest of.
    pub fn algorithm(&self) -> Algorithm
        ensures { length self.now ≡ size_of result }
    {
        let _ = &self.bytes;
        self.algorithm
    }
}
