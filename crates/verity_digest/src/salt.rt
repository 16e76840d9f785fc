//! The salt of a volume.
ghost use Rattle.std.specs.Prelude.{◌≡◌, ◌↔◌, ◌<◌, ◌≤◌, length, IfOk};

use std::alloc::{AllocError, Allocator, Global};
use std::fmt;
use std::marker::Model;
use thiserror::Error;

/// Why bytes are no salt.
#[derive(Clone, Copy, Debug, PartialEq, Eq, Error)]
pub enum SaltFault {
    /// G1: more than 256 bytes.
    TooLong,
    /// G2: memory was refused.
    NoMemory,
}

impl fmt::Display for SaltFault {
    ghost use Rattle.std.specs.Prelude.{Some};
    ghost use Rattle.verity_digest.specs.Texts.{salt_text};

    ghost output = { λ fault. Some (salt_text fault) };

    fn fmt<W: fmt::Write>(&self, f: &mut fmt::Formatter<W>) -> fmt::Result {
        match self {
            SaltFault::TooLong => f.write_str("G1"),
            SaltFault::NoMemory => f.write_str("G2"),
        }
    }
}

/// A salt of 0 to 256 bytes. A contract sees the list of its bytes.
#[derive(Drop)]
pub struct Salt<A: Allocator = Global> {
    bytes: Vec<u8, A>,
}

impl<A: Allocator> Model for Salt<A> {
    ghost use Rattle.std.specs.Prelude.{ℕ, List, length, ◌≤◌};

    ghost Value = { List ℕ };

    ghost view = { λ s. s.bytes.items };

    ghost invariant = { λ s. length s.bytes.items ≤ 256 };
}

impl<A: Allocator> Salt<A> {
    /// The salt of these bytes. G1 where there are more than 256; G2 where memory was refused.
    /// It takes one request for memory, of as many bytes.
    pub fn new(alloc: A, bytes: &[u8]) -> Result<Self, SaltFault>
        ensures value { IfOk result (λ salt. salt ≡ bytes.now) }
        ensures too_long { (result ≡ Err SaltFault.TooLong) ↔ (256 < length bytes.now) }
    {
        if bytes.len() > 256 {
            return Err(SaltFault::TooLong);
        }
        match bytes.to_vec(alloc) {
            Ok(bytes) => Ok(Salt { bytes }),
            Err(_) => Err(SaltFault::NoMemory),
        }
    }

    /// The same salt, in memory of its own: one request, of as many bytes as it has. `AllocError` where that was refused.
    pub fn copy<B: Allocator>(&self, alloc: B) -> Result<Salt<B>, AllocError>
        ensures { IfOk result (λ salt. salt ≡ self.now) }
    {
        let bytes = self.bytes().to_vec(alloc)?;
        Ok(Salt { bytes })
    }

    /// Its bytes.
    pub fn bytes(&self) -> &[u8]
        ensures value { result.now ≡ self.now }
        ensures most { length result.now ≤ 256 }
    {
        self.bytes.as_slice()
    }

    /// Where its bytes were allocated.
    pub fn allocator(&self) -> &A {
        self.bytes.allocator()
    }
}
