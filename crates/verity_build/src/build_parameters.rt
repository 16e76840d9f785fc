//! What a volume is built with, beside the two stores.
ghost use Rattle.std.specs.Prelude.{◌≡◌};

use std::alloc::{Allocator, Global};
use std::marker::Model;
use uuid::Uuid;
use verity_digest::{Algorithm, Salt};

/// The algorithm, the salt and the UUID of a volume. The block sizes and the count of data blocks are
/// those of the stores.
#[derive(Drop)]
pub struct BuildParameters<A: Allocator = Global> {
    salt: Salt<A>,
    uuid: Uuid,
    algorithm: Algorithm,
}

impl<A: Allocator> Model for BuildParameters<A> {
    ghost use Rattle.verity_build.specs.Parameters.{Parameters};

    ghost Value = { Parameters };

    ghost view = { λ p. record { algorithm = p.algorithm; salt = p.salt; uuid = p.uuid } };
}

impl<A: Allocator> BuildParameters<A> {
    /// These parameters. It takes no memory.
    pub fn new(salt: Salt<A>, uuid: Uuid, algorithm: Algorithm) -> Self
        ensures { result ≡ record { algorithm = algorithm; salt = salt; uuid = uuid } }
    {
        BuildParameters {
            salt,
            uuid,
            algorithm,
        }
    }

    /// The salt.
    pub fn salt(&self) -> &Salt<A>
        ensures { result.now ≡ self.now.salt }
    {
        &self.salt
    }

    /// The UUID.
    pub fn uuid(&self) -> Uuid
        ensures { result ≡ self.now.uuid }
    {
        self.uuid
    }

    /// The algorithm.
    pub fn algorithm(&self) -> Algorithm
        ensures { result ≡ self.now.algorithm }
    {
        self.algorithm
    }
}
