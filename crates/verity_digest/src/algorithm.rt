//! The hash algorithms of the format.
ghost use Rattle.std.specs.Prelude.{◌≡◌, ◌↔◌, Some, None, codes};
ghost use Rattle.verity_digest.specs.Hash.{size_of, name_of};

/// A hash algorithm.
#[derive(Clone, Copy, Debug, PartialEq, Eq)]
pub enum Algorithm {
    /// SHA-256 (FIPS 180-4, section 6.2).
    Sha256,
    /// SHA-512 (FIPS 180-4, section 6.4).
    Sha512,
}

impl Algorithm {
    /// Its name, as the superblock and the table line spell it: `sha256` or `sha512`.
    pub fn name(self) -> &'static str
        ensures { result.now ≡ name_of self }
    {
        match self {
            Algorithm::Sha256 => "sha256",
            Algorithm::Sha512 => "sha512",
        }
    }

    /// The algorithm of this name. Capitals make another name, which none has.
    pub fn from_name(name: &[u8]) -> Option<Algorithm>
        ensures sha256 { (result ≡ Some Algorithm.Sha256) ↔ (name.now ≡ codes "sha256") }
        ensures sha512 { (result ≡ Some Algorithm.Sha512) ↔ (name.now ≡ codes "sha512") }
    {
        match name {
            b"sha256" => Some(Algorithm::Sha256),
            b"sha512" => Some(Algorithm::Sha512),
            _ => None,
        }
    }

    /// The bytes of a digest: 32 or 64.
    pub fn size(self) -> usize
        ensures { result ≡ size_of self }
    {
        match self {
            Algorithm::Sha256 => 32,
            Algorithm::Sha512 => 64,
        }
    }
}
