//! What a server exports, and under which name.

ghost use Rattle.std.specs.Prelude.{◌≡◌, ◌≤◌, ◌⊎◌, ◌<◌, length, take, List, ℕ, MatchResult};

use crate::fault::SessionFault;
use std::marker::Model;

/// An export's name, of 1 to 255 bytes. It stands in the value itself and takes no memory.
#[derive(Drop)]
pub struct ExportName {
    bytes: [u8; 255],
    len: usize,
}

impl Model for ExportName {
    ghost Value = { List ℕ };

    ghost view = { λ name. take name.len name.bytes };

    ghost invariant = { λ name. (1 ≤ name.len) × (name.len ≤ 255) };
}

impl ExportName {
    /// Takes over a name.
    ///
    /// # Errors
    ///
    /// P1 [`SessionFault::NameLength`] exactly where it hasn't 1 to 255 bytes.
    pub fn new(bytes: &[u8]) -> Result<ExportName, SessionFault>
        ensures { MatchResult result (λ name. (name ≡ bytes.now) × (1 ≤ length bytes.now) × (length bytes.now ≤ 255))
            (λ fault. (fault ≡ SessionFault.NameLength) × ((length bytes.now ≡ 0) ⊎ (255 < length bytes.now))) }
    {
        if bytes.is_empty() || bytes.len() > 255 {
            return Err(SessionFault::NameLength);
        }
        let mut kept = [0u8; 255];
        kept[..bytes.len()].copy_from_slice(bytes);
        Ok(ExportName {
            bytes: kept,
            len: bytes.len(),
        })
    }

    /// The name's bytes.
    pub fn bytes(&self) -> &[u8]
        ensures value { result.now ≡ self.now }
        ensures some { 1 ≤ length result.now }
        ensures short { length result.now ≤ 255 }
    {
        &self.bytes[..self.len]
    }

    /// The same name once more, for a further session.
    pub fn copied(&self) -> ExportName
        ensures { result ≡ self.now }
    {
        ExportName {
            bytes: self.bytes,
            len: self.len,
        }
    }
}

/// The one export, as clients are told of it.
#[derive(Drop)]
pub struct Offer {
    /// The name under which it is asked for; the empty name means it too.
    pub name: ExportName,
    /// Its size in bytes.
    pub size: u64,
    /// Its preferred block size in bytes.
    pub block: u32,
}
