//! Names in URLs.

ghost use Rattle.std.specs.Prelude.{◌≡◌, IfOk, string_bytes};
ghost use Rattle.percent_encoding.specs.Percent.{percent_decode};

use crate::fault::NameFault;
use percent_encoding::percent_decode as decode;
use std::alloc::Global;

/// A name in which `%` and two hexadecimal digits stand for a byte, and any other `%` for itself.
#[derive(Clone, Copy, Debug, PartialEq, Eq)]
pub struct Escaped<'a> {
    /// As it stands in the URL.
    pub text: &'a str,
}

impl Escaped<'_> {
    /// What it stands for.
    ///
    /// # Errors
    ///
    /// `NotUtf8`, and `NoMemory` for as many bytes as it has.
    pub fn decoded(&self, alloc: Global) -> Result<String, NameFault>
        ensures { IfOk result (λ name. string_bytes name ≡ percent_decode self.now.text.now) }
    {
        let mut bytes = Vec::new(alloc);
        decode(self.text.as_bytes()).append_to(&mut bytes)?;
        match std::str::from_utf8(&bytes) {
            Ok(name) => Ok(String::from_str(alloc, name)?),
            Err(_) => Err(NameFault::NotUtf8),
        }
    }
}
