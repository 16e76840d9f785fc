//! Arguments that say where a device lies, and how long a server is waited for.

ghost use Rattle.std.specs.Prelude.{◌≡◌, ◌*◌, ◌⊎◌, ◌↔◌, ℕ, Ok, Err, IfOk, IfErr, OnOk, IsTrue, false};
ghost use Rattle.std.specs.Duration.{as_nanos};
ghost use Rattle.remote_url.specs.Grammar.{HasScheme};
ghost use Rattle.cli_faults.specs.Words.{timeout_in};

use cli_faults::{Failure, Word, timeout};
use remote_file::Patience;
use remote_url::{Source, source_of};
use std::time::Duration;

/// How long a server is waited for, by the value of `--timeout`: whole seconds, at least 1 and at most 86400.
pub fn patience(text: &str) -> Result<Patience, Failure>
    ensures value { IfOk result (λ patience. (seconds : ℕ) × (timeout_in text.now ≡ Ok seconds)
        × (as_nanos patience.timeout ≡ seconds * 1000000000)) }
    ensures refused { IfErr result (λ e. timeout_in text.now ≡ Err e) }
{
    let seconds = timeout(text)?;
    Ok(Patience {
        timeout: Duration::from_secs(seconds),
    })
}

/// That DATA and HASH of a command that writes are paths, and no URLs.
pub fn check_here(data_path: &str, hash_path: &str) -> Result<(), Failure>
    ensures here { OnOk result ((¬ HasScheme data_path.now) × ¬ HasScheme hash_path.now) }
    ensures refused { IfErr result (λ e. ((e ≡ Failure.Word Word.Data) × HasScheme data_path.now)
        ⊎ ((e ≡ Failure.Word Word.Hash) × HasScheme hash_path.now)) }
{
    if is_url(data_path) {
        return Err(Failure::Word(Word::Data));
    }
    if is_url(hash_path) {
        return Err(Failure::Word(Word::Hash));
    }
    Ok(())
}

/// Whether a text begins as a URL does, be it one that is understood or not.
pub fn is_url(text: &str) -> bool
    ensures is { IsTrue result → HasScheme text.now }
    ensures isnt { result ≡ false → ¬ HasScheme text.now }
{
    match source_of(text) {
        Ok(Source::Path(_)) => false,
        Ok(Source::Http(_, _)) => true,
        Ok(Source::Nbd(_, _)) => true,
        Ok(Source::NbdUnix(_, _)) => true,
        Err(_) => true,
    }
}
