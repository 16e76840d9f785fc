//! The values of words: numbers, salts, UUIDs, algorithms and pairs of paths.
ghost use Rattle.std.specs.Prelude.{◌≡◌, ◌==◌, ◌⊎◌, ◌↔◌, ◌<◌, Ok, Err, None, Some};
ghost use Rattle.std.specs.Prelude.{IfOk, IfErr, nat_lt, length, codes, not};
ghost use Rattle.std.specs.List.{list_all};
ghost use Rattle.std.specs.Char.{is_ascii_digit};
ghost use Rattle.std.specs.Result.{result_err};
ghost use Rattle.verity_superblock.specs.Line.{is_path};
ghost use Rattle.cli_faults.specs.Words.{number_in, sessions_in, memory_in, timeout_in, salt_of, uuid_in, paths_refusal};

use crate::failure::{Failure, Word};
use crate::fault::Fault;
use hex::FromHexError;
use std::alloc::Global;
use uuid::Uuid;
use verity_digest::{Algorithm, Salt, SaltFault};
use verity_superblock::path_fits;

/// The least and the most MiB of replies that may wait.
const LEAST_MEMORY: u64 = 33;

const MOST_MEMORY: u64 = 1 << 20;

/// The least and the most seconds for which a server is waited.
const LEAST_TIMEOUT: u64 = 1;

const MOST_TIMEOUT: u64 = 86_400;

/// The most connections that `serve` may be asked to serve.
const MOST_SESSIONS: u64 = 4294967295;

/// The number that a word is: decimal digits alone, whose value fits 64 bits.
pub fn number(word: Word, text: &str) -> Result<u64, Failure>
    ensures { result ≡ number_in word text.now }
{
    if !are_digits(text) {
        return Err(Failure::Word(word));
    }
    match text.parse::<u64>() {
        Ok(number) => Ok(number),
        Err(_) => Err(Failure::Word(word)),
    }
}

fn are_digits(text: &str) -> bool
    ensures { result ≡ list_all is_ascii_digit text.now }
{
    text.as_bytes().iter().all(|byte| byte.is_ascii_digit())
}

/// The number of bytes in a block that a word is. Which sizes are taken is for the stores to say.
pub fn block_size(word: Word, text: &str) -> Result<usize, Failure>
    ensures { result ≡ number_in word text.now }
{
    match number(word, text) {
        Ok(size) => Ok(size as usize),
        Err(failure) => Err(failure),
    }
}

/// The number of connections that a word is: at most 4,294,967,295.
pub fn sessions(text: &str) -> Result<u64, Failure>
    ensures { result ≡ sessions_in text.now }
{
    match number(Word::Sessions, text) {
        Ok(count) => {
            if count > MOST_SESSIONS {
                Err(Failure::Word(Word::Sessions))
            } else {
                Ok(count)
            }
        }
        Err(failure) => Err(failure),
    }
}

/// The number of MiB of replies that may wait that a word is: at least 33, so that a longest reply fits, and at most 2^20.
pub fn memory(text: &str) -> Result<u64, Failure>
    ensures { result ≡ memory_in text.now }
{
    match number(Word::Memory, text) {
        Ok(mebibytes) => {
            if (LEAST_MEMORY..=MOST_MEMORY).contains(&mebibytes) {
                Ok(mebibytes)
            } else {
                Err(Failure::Word(Word::Memory))
            }
        }
        Err(failure) => Err(failure),
    }
}

/// The number of seconds for which a server is waited that a word is: at least 1, and at most 86,400, a day.
pub fn timeout(text: &str) -> Result<u64, Failure>
    ensures { result ≡ timeout_in text.now }
{
    match number(Word::Timeout, text) {
        Ok(seconds) => {
            if (LEAST_TIMEOUT..=MOST_TIMEOUT).contains(&seconds) {
                Ok(seconds)
            } else {
                Err(Failure::Word(Word::Timeout))
            }
        }
        Err(failure) => Err(failure),
    }
}

/// The bytes that a salt's word names: `none` is the empty salt, all else is an even number, at least 2, of
/// hexadecimal digits of either case.
pub fn salt_bytes(alloc: Global, text: &str) -> Result<Vec<u8>, Failure>
    ensures value { IfOk result (λ bytes. salt_of text.now ≡ Some bytes.items) }
    ensures refused { IfErr result (λ e. (e ≡ Failure.NoMemory) ⊎ ((e ≡ Failure.Word Word.Salt) × (salt_of text.now ≡ None))) }
{
    if text == "none" {
        return Ok(Vec::new(alloc));
    }
    if text.is_empty() {
        return Err(Failure::Word(Word::Salt));
    }
    match hex::decode(alloc, text) {
        Ok(bytes) => Ok(bytes),
        Err(FromHexError::OutOfMemory) => Err(Failure::NoMemory),
        Err(_) => Err(Failure::Word(Word::Salt)),
    }
}

/// The salt of these bytes.
pub fn salt(alloc: Global, bytes: &[u8]) -> Result<Salt, Failure>
    ensures value { IfOk result (λ salt. salt ≡ bytes.now) }
    ensures too_long { (result ≡ Err (Failure.Refused (Fault.Salt SaltFault.TooLong))) ↔ (256 < length bytes.now) }
    ensures refused { IfErr result (λ e. (e ≡ Failure.NoMemory) ⊎ (e ≡ Failure.Refused (Fault.Salt SaltFault.TooLong))) }
{
    Ok(Salt::new(alloc, bytes)?)
}

/// The UUID that a word is.
pub fn uuid(text: &str) -> Result<Uuid, Failure>
    ensures { result ≡ uuid_in text.now }
{
    match Uuid::parse_str(text) {
        Ok(uuid) => Ok(uuid),
        Err(_) => Err(Failure::Word(Word::Uuid)),
    }
}

/// The algorithm that a word names.
pub fn algorithm(text: &str) -> Result<Algorithm, Failure>
    ensures sha256 { (result ≡ Ok Algorithm.Sha256) ↔ (text.now ≡ codes "sha256") }
    ensures sha512 { (result ≡ Ok Algorithm.Sha512) ↔ (text.now ≡ codes "sha512") }
    ensures word { IfErr result (λ e. e ≡ Failure.Word Word.Algorithm) }
{
    match Algorithm::from_name(text.as_bytes()) {
        Some(algorithm) => Ok(algorithm),
        None => Err(Failure::Word(Word::Algorithm)),
    }
}

/// Two paths that can stand in a table line: neither is empty or holds a space, and they differ.
pub fn check_paths(data_path: &str, hash_path: &str) -> Result<(), Failure>
    ensures { result_err result ≡ paths_refusal data_path.now hash_path.now }
{
    if !path_fits(data_path) {
        return Err(Failure::Word(Word::Data));
    }
    if !path_fits(hash_path) || hash_path == data_path {
        return Err(Failure::Word(Word::Hash));
    }
    Ok(())
}
