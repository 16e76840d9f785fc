//! The fields of a table line, read one by one.
ghost use Rattle.std.specs.Prelude.{◌≡◌, ◌+◌, ◌^◌, ◌<◌, ◌≤◌, ◌==◌, ◌∷◌, [], ◌↔◌, IsTrue, IsSome, IfSome, IfNone, IfOk, IfErr, OnOk};
ghost use Rattle.std.specs.Prelude.{codes, IsOkUnless, length, take, not, nat_lt, true, false, Some, None};
ghost use Rattle.std.specs.List.{list_all};
ghost use Rattle.std.specs.Char.{is_ascii_digit};
ghost use Rattle.std.specs.Result.{result_err};
ghost use Rattle.hex.specs.Hex.{decode_of};
ghost use Rattle.verity_profile.specs.Profile.{IsBlockSize, IsBlockCount};
ghost use Rattle.verity_superblock.specs.Line.{fields_of, is_number, number, is_path, is_hex, is_salt, is_hex_salt, IsNumber};
ghost use Rattle.verity_superblock.specs.Line.{IsSaltOf, shape_refusal, numbers_refusal, digest_refusal, has_ten_fields};

use crate::TableFault;
use hex::FromHex;
use std::alloc::Allocator;
use verity_digest::{Algorithm, Digest, Salt};
use verity_profile::{is_block_count, is_block_size};

/// The farthest hash block at which a tree may begin: 2^40.
pub(crate) const FARTHEST_START: u64 = 1 << 40;

/// Whether a text has ten fields, none of them empty.
pub(crate) fn ten_fields(text: &str) -> bool
    ensures { result ≡ has_ten_fields text.now }
{
    field_count(text) == 10 && no_field_is_empty(text)
}

fn field_count(text: &str) -> usize
    ensures { result ≡ length (fields_of text.now) }
{
    text.split(' ').count()
}

fn no_field_is_empty(text: &str) -> bool
    ensures { result ≡ list_all (λ f. nat_lt 0 (length f)) (fields_of text.now) }
{
    text.split(' ').all(|field| 0 < field.len())
}

/// The ten fields of a table line, but for its version.
#[derive(Clone, Copy)]
pub(crate) struct Fields<'a> {
    pub(crate) dev: &'a str,
    pub(crate) hash_dev: &'a str,
    pub(crate) data_block_size: &'a str,
    pub(crate) hash_block_size: &'a str,
    pub(crate) data_blocks: &'a str,
    pub(crate) hash_start_block: &'a str,
    pub(crate) algorithm: &'a str,
    pub(crate) digest: &'a str,
    pub(crate) salt: &'a str,
}

/// The fields of a table line. L1 and L2, the first that applies.
pub(crate) fn read_fields(text: &str) -> Result<Fields<'_>, TableFault>
    ensures ten { OnOk result (IsTrue (has_ten_fields text.now)) }
    ensures fields { IfOk result (λ f. fields_of text.now ≡ codes "1" ∷ f.dev.now ∷ f.hash_dev.now
        ∷ f.data_block_size.now ∷ f.hash_block_size.now ∷ f.data_blocks.now ∷ f.hash_start_block.now
        ∷ f.algorithm.now ∷ f.digest.now ∷ f.salt.now ∷ []) }
    ensures refused { result_err result ≡ shape_refusal text.now }
{
    if !ten_fields(text) {
        return Err(TableFault::Fields);
    }
    let (version, rest) = cut(text);
    if version != "1" {
        return Err(TableFault::Version);
    }
    let (dev, rest) = cut(rest);
    let (hash_dev, rest) = cut(rest);
    let (data_block_size, rest) = cut(rest);
    let (hash_block_size, rest) = cut(rest);
    let (data_blocks, rest) = cut(rest);
    let (hash_start_block, rest) = cut(rest);
    let (algorithm, rest) = cut(rest);
    let (digest, salt) = cut(rest);
    Ok(Fields {
        dev,
        hash_dev,
        data_block_size,
        hash_block_size,
        data_blocks,
        hash_start_block,
        algorithm,
        digest,
        salt,
    })
}

/// The first field of a text, and what follows its space.
fn cut(text: &str) -> (&str, &str)
    requires { 1 < length (fields_of text.now) }
    ensures fields { fields_of text.now ≡ result.0.now ∷ fields_of result.1.now }
    ensures fewer { length (fields_of result.1.now) + 1 ≡ length (fields_of text.now) }
{
    text.split_once(' ').unwrap()
}

/// Whether a path can stand in a table line: it isn't empty and holds no space. It takes no memory.
pub fn path_fits(path: &str) -> bool
    ensures { result ≡ is_path path.now }
{
    0 < path.len() && has_no_space(path)
}

fn has_no_space(text: &str) -> bool
    ensures { result ≡ list_all (λ b. not (b == 32)) text.now }
{
    text.as_bytes().iter().all(|byte| *byte != b' ')
}

/// The number of 1 to 20 decimal digits whose value fits 64 bits; none of other text. It takes no memory.
pub fn read_number(digits: &str) -> Option<u64>
    ensures found { IsSome result ↔ IsTrue (is_number digits.now) }
    ensures value { IfSome result (λ n. n ≡ number digits.now) }
{
    if digits.len() > 20 || !are_digits(digits) {
        return None;
    }
    digits.parse::<u64>().ok()
}

fn are_digits(text: &str) -> bool
    ensures { result ≡ list_all is_ascii_digit text.now }
{
    text.as_bytes().iter().all(|byte| byte.is_ascii_digit())
}

/// The number of a field. L3 where it has none.
fn number_of(digits: &str) -> Result<u64, TableFault>
    ensures value { IfOk result (λ n. IsNumber digits.now n) }
    ensures refused { IfErr result (λ fault. (fault ≡ TableFault.Number) × ¬ (IsTrue (is_number digits.now))) }
{
    match read_number(digits) {
        Some(number) => Ok(number),
        None => Err(TableFault::Number),
    }
}

/// The four numbers of a table line.
#[derive(Clone, Copy)]
pub(crate) struct Numbers {
    pub(crate) data_block_size: usize,
    pub(crate) hash_block_size: usize,
    pub(crate) data_blocks: u64,
    pub(crate) hash_start_block: u64,
}

/// The four numbers of a table line. L3, L4 and L5, the first that applies.
pub(crate) fn read_numbers(fields: &Fields<'_>) -> Result<Numbers, TableFault>
    ensures data_size { IfOk result (λ n. IsNumber fields.now.data_block_size.now n.data_block_size) }
    ensures hash_size { IfOk result (λ n. IsNumber fields.now.hash_block_size.now n.hash_block_size) }
    ensures count { IfOk result (λ n. IsNumber fields.now.data_blocks.now n.data_blocks) }
    ensures start { IfOk result (λ n. IsNumber fields.now.hash_start_block.now n.hash_start_block) }
    ensures data_sized { IfOk result (λ n. IsBlockSize n.data_block_size) }
    ensures hash_sized { IfOk result (λ n. IsBlockSize n.hash_block_size) }
    ensures counted { IfOk result (λ n. IsBlockCount n.data_blocks) }
    ensures near { IfOk result (λ n. n.hash_start_block ≤ 2 ^ 40) }
    ensures refused { result_err result ≡ numbers_refusal fields.now.data_block_size.now fields.now.hash_block_size.now
        fields.now.data_blocks.now fields.now.hash_start_block.now }
{
    let data_block_size = number_of(fields.data_block_size)? as usize;
    let hash_block_size = number_of(fields.hash_block_size)? as usize;
    let data_blocks = number_of(fields.data_blocks)?;
    let hash_start_block = number_of(fields.hash_start_block)?;
    if !is_block_size(data_block_size) || !is_block_size(hash_block_size) {
        return Err(TableFault::Size);
    }
    if !is_block_count(data_blocks) || hash_start_block > FARTHEST_START {
        return Err(TableFault::Count);
    }
    Ok(Numbers {
        data_block_size,
        hash_block_size,
        data_blocks,
        hash_start_block,
    })
}

/// The root hash, under the algorithm of this name. L6 and L7, the first that applies.
pub(crate) fn read_root(name: &str, digits: &str) -> Result<Digest, TableFault>
    ensures value { IfOk result (λ root. decode_of digits.now ≡ Ok root) }
    ensures refused { result_err result ≡ digest_refusal name.now digits.now }
{
    match Algorithm::from_name(name.as_bytes()) {
        Some(Algorithm::Sha256) => match <[u8; 32] as FromHex>::from_hex(digits) {
            Ok(bytes) => Ok(Digest::from_bytes(bytes)),
            Err(_) => Err(TableFault::Digest),
        },
        Some(Algorithm::Sha512) => match <[u8; 64] as FromHex>::from_hex(digits) {
            Ok(bytes) => Ok(Digest::from_wide(bytes)),
            Err(_) => Err(TableFault::Digest),
        },
        None => Err(TableFault::Algorithm),
    }
}

/// The salt. L8; else L9 where memory was refused.
pub(crate) fn read_salt<A: Allocator>(alloc: A, digits: &str) -> Result<Salt<A>, TableFault>
    ensures value { IfOk result (λ salt. IsSaltOf digits.now salt) }
    ensures refused { (is_salt digits.now ≡ false) → result ≡ Err TableFault.Salt }
    ensures taken { IsTrue (is_salt digits.now) → IsOkUnless result TableFault.NoMemory }
{
    if digits == "-" {
        return Salt::new(alloc, &[]).map_err(|_| TableFault::NoMemory);
    }
    let mut room = [0; 256];
    let Some(size) = decode_salt(digits, &mut room) else {
        return Err(TableFault::Salt);
    };
    Salt::new(alloc, &room[..size]).map_err(|_| TableFault::NoMemory)
}

/// The bytes of 2 to 512 hexadecimal digits at the front of the room, and how many they are.
fn decode_salt(digits: &str, room: &mut [u8; 256]) -> Option<usize>
    ensures found { IsSome result ↔ IsTrue (is_hex_salt digits.now) }
    ensures fits { IfSome result (λ size. size ≤ 256) }
    ensures value { IfSome result (λ size. decode_of digits.now ≡ Ok (take size room.new)) }
{
    let size = digits.len() / 2;
    if size == 0 || size > 256 {
        return None;
    }
    match hex::decode_to_slice(digits, &mut room[..size]) {
        Ok(()) => Some(size),
        Err(_) => None,
    }
}
