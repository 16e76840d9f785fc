//! The superblock of a hash device.
ghost use Rattle.std.specs.Prelude.{◌≡◌, ◌+◌, ◌==◌, ◌↔◌, ◌<◌, ◌≤◌, length, position, IsErrOf, IsOkUnless, IsOk, IfOk, MatchOption};
ghost use Rattle.std.specs.Result.{result_err};
ghost use Rattle.verity_profile.specs.Profile.{IsBlockSize, IsBlockCount};
ghost use Rattle.byteorder.specs.Endian.{little_bytes};
ghost use Rattle.verity_superblock.specs.Superblock.{superblock, IsProfile, IsPut};
ghost use Rattle.verity_superblock.specs.Reading.{Reads, refusal, kind_refusal, size_refusal, algorithm_name, data_block_size};
ghost use Rattle.verity_superblock.specs.Reading.{hash_block_size, data_blocks, salt_size, salt, uuid};
ghost use Rattle.verity_digest.specs.Hash.{name_of};

use crate::SuperFault;
use byteorder::{ByteOrder, LittleEndian};
use std::alloc::{Allocator, Global};
use std::marker::Model;
use uuid::Uuid;
use verity_digest::{Algorithm, Salt};
use verity_profile::{is_block_count, is_block_size};

/// What a superblock begins with.
const SIGNATURE: &[u8] = b"verity\0\0";

/// The superblock of a hash device: the parameters of a volume and its count of data blocks, all of
/// the profile.
#[derive(Drop)]
pub struct Superblock<A: Allocator = Global> {
    algorithm: Algorithm,
    data_block_size: usize,
    hash_block_size: usize,
    data_blocks: u64,
    salt: Salt<A>,
    uuid: Uuid,
}

impl<A: Allocator> Model for Superblock<A> {
    ghost use Rattle.verity_superblock.specs.Superblock.{Params, Volume, IsProfile};

    ghost Value = { Volume };

    ghost view = { λ s. record {
      params = record {
        algorithm = s.algorithm;
        data_block_size = s.data_block_size;
        hash_block_size = s.hash_block_size;
        salt = s.salt;
        uuid = s.uuid;
      };
      data_blocks = s.data_blocks;
    } };

    ghost invariant = { λ s. IsProfile (record {
      algorithm = s.algorithm;
      data_block_size = s.data_block_size;
      hash_block_size = s.hash_block_size;
      salt = s.salt;
      uuid = s.uuid;
    }) s.data_blocks };
}

impl<A: Allocator> Superblock<A> {
    /// The superblock of these values. B6 where a block size is outside the profile; else B7 where
    /// the count is. It takes no memory.
    pub fn new(
        data_size: usize,
        hash_size: usize,
        blocks: u64,
        salt: Salt<A>,
        uuid: Uuid,
        algorithm: Algorithm,
    ) -> Result<Self, SuperFault>
        ensures value { IfOk result (λ s. s ≡ record {
          params = record { algorithm = algorithm; data_block_size = data_size; hash_block_size = hash_size; salt = salt; uuid = uuid };
          data_blocks = blocks;
        }) }
        ensures ok { IsOk result ↔ ((IsBlockSize data_size × IsBlockSize hash_size) × IsBlockCount blocks) }
        ensures bad_size { IsErrOf result SuperFault.BadSize ↔ ¬ (IsBlockSize data_size × IsBlockSize hash_size) }
        ensures bad_count { IsErrOf result SuperFault.BadCount ↔ ((IsBlockSize data_size × IsBlockSize hash_size)
            × ¬ (IsBlockCount blocks)) }
    {
        if !is_block_size(data_size) || !is_block_size(hash_size) {
            return Err(SuperFault::BadSize);
        }
        if !is_block_count(blocks) {
            return Err(SuperFault::BadCount);
        }
        let _at_most_256 = salt.bytes();
        let _sixteen = uuid.as_bytes();
        Ok(Superblock {
            algorithm,
            data_block_size: data_size,
            hash_block_size: hash_size,
            data_blocks: blocks,
            salt,
            uuid,
        })
    }

    /// The superblock that the first 512 bytes are. The pads, what follows the algorithm's name and its
    /// zero byte, and what follows the salt may hold anything. Of B1 to B8 the first that applies is
    /// answered; else B9 where memory was refused. It takes one request for memory, for the salt.
    pub fn decode(alloc: A, bytes: &[u8]) -> Result<Self, SuperFault>
        ensures reads { IfOk result (λ s. Reads bytes.now s.params s.data_blocks) }
        ensures profile { IfOk result (λ s. IsProfile s.params s.data_blocks) }
        ensures refused { MatchOption (refusal bytes.now) (IsOkUnless result SuperFault.NoMemory) (λ fault. result ≡ Err fault) }
    {
        if bytes.len() < 512 {
            return Err(SuperFault::Short);
        }
        let algorithm = read_algorithm(bytes)?;
        let sizes = read_sizes(bytes)?;
        let Ok(salt) = Salt::new(alloc, &bytes[88..88 + sizes.salt_size]) else {
            return Err(SuperFault::NoMemory);
        };
        Ok(Superblock {
            algorithm,
            data_block_size: sizes.data_block_size,
            hash_block_size: sizes.hash_block_size,
            data_blocks: sizes.data_blocks,
            salt,
            uuid: read_uuid(bytes),
        })
    }

    /// The 512 bytes of the superblock, with zeros where a reader looks at nothing. It takes no memory.
    pub fn encode(&self) -> [u8; 512]
        ensures { result ≡ superblock self.now.params self.now.data_blocks }
    {
        let mut block = [0; 512];
        put(&mut block, 0, SIGNATURE);
        put(&mut block, 8, &little_u32(1));
        put(&mut block, 12, &little_u32(1));
        put(&mut block, 16, self.uuid.as_bytes());
        put(&mut block, 32, self.algorithm.name().as_bytes());
        put(&mut block, 64, &little_u32(self.data_block_size as u32));
        put(&mut block, 68, &little_u32(self.hash_block_size as u32));
        put(&mut block, 72, &little_u64(self.data_blocks));
        let salt = self.salt.bytes();
        put(&mut block, 80, &little_u16(salt.len() as u16));
        put(&mut block, 88, salt);
        block
    }

    /// The bytes of a data block: a power of two from 512 to 524,288.
    pub fn data_block_size(&self) -> usize
        ensures value { result ≡ self.now.params.data_block_size }
        ensures bounds { IsBlockSize result }
    {
        self.data_block_size
    }

    /// The bytes of a hash block: a power of two from 512 to 524,288.
    pub fn hash_block_size(&self) -> usize
        ensures value { result ≡ self.now.params.hash_block_size }
        ensures bounds { IsBlockSize result }
    {
        self.hash_block_size
    }

    /// The count of data blocks: from 1 to 2^40.
    pub fn data_blocks(&self) -> u64
        ensures value { result ≡ self.now.data_blocks }
        ensures bounds { IsBlockCount result }
    {
        self.data_blocks
    }

    /// The salt.
    pub fn salt(&self) -> &Salt<A>
        ensures { result.now ≡ self.now.params.salt }
    {
        &self.salt
    }

    /// What every superblock keeps: its values are of the profile.
    pub fn facts(&self)
        ensures { IsProfile self.now.params self.now.data_blocks }
    {
        let _ = &self.salt;
    }

    /// The UUID.
    pub fn uuid(&self) -> Uuid
        ensures { result ≡ self.now.params.uuid }
    {
        self.uuid
    }

    /// The algorithm.
    pub fn algorithm(&self) -> Algorithm
        ensures { result ≡ self.now.params.algorithm }
    {
        self.algorithm
    }
}

/// The algorithm of a superblock. B2 to B5, the first that applies.
fn read_algorithm(bytes: &[u8]) -> Result<Algorithm, SuperFault>
    requires { 512 ≤ length bytes.now }
    ensures name { IfOk result (λ a. algorithm_name bytes.now ≡ name_of a) }
    ensures refused { result_err result ≡ kind_refusal bytes.now }
{
    if &bytes[..8] != SIGNATURE {
        return Err(SuperFault::Signature);
    }
    if LittleEndian::read_u32(&bytes[8..12]) != 1 {
        return Err(SuperFault::Version);
    }
    if LittleEndian::read_u32(&bytes[12..16]) != 1 {
        return Err(SuperFault::HashType);
    }
    Algorithm::from_name(name_field(bytes)).ok_or(SuperFault::Algorithm)
}

/// The algorithm's field up to its first zero byte.
fn name_field(bytes: &[u8]) -> &[u8]
    requires { 512 ≤ length bytes.now }
    ensures { result.now ≡ algorithm_name bytes.now }
{
    let field = &bytes[32..64];
    match first_zero(field) {
        Some(end) => &field[..end],
        None => field,
    }
}

/// Where the first zero byte stands.
fn first_zero(field: &[u8]) -> Option<usize>
    ensures { result ≡ position (λ b. b == 0) field.now }
{
    field.iter().position(|byte| *byte == 0)
}

/// The sizes that a superblock names, and its count of data blocks.
#[derive(Clone, Copy)]
struct Sizes {
    data_block_size: usize,
    hash_block_size: usize,
    data_blocks: u64,
    salt_size: usize,
}

/// The sizes of a superblock. B6 to B8, the first that applies.
fn read_sizes(bytes: &[u8]) -> Result<Sizes, SuperFault>
    requires { 512 ≤ length bytes.now }
    ensures data_size { IfOk result (λ s. s.data_block_size ≡ data_block_size bytes.now) }
    ensures hash_size { IfOk result (λ s. s.hash_block_size ≡ hash_block_size bytes.now) }
    ensures count { IfOk result (λ s. s.data_blocks ≡ data_blocks bytes.now) }
    ensures salt_size { IfOk result (λ s. s.salt_size ≡ salt_size bytes.now) }
    ensures data_sized { IfOk result (λ s. IsBlockSize s.data_block_size) }
    ensures hash_sized { IfOk result (λ s. IsBlockSize s.hash_block_size) }
    ensures counted { IfOk result (λ s. IsBlockCount s.data_blocks) }
    ensures short_salt { IfOk result (λ s. s.salt_size ≤ 256) }
    ensures refused { result_err result ≡ size_refusal bytes.now }
{
    let data_block_size = LittleEndian::read_u32(&bytes[64..68]) as usize;
    let hash_block_size = LittleEndian::read_u32(&bytes[68..72]) as usize;
    if !is_block_size(data_block_size) || !is_block_size(hash_block_size) {
        return Err(SuperFault::BadSize);
    }
    let data_blocks = LittleEndian::read_u64(&bytes[72..80]);
    if !is_block_count(data_blocks) {
        return Err(SuperFault::BadCount);
    }
    let salt_size = LittleEndian::read_u16(&bytes[80..82]) as usize;
    if salt_size > 256 {
        return Err(SuperFault::SaltSize);
    }
    Ok(Sizes {
        data_block_size,
        hash_block_size,
        data_blocks,
        salt_size,
    })
}

/// The UUID of a superblock.
fn read_uuid(bytes: &[u8]) -> Uuid
    requires { 512 ≤ length bytes.now }
    ensures { result ≡ uuid bytes.now }
{
    let mut uuid = [0; 16];
    uuid.copy_from_slice(&bytes[16..32]);
    Uuid::from_bytes(uuid)
}

/// Writes a field into a superblock at its offset.
fn put(block: &mut [u8; 512], at: usize, field: &[u8])
    requires { at + length field.now ≤ 512 }
    ensures { IsPut block.old at field.now block.new }
{
    block[at..at + field.len()].copy_from_slice(field);
}

/// A number of two bytes, the lowest first.
fn little_u16(number: u16) -> [u8; 2]
    ensures { result ≡ little_bytes 2 number }
{
    let mut field = [0; 2];
    LittleEndian::write_u16(&mut field, number);
    field
}

/// A number of four bytes, the lowest first.
fn little_u32(number: u32) -> [u8; 4]
    ensures { result ≡ little_bytes 4 number }
{
    let mut field = [0; 4];
    LittleEndian::write_u32(&mut field, number);
    field
}

/// A number of eight bytes, the lowest first.
fn little_u64(number: u64) -> [u8; 8]
    ensures { result ≡ little_bytes 8 number }
{
    let mut field = [0; 8];
    LittleEndian::write_u64(&mut field, number);
    field
}
