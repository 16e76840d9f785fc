//! Volumes of any block sizes, salt and algorithm, each data block filled with its number.
use std::alloc::Global;
use std::test::Fail;
use uuid::Uuid;
use verity_build::BuildParameters;
use verity_digest::{Algorithm, Salt};
use verity_store::MemStore;

const UUID: [u8; 16] = [
    0x01, 0x23, 0x45, 0x67, 0x89, 0xab, 0xcd, 0xef, 0x01, 0x23, 0x45, 0x67, 0x89, 0xab, 0xcd, 0xef,
];

pub fn numbered(alloc: Global, size: usize, count: usize) -> Result<MemStore, Fail> {
    let mut bytes = Vec::new(alloc);
    for n in 0..count {
        for _ in 0..size {
            bytes.push((n % 256) as u8)?;
        }
    }
    Ok(MemStore::new(bytes, size)?)
}

pub fn params(alloc: Global, salt: &[u8], algorithm: Algorithm) -> Result<BuildParameters, Fail> {
    Ok(BuildParameters::new(Salt::new(alloc, salt)?, Uuid::from_bytes(UUID), algorithm))
}
