//! A store in memory.
ghost use Rattle.std.specs.Prelude.{◌≡◌, ◌≢◌, ℕ, ◌+◌, ◌*◌, ◌/◌, ◌%◌, ◌^◌, ◌<◌, ◌≤◌, ◌++◌, ◌↔◌, Bool, true, IfOk, IfErr, OnOk, IsTrue, IsOk};
ghost use Rattle.std.specs.Prelude.{List, length, take, drop, replicate, vec_len, vec_capacity};
ghost use Rattle.std.specs.List.{concat};
ghost use Rattle.verity_profile.specs.Profile.{IsBlockSize, zero_block};
ghost use Rattle.verity_store.specs.Blocks.{cut};

use crate::{BlockStore, StoreFault};
use base_count::Count;
use std::alloc::{Allocator, Global};
use verity_profile::is_block_size;
use verity_read_log::Given;

/// A store whose blocks lie in memory, one after the other. It tells, and it never fails.
#[derive(Drop)]
pub struct MemStore<A: Allocator = Global> {
    bytes: Vec<u8, A>,
    size: usize,
    blocks: u64,
    read_count: Count,
    change_count: Count,
    given: Given,
    ghost profile: { IsBlockSize size },
    ghost whole: { vec_len bytes ≡ blocks * size },
}

fn get(bytes: &[u8], at: usize, out: &mut [u8])
    requires { at + length out.old ≤ length bytes.now }
    ensures { out.new ≡ take (length out.old) (drop at bytes.now) }
{
    let end = at + out.len();
    out.copy_from_slice(&bytes[at..end]);
}

fn put<A: Allocator>(bytes: &mut Vec<u8, A>, at: usize, block: &[u8])
    requires { at + length block.now ≤ vec_len bytes.old }
    ensures items { bytes.new.items ≡ take at bytes.old.items ++ (block.now ++ drop (at + length block.now) bytes.old.items) }
    ensures len { vec_len bytes.new ≡ vec_len bytes.old }
    ensures capacity { vec_capacity bytes.new ≡ vec_capacity bytes.old }
{
    let end = at + block.len();
    bytes[at..end].copy_from_slice(block);
}

impl<A: Allocator> MemStore<A> {
    /// A store of these bytes, cut into blocks of `size`. It takes no memory.
    ///
    /// S4 where `size` is not one of the profile; else S2 where the bytes are not whole blocks. The bytes are then gone.
    pub fn new(bytes: Vec<u8, A>, size: usize) -> Result<MemStore<A>, StoreFault>
        ensures content { IfOk result (λ s. concat (⟦<MemStore<A> as BlockStore>⟧.content s) ≡ bytes.items) }
        ensures len { IfOk result (λ s. length (⟦<MemStore<A> as BlockStore>⟧.content s) * size ≡ vec_len bytes) }
        ensures size { IfOk result (λ s. ⟦<MemStore<A> as BlockStore>⟧.size s ≡ size) }
        ensures tells { IfOk result (λ s. ⟦<MemStore<A> as BlockStore>⟧.tells s ≡ true) }
        ensures wrong_size { (result ≡ Err StoreFault.BlockSize) ↔ ¬ IsBlockSize size }
        ensures ragged { (result ≡ Err StoreFault.Ragged) ↔ (IsBlockSize size × (vec_len bytes % size ≢ 0)) }
        ensures succeeds { IsBlockSize size → vec_len bytes % size ≡ 0 → IsOk result }
    {
        if !is_block_size(size) {
            return Err(StoreFault::BlockSize);
        }
        if bytes.len() % size != 0 {
            return Err(StoreFault::Ragged);
        }
        let blocks = (bytes.len() / size) as u64;
        Ok(MemStore {
            bytes,
            size,
            blocks,
            read_count: Count::new(),
            change_count: Count::new(),
            given: Given::new(),
        })
    }

    /// A store of zero blocks. It takes memory for their bytes.
    ///
    /// S4 where `size` is not one of the profile; else S3 where memory was refused.
    pub fn zeroed(alloc: A, size: usize, blocks: u64) -> Result<MemStore<A>, StoreFault>
        requires { blocks ≤ 2 ^ 41 }
        ensures content { IfOk result (λ s. ⟦<MemStore<A> as BlockStore>⟧.content s ≡ replicate blocks (zero_block size)) }
        ensures size { IfOk result (λ s. ⟦<MemStore<A> as BlockStore>⟧.size s ≡ size) }
        ensures tells { IfOk result (λ s. ⟦<MemStore<A> as BlockStore>⟧.tells s ≡ true) }
        ensures wrong_size { (result ≡ Err StoreFault.BlockSize) ↔ ¬ IsBlockSize size }
        ensures error { IfErr result (λ e. e ≢ StoreFault.BlockSize → e ≡ StoreFault.NoMemory) }
    {
        if !is_block_size(size) {
            return Err(StoreFault::BlockSize);
        }
        let Ok(bytes) = Vec::from_elem(alloc, 0u8, blocks as usize * size) else {
            return Err(StoreFault::NoMemory);
        };
        Ok(MemStore {
            bytes,
            size,
            blocks,
            read_count: Count::new(),
            change_count: Count::new(),
            given: Given::new(),
        })
    }

    /// The bytes of all blocks, in order.
    pub fn bytes(&self) -> &[u8]
        ensures { result.now ≡ concat (⟦<MemStore<A> as BlockStore>⟧.content self.now) }
    {
        &self.bytes
    }
}

impl<A: Allocator> BlockStore for MemStore<A> {
    ghost size = { λ s. s.size };

    ghost content = { λ s. cut s.size s.blocks s.bytes.items };

    ghost tells = { λ _. true };

    ghost given = { λ s. s.given.blocks };

    ghost failures = { λ _. 0 };

    ghost reads = { λ s. s.read_count.steps };

    ghost changes = { λ s. s.change_count.steps };

    ghost room = { λ s. vec_capacity s.bytes / s.size };

    fn block_size(&self) -> usize {
        self.size
    }

    fn len(&self) -> u64 {
        self.blocks
    }

    fn read(&mut self, n: u64, out: &mut [u8]) -> Result<(), StoreFault> {
        self.read_count.step();
        get(&self.bytes, n as usize * self.size, out);
        self.given.note(n, out);
        Ok(())
    }

    fn write(&mut self, n: u64, block: &[u8]) -> Result<(), StoreFault> {
        self.change_count.step();
        let at = n as usize * self.size;
        put(&mut self.bytes, at, block);
        Ok(())
    }

    fn reserve(&mut self, blocks: u64) -> Result<(), StoreFault> {
        let wanted = blocks as usize * self.size;
        let additional = wanted.saturating_sub(self.bytes.len());
        match self.bytes.reserve(additional) {
            Ok(()) => Ok(()),
            Err(_) => Err(StoreFault::NoMemory),
        }
    }

    fn set_len(&mut self, blocks: u64) -> Result<(), StoreFault> {
        self.change_count.step();
        match self.bytes.resize(blocks as usize * self.size, 0) {
            Ok(()) => {
                self.blocks = blocks;
                Ok(())
            }
            Err(_) => Err(StoreFault::NoMemory),
        }
    }

    fn sync(&mut self) -> Result<(), StoreFault> {
        Ok(())
    }
}
