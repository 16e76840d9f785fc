//! A store that gives what it was told to give.
ghost use Rattle.std.specs.Prelude.{◌≡◌, ◌≢◌, ℕ, ◌↔◌, List, [], All, Contains, map, IfOk, IsTrue};
ghost use Rattle.verity_profile.specs.Profile.{IsBlockSize};
ghost use Rattle.test_stores.specs.Script.{IsSized};

use crate::Answer;
use base_count::Count;
use std::alloc::{Allocator, Global};
use std::marker::Model;
use verity_profile::is_block_size;
use verity_store::{Block, BlockStore, StoreFault};

/// A store whose reads give a list of answers in order, whatever is asked. It does not tell.
///
/// A read takes the next answer and keeps it with the number that was asked for; where none is left it answers S1. A write,
/// `set_len` and `sync` answer S1, `reserve` answers Ok.
#[derive(Drop)]
pub struct ScriptStore<A: Allocator = Global> {
    size: usize,
    blocks: u64,
    // The next answer stands last.
    left: Vec<Answer<A>, A>,
    given: Vec<(u64, Block<A>), A>,
    read_count: Count,
    failed: Count,
    changed: Count,
}

impl<A: Allocator> Model for ScriptStore<A> {
    ghost use Rattle.test_stores.specs.Script.{Script};

    ghost Value = { Script };

    ghost use Rattle.test_stores.specs.ScriptStore.{script_of, IsSound};

    ghost view = { script_of };

    ghost invariant = { IsSound };
}

// Whether each block of the answers has this size.
fn are_sized<A: Allocator>(answers: &[Answer<A>], size: usize) -> bool
    ensures { IsTrue result ↔ All (IsSized size) answers.now }
{
    answers.iter().all(|answer| answer.is_sized(size))
}

impl<A: Allocator> ScriptStore<A> {
    ghost use Rattle.test_stores.specs.Script.{block_of};

    /// A store of `blocks` blocks of `size` bytes whose reads give `answers`, the first one first. It takes memory to keep
    /// what it will give.
    ///
    /// S4 where `size` is not one of the profile; else S2 where the block of an answer has not `size` bytes; else S3 where
    /// memory was refused.
    pub fn new(
        alloc: A,
        size: usize,
        blocks: u64,
        answers: Vec<Answer<A>, A>,
    ) -> Result<ScriptStore<A>, StoreFault>
        ensures script { IfOk result (λ s. s
            ≡ record {
              size = size;
              blocks = blocks;
              answers = map block_of answers.items;
              given = [];
              reads = 0;
              failures = 0;
              changes = 0;
            }) }
        ensures wrong_size { (result ≡ Err StoreFault.BlockSize) ↔ ¬ IsBlockSize size }
        ensures ragged { (result ≡ Err StoreFault.Ragged) ↔ (IsBlockSize size × ¬ All (IsSized size) answers.items) }
        ensures device { result ≢ Err StoreFault.Device }
    {
        if !is_block_size(size) {
            return Err(StoreFault::BlockSize);
        }
        if !are_sized(&answers, size) {
            return Err(StoreFault::Ragged);
        }
        let Ok(given) = Vec::with_capacity(alloc, answers.len()) else {
            return Err(StoreFault::NoMemory);
        };
        let mut left = answers;
        left.reverse();
        Ok(ScriptStore {
            size,
            blocks,
            left,
            given,
            read_count: Count::new(),
            failed: Count::new(),
            changed: Count::new(),
        })
    }

    /// The blocks that were given so far, each after the number that was asked for, in the order in which they were given.
    pub fn given(&self) -> &[(u64, Block<A>)]
        ensures list { result.now ≡ self.now.given }
        ensures given { result.now ≡ ⟦<ScriptStore<A> as BlockStore>⟧.given self.now }
    {
        &self.given
    }
}

impl<A: Allocator> BlockStore for ScriptStore<A> {
    ghost use Rattle.std.specs.Prelude.{◌≡◌, ℕ, ◌^◌, List, length, replicate, Contains, false, None, Some, IsOk};
    ghost use Rattle.verity_profile.specs.Profile.{zero_block};
    ghost use Rattle.test_stores.specs.Script.{Script, next_block, after_read, after_fault, after_change};

    ghost size = { λ s. s.size };

    ghost content = { λ s. replicate s.blocks (zero_block s.size) };

    ghost tells = { λ _. false };

    ghost given = { λ s. s.given };

    ghost failures = { λ s. s.failures };

    ghost reads = { λ s. s.reads };

    ghost changes = { λ s. s.changes };

    ghost room = { λ _. 2 ^ 41 };

    fn block_size(&self) -> usize {
        self.size
    }

    fn len(&self) -> u64 {
        self.blocks
    }

    fn read(&mut self, n: u64, out: &mut [u8]) -> Result<(), StoreFault>
        requires sized { length out.old ≡ self.old.size }
        ensures after { self.new ≡ after_read n (next_block self.old.answers) self.old }
        ensures gives { (b : List ℕ) → next_block self.old.answers ≡ Some b → IsOk result × (out.new ≡ b) }
        ensures fails { next_block self.old.answers ≡ None → result ≡ Err StoreFault.Device }
        ensures whole { length out.new ≡ self.old.size }
    {
        self.read_count.step();
        match self.left.pop() {
            Some(Answer::Block(block)) => {
                out.copy_from_slice(block.as_slice());
                match self.given.push((n, block)) {
                    Ok(()) => Ok(()),
                    Err(_) => unreachable!(),
                }
            }
            _ => {
                self.failed.step();
                Err(StoreFault::Device)
            }
        }
    }

    fn write(&mut self, _n: u64, _block: &[u8]) -> Result<(), StoreFault>
        ensures refused { result ≡ Err StoreFault.Device }
        ensures after { self.new ≡ after_change self.old }
    {
        self.changed.step();
        self.failed.step();
        Err(StoreFault::Device)
    }

    fn reserve(&mut self, _blocks: u64) -> Result<(), StoreFault>
        ensures ok { IsOk result }
        ensures after { self.new ≡ self.old }
    {
        Ok(())
    }

    fn set_len(&mut self, _blocks: u64) -> Result<(), StoreFault>
        ensures refused { result ≡ Err StoreFault.Device }
        ensures after { self.new ≡ after_change self.old }
    {
        self.changed.step();
        self.failed.step();
        Err(StoreFault::Device)
    }

    fn sync(&mut self) -> Result<(), StoreFault>
        ensures refused { result ≡ Err StoreFault.Device }
        ensures after { self.new ≡ after_fault self.old }
    {
        self.failed.step();
        Err(StoreFault::Device)
    }
}
