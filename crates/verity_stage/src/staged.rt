//! A store whose changes are staged.
ghost use Rattle.std.specs.Prelude.{false, ◌≡◌, ◌≤◌, ◌^◌, ◌<◌, [], true, length, slice_index_or, IfOk, IfErr, OnOk};
ghost use Rattle.verity_stage.specs.Stage.{staged, below_of};

use crate::Stage;
use crate::staged_store::StagedStore;
use base_count::Count;
use std::alloc::{AllocError, Allocator, Global};
use verity_journal::Side;
use verity_read_log::Given;
use verity_store::{BlockStore, StoreFault};

/// A store over another: what is written, and each change of length, is kept beside it.
///
/// It takes memory for each block that was written and is still there, whatever was synced since.
#[derive(Drop)]
pub struct Staged<S: BlockStore, A: Allocator + Copy = Global> {
    store: S,
    stage: Stage<A>,
    read_count: Count,
    change_count: Count,
    failed: Count,
    given: Given,
    is_starved: bool,
    ghost size: { S.size store ≡ stage.size },
    ghost kept: { stage.least ≤ length (S.content store) },
}

impl<S: BlockStore, A: Allocator + Copy> Staged<S, A> {
    /// Nothing is staged over a store. S1 where it has more than 2^41 blocks; it is then closed.
    pub fn new(alloc: A, store: S) -> Result<Staged<S, A>, StoreFault>
    where
        S: Drop,
        ensures content { IfOk result (λ s. ⟦<Staged<S, A> as BlockStore>⟧.content s ≡ S.content store) }
        ensures store { IfOk result (λ s. s.store ≡ store) }
        ensures size { IfOk result (λ s. ⟦<Staged<S, A> as BlockStore>⟧.size s ≡ S.size store) }
        ensures tells { IfOk result (λ s. ⟦<Staged<S, A> as BlockStore>⟧.tells s ≡ S.tells store) }
        ensures fault { IfErr result (λ e. (e ≡ StoreFault.Device) × (2 ^ 41 < length (S.content store))) }
        ensures starved { IfOk result (λ s. s.is_starved ≡ false) }
    {
        let size = store.block_size();
        let blocks = store.len();
        if blocks > 1 << 41 {
            return Err(StoreFault::Device);
        }
        Ok(Staged {
            store,
            stage: Stage::new(alloc, size, blocks),
            read_count: Count::new(),
            change_count: Count::new(),
            failed: Count::new(),
            given: Given::new(),
            is_starved: false,
        })
    }
}

// Reads what was written to block `n`, or the block of the store below, or zeros.
fn read_staged<S: BlockStore, A: Allocator + Copy>(
    store: &mut S,
    stage: &Stage<A>,
    n: u64,
    out: &mut [u8],
) -> Result<(), StoreFault>
    requires within { n < stage.now.blocks }
    requires sized { length out.old ≡ stage.now.size }
    requires size { S.size store.old ≡ stage.now.size }
    requires kept { stage.now.least ≤ length (S.content store.old) }
    ensures right { OnOk result (S.tells store.old ≡ true → slice_index_or (staged (S.content store.old) stage.now) n [] ≡ out.new) }
    ensures error { IfErr result (λ e. e ≡ StoreFault.Device) }
    ensures content { S.content store.new ≡ S.content store.old }
    ensures tells { S.tells store.new ≡ S.tells store.old }
    ensures size { S.size store.new ≡ S.size store.old }
{
    stage.facts();
    if let Some(block) = stage.get(n) {
        out.copy_from_slice(block);
        return Ok(());
    }
    if stage.least() <= n {
        out.fill(0);
        return Ok(());
    }
    match store.read(n, out) {
        Ok(()) => Ok(()),
        Err(fault) => Err(fault),
    }
}

impl<S: BlockStore, A: Allocator + Copy> BlockStore for Staged<S, A> {
    ghost size = { λ s. S.size s.store };

    ghost content = { λ s. staged (S.content s.store) s.stage };

    ghost tells = { λ s. S.tells s.store };

    ghost given = { λ s. s.given.blocks };

    ghost failures = { λ s. s.failed.steps };

    ghost reads = { λ s. s.read_count.steps };

    ghost changes = { λ s. s.change_count.steps };

    ghost room = { λ _. 2 ^ 41 };

    ghost fixed = { λ s. below_of (S.content s.store) };

    fn block_size(&self) -> usize {
        self.stage.facts();
        self.store.block_size()
    }

    fn len(&self) -> u64 {
        self.stage.blocks()
    }

    fn read(&mut self, n: u64, out: &mut [u8]) -> Result<(), StoreFault> {
        self.read_count.step();
        if read_staged(&mut self.store, &self.stage, n, out).is_err() {
            self.failed.step();
            return Err(StoreFault::Device);
        }
        self.given.note(n, out);
        Ok(())
    }

    fn write(&mut self, n: u64, block: &[u8]) -> Result<(), StoreFault> {
        self.change_count.step();
        match self.stage.write(n, block) {
            Ok(()) => Ok(()),
            Err(_) => {
                self.failed.step();
                self.is_starved = true;
                Err(StoreFault::Device)
            }
        }
    }

    fn reserve(&mut self, _blocks: u64) -> Result<(), StoreFault> {
        Ok(())
    }

    fn set_len(&mut self, blocks: u64) -> Result<(), StoreFault> {
        self.change_count.step();
        self.stage.resize(blocks);
        Ok(())
    }

    fn sync(&mut self) -> Result<(), StoreFault> {
        Ok(())
    }
}

impl<S: BlockStore, A: Allocator + Copy> StagedStore<A> for Staged<S, A> {
    ghost stage = { λ s. s.stage };

    ghost starved = { λ s. s.is_starved };

    fn facts(&self) {
        let _size = self.store.block_size();
        self.stage.facts();
    }

    fn is_starved(&self) -> bool {
        self.is_starved
    }

    fn side(&self) -> Result<Side<A>, AllocError> {
        let _size = self.store.block_size();
        self.stage.facts();
        let side = self.stage.side()?;
        Ok(side)
    }
}
