//! A hash device, whose tree is seen at another hash block.
ghost use Rattle.std.specs.Prelude.{◌≡◌, ◌≤◌, ◌^◌};
ghost use Rattle.verity_moved.specs.Moved.{moved_from};

use base_count::Count;
use std::marker::Model;
use verity_store::{BlockStore, StoreFault};

/// A store over a hash device, to be read: its blocks from hash block `there` on, `count` of them at most, seen from hash block `here` on.
/// What stands in front of them isn't to be read.
///
/// A read of a block is one of the store below, which it is counted as. Reads in front of hash block `here`, writes and changes of the
/// length fail with S1 and aren't passed on. It takes no memory.
#[derive(Drop)]
pub struct Moved<S: BlockStore> {
    store: S,
    here: u64,
    there: u64,
    count: u64,
    refused: Count,
    asked: Count,
}

impl<S: BlockStore> Model for Moved<S> {
    ghost use Rattle.std.specs.Prelude.{◌≤◌, ◌^◌};
    ghost use Rattle.verity_moved.specs.Moved.{Moving};

    ghost Value = { Moving S };

    ghost view = { λ m. record {
      store = m.store;
      here = m.here;
      there = m.there;
      count = m.count;
      refused = m.refused.steps;
      asked = m.asked.steps;
    } };

    ghost invariant = { λ m. (m.here ≤ 2 ^ 41) × (m.count ≤ 2 ^ 41) };
}

impl<S: BlockStore> Moved<S> {
    /// These blocks of a store, seen there.
    pub fn new(store: S, here: u64, there: u64, count: u64) -> Moved<S>
        requires near { here ≤ 2 ^ 41 }
        requires few { count ≤ 2 ^ 41 }
        ensures { result ≡ moved_from store here there count }
    {
        Moved {
            store,
            here,
            there,
            count,
            refused: Count::new(),
            asked: Count::new(),
        }
    }
}

impl<S: BlockStore> BlockStore for Moved<S> {
    ghost use Rattle.std.specs.Prelude.{◌+◌, map};
    ghost use Rattle.verity_moved.specs.Moved.{moved_content, moved_given, moved_fixed};

    ghost size = { λ m. S.size m.store };

    ghost content = { λ m. moved_content (S.size m.store) m (S.content m.store) };

    ghost tells = { λ m. S.tells m.store };

    ghost given = { λ m. moved_given m (S.given m.store) };

    ghost failures = { λ m. S.failures m.store + (m.refused + m.asked) };

    ghost reads = { λ m. S.reads m.store + m.refused };

    ghost changes = { λ m. S.changes m.store + m.asked };

    ghost room = { λ _. 0 };

    ghost synced = { λ m. S.synced m.store };

    ghost fixed = { λ m. moved_fixed m (S.fixed m.store) };

    fn block_size(&self) -> usize {
        self.store.block_size()
    }

    fn len(&self) -> u64 {
        self.here + self.count.min(self.store.len().saturating_sub(self.there))
    }

    fn read(&mut self, n: u64, out: &mut [u8]) -> Result<(), StoreFault> {
        if n < self.here {
            self.refused.step();
            return Err(StoreFault::Device);
        }
        let _len = self.store.len();
        self.store.read(self.there + (n - self.here), out)
    }

    fn write(&mut self, _n: u64, _block: &[u8]) -> Result<(), StoreFault> {
        self.asked.step();
        Err(StoreFault::Device)
    }

    fn reserve(&mut self, blocks: u64) -> Result<(), StoreFault> {
        if blocks == 0 {
            Ok(())
        } else {
            Err(StoreFault::NoMemory)
        }
    }

    fn set_len(&mut self, _blocks: u64) -> Result<(), StoreFault> {
        self.asked.step();
        Err(StoreFault::Device)
    }

    fn sync(&mut self) -> Result<(), StoreFault> {
        self.store.sync()
    }
}
