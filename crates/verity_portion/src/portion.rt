//! A store of which the blocks of some runs are shown.
ghost use Rattle.std.specs.Prelude.{◌≡◌, ◌↔◌, IsTrue};
ghost use Rattle.verity_portion.specs.Portion.{portion_of, AreShown, IsPortion};

use crate::past::{Past, past_of};
use base_count::Count;
use std::marker::Model;
use verity_read_log::Given;
use verity_slice::Run;
use verity_store::{BlockStore, StoreFault};

/// A store of which the blocks of some runs are those of the store below. A contract sees that store, the runs, what was read, and what was
/// true of the store below when the portion was made.
///
/// A block outside the runs reads as zeros, and the store below isn't asked for it; each other call is the like call of the store below,
/// and its fault that one's. Each read is counted. A read looks for its block in each run, so these are to be few. It takes no memory.
///
/// It isn't honest, whatever the store below is: what it returns of a block outside the runs isn't the block that is held there.
#[derive(Drop)]
pub struct Portion<S: BlockStore> {
    store: S,
    runs: Vec<Run>,
    given: Given,
    asked: Count,
    past: Past,
}

impl<S: BlockStore> Model for Portion<S> {
    ghost use Rattle.verity_portion.specs.Portion.{Portioned, IsPortion};

    ghost Value = { Portioned S };

    ghost view = { λ p. record {
      store = p.store;
      runs = p.runs.items;
      given = p.given.blocks;
      asked = p.asked.steps;
      past = p.past.rows;
    } };

    ghost invariant = { λ p. IsPortion S.BlockStore (record {
      store = p.store;
      runs = p.runs.items;
      given = p.given.blocks;
      asked = p.asked.steps;
      past = p.past.rows;
    }) };
}

// Whether one of the runs has all blocks from `first` to before `end`.
fn shows(runs: &[Run], first: u64, end: u64) -> bool
    ensures { IsTrue result ↔ AreShown runs.now first end }
{
    runs.iter().any(|run| run.first <= first && end <= run.end)
}

impl<S: BlockStore> Portion<S> {
    /// The blocks of these runs of a store.
    pub fn new(store: S, runs: Vec<Run>) -> Portion<S>
        ensures { result ≡ portion_of S.BlockStore store runs.items }
    {
        let past = past_of(&store);
        Portion {
            store,
            runs,
            given: Given::new(),
            asked: Count::new(),
            past,
        }
    }

    /// The store below. What is true of each portion is said here.
    pub fn store(&self) -> &S
        ensures value { result.now ≡ self.now.store }
        ensures facts { IsPortion S.BlockStore self.now }
    {
        &self.store
    }
}

impl<S: BlockStore> BlockStore for Portion<S> {
    ghost use Rattle.std.specs.Prelude.{false};
    ghost use Rattle.verity_portion.specs.Portion.{bound_to};

    ghost size = { λ p. S.size p.store };

    ghost content = { λ p. S.content p.store };

    ghost tells = { λ _. false };

    ghost given = { λ p. p.given };

    ghost failures = { λ p. S.failures p.store };

    ghost reads = { λ p. p.asked };

    ghost changes = { λ p. S.changes p.store };

    ghost room = { λ p. S.room p.store };

    ghost synced = { λ p. S.synced p.store };

    ghost fixed = { λ p. bound_to p.runs p.past };

    fn block_size(&self) -> usize {
        self.store.block_size()
    }

    fn len(&self) -> u64 {
        self.store.len()
    }

    fn read(&mut self, n: u64, out: &mut [u8]) -> Result<(), StoreFault> {
        self.asked.step();
        let _len = self.store.len();
        if !shows(&self.runs, n, n + 1) {
            out.fill(0);
            self.given.note(n, out);
            return Ok(());
        }
        match self.store.read(n, out) {
            Ok(()) => {
                self.given.note(n, out);
                Ok(())
            }
            Err(fault) => Err(fault),
        }
    }

    fn write(&mut self, n: u64, block: &[u8]) -> Result<(), StoreFault> {
        self.store.write(n, block)
    }

    fn reserve(&mut self, blocks: u64) -> Result<(), StoreFault> {
        self.store.reserve(blocks)
    }

    fn set_len(&mut self, blocks: u64) -> Result<(), StoreFault> {
        self.store.set_len(blocks)
    }

    fn sync(&mut self) -> Result<(), StoreFault> {
        self.store.sync()
    }
}
