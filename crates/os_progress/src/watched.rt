//! A store that is watched.
ghost use Rattle.std.specs.Prelude.{◌≡◌};

use std::marker::Model;
use verity_store::{BlockStore, StoreFault};

/// What is told of each block that is read or written.
pub trait Meter {
    /// So many bytes more were asked for.
    fn note(&self, bytes: u64);
}

/// A meter, or nobody.
impl<M: Meter> Meter for Option<&M> {
    fn note(&self, bytes: u64) {
        if let Some(meter) = self {
            meter.note(bytes);
        }
    }
}

/// A store over another, which tells a meter of each block that is read or written, before it is. A contract sees the store
/// below in its place.
///
/// Each call is the like call of the store below, and its fault that one's. It takes no memory.
#[derive(Drop)]
pub struct Watched<S: BlockStore, M: Meter> {
    store: S,
    meter: M,
}

impl<S: BlockStore, M: Meter> Model for Watched<S, M> {
    ghost Value = { S };

    ghost view = { λ w. w.store };
}

impl<S: BlockStore, M: Meter> Watched<S, M> {
    /// The store, of which this meter is told: no other is at hand, whichever kind of meter it is.
    pub fn new(store: S, meter: M) -> Watched<S, M>
        ensures { result ≡ store }
    {
        Watched { store, meter }
    }

    /// The store below.
    pub fn store(&self) -> &S
        ensures { result.now ≡ self.now }
    {
        &self.store
    }

    /// Tells the meter.
    fn tell(&self, bytes: usize) {
        self.meter.note(bytes as u64);
    }
}

impl<S: BlockStore, M: Meter> BlockStore for Watched<S, M> {
    ghost size = { λ s. S.size s };

    ghost content = { λ s. S.content s };

    ghost tells = { λ s. S.tells s };

    ghost given = { λ s. S.given s };

    ghost failures = { λ s. S.failures s };

    ghost reads = { λ s. S.reads s };

    ghost changes = { λ s. S.changes s };

    ghost room = { λ s. S.room s };

    ghost synced = { λ s. S.synced s };

    ghost fixed = { λ s. S.fixed s };

    fn block_size(&self) -> usize {
        self.store.block_size()
    }

    fn len(&self) -> u64 {
        self.store.len()
    }

    fn read(&mut self, n: u64, out: &mut [u8]) -> Result<(), StoreFault> {
        self.tell(out.len());
        self.store.read(n, out)
    }

    fn read_run(&mut self, first: u64, count: usize, out: &mut [u8]) -> Result<(), StoreFault> {
        self.tell(out.len());
        self.store.read_run(first, count, out)
    }

    fn write(&mut self, n: u64, block: &[u8]) -> Result<(), StoreFault> {
        self.tell(block.len());
        self.store.write(n, block)
    }

    fn reserve(&mut self, blocks: u64) -> Result<(), StoreFault> {
        self.store.reserve(blocks)
    }

    fn set_len(&mut self, blocks: u64) -> Result<(), StoreFault> {
        self.store.set_len(blocks)
    }

    fn sync(&mut self) -> Result<(), StoreFault> {
        self.store.sync()
    }
}
