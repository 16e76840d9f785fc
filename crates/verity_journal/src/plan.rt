//! What a commit is to change: for each device what is kept of it, its new length, and the changes.
ghost use Rattle.std.specs.Prelude.{◌≡◌, ◌<◌, ◌≤◌, ◌^◌, ◌↔◌, ℕ, List, length, IsTrue};
ghost use Rattle.verity_journal.specs.Plan.{IsBelow, IsSide, IsSmall};

use std::alloc::{Allocator, Global};
use std::marker::Model;

/// Bytes that are written at a place.
#[derive(Drop)]
pub struct Change<A: Allocator = Global> {
    at: u64,
    bytes: Vec<u8, A>,
}

impl<A: Allocator> Model for Change<A> {
    ghost Value = { ℕ × List ℕ };

    ghost view = { λ change. (change.at, change.bytes.items) };
}

impl<A: Allocator> Change<A> {
    /// These bytes, at this place. It takes no memory.
    pub fn new(at: u64, bytes: Vec<u8, A>) -> Change<A>
        ensures { result ≡ (at, bytes.items) }
    {
        Change { at, bytes }
    }

    /// Where they are written.
    pub fn at(&self) -> u64
        ensures { result ≡ self.now.0 }
    {
        self.at
    }

    // Whether it lies below this length.
    fn is_below(&self, len: u64) -> bool
        ensures { IsTrue result ↔ IsBelow len self.now }
    {
        let size = self.bytes.len() as u64;
        size <= len && self.at <= len - size
    }

    /// The bytes.
    pub fn bytes(&self) -> &[u8]
        ensures { result.now ≡ self.now.1 }
    {
        &self.bytes
    }
}

/// The changes of one device: so many bytes are kept of it, it gets this length, and then these bytes at these places.
#[derive(Drop)]
pub struct Side<A: Allocator = Global> {
    keep: u64,
    len: u64,
    changes: Vec<Change<A>, A>,
}

impl<A: Allocator> Model for Side<A> {
    ghost use Rattle.verity_journal.specs.Plan.{Side};

    ghost Value = { Side };

    ghost view = { λ side. record { keep = side.keep; len = side.len; changes = side.changes.items } };
}

impl<A: Allocator> Side<A> {
    /// So many bytes are kept, this is the new length, and these are the changes. It takes no memory.
    pub fn new(keep: u64, len: u64, changes: Vec<Change<A>, A>) -> Side<A>
        ensures { result ≡ record { keep = keep; len = len; changes = changes.items } }
    {
        Side { keep, len, changes }
    }

    /// How many bytes are kept.
    pub fn keep(&self) -> u64
        ensures { result ≡ self.now.keep }
    {
        self.keep
    }

    /// The new length.
    pub fn len(&self) -> u64
        ensures { result ≡ self.now.len }
    {
        self.len
    }

    // Whether no more is kept than the length, and the changes lie below it.
    #[tactic(auto, using(crate::proofs::Sides::fit_all, crate::proofs::Sides::all_fit))]
    fn fits(&self) -> bool
        ensures fits { IsTrue result ↔ IsSide self.now }
        ensures small { IsSmall self.now }
    {
        let keep = self.keep;
        let len = self.len;
        let changes = &self.changes;
        keep <= len && changes.iter().all(|change| change.is_below(len))
    }

    /// The changes.
    pub fn changes(&self) -> &[Change<A>]
        ensures { result.now ≡ self.now.changes }
    {
        &self.changes
    }
}

/// The changes of a commit, and bytes that name the volume, of which nothing is asked here.
#[derive(Drop)]
pub struct Plan<A: Allocator = Global> {
    names: Vec<u8, A>,
    data: Side<A>,
    hash: Side<A>,
}

impl<A: Allocator> Model for Plan<A> {
    ghost use Rattle.verity_journal.specs.Plan.{Plan};

    ghost Value = { Plan };

    ghost view = { λ plan. record { names = plan.names.items; on_data = plan.data; on_hash = plan.hash } };
}

impl<A: Allocator> Plan<A> {
    /// These changes of both devices of the volume that these bytes name. It takes no memory.
    pub fn new(names: Vec<u8, A>, on_data: Side<A>, on_hash: Side<A>) -> Plan<A>
        ensures { result ≡ record { names = names.items; on_data = on_data; on_hash = on_hash } }
    {
        Plan {
            names,
            data: on_data,
            hash: on_hash,
        }
    }

    /// The bytes that name the volume.
    pub fn names(&self) -> &[u8]
        ensures { result.now ≡ self.now.names }
    {
        &self.names
    }

    /// The changes of the data device.
    pub fn data(&self) -> &Side<A>
        ensures { result.now ≡ self.now.on_data }
    {
        &self.data
    }

    /// The changes of the hash device.
    pub fn hash(&self) -> &Side<A>
        ensures { result.now ≡ self.now.on_hash }
    {
        &self.hash
    }

    /// Whether it is a plan for devices of these lengths: they have what is kept of them, no more is kept than the new length,
    /// and the changes lie below it. It takes time for each change.
    pub fn suits(&self, data_len: u64, hash_len: u64) -> bool
        ensures suits { IsTrue result ↔ (IsSide self.now.on_data × IsSide self.now.on_hash
            × (self.now.on_data.keep ≤ data_len) × (self.now.on_hash.keep ≤ hash_len)) }
        ensures small { IsSmall self.now.on_data × IsSmall self.now.on_hash × (length self.now.names < 2 ^ 64) }
    {
        let _few = self.names.len();
        let data_fits = self.data.fits();
        let hash_fits = self.hash.fits();
        data_fits && hash_fits && self.data.keep <= data_len && self.hash.keep <= hash_len
    }
}
