//! The digests of the data blocks in their order, of which several are made at a time.
ghost use Rattle.std.specs.Prelude.{◌≡◌, ℕ, ◌+◌, ◌-◌, ◌%◌, ◌^◌, ◌<◌, ◌≤◌, [], true, length, slice_index_or, OnOk, OnErr, IfOk, IfErr};
ghost use Rattle.verity_digest.specs.Hash.{size_of, salted_digest};
ghost use Rattle.verity_store.specs.Stores.{IsOnlyRead};
ghost use Rattle.verity_geometry.specs.Geometry.{digests_per_block};
ghost use Rattle.verity_tree.specs.Ahead.{AreAhead, AreOfGiven, IsOfGiven, most_at_a_time};
ghost use Rattle.verity_tree.specs.Opens.{opens};

use crate::open_tree::OpenTree;
use std::alloc::Allocator;
use verity_digest::Digest;
use verity_geometry::Geometry;
use verity_store::{BlockStore, Which};

/// How many data blocks are hashed side by side.
const SIDE_BY_SIDE: usize = 8;

/// How many data blocks are read at a time at most.
const AT_A_TIME: usize = 128;

/// Up to how many bytes more than eight data blocks are read at a time.
const SHORT_RUN: usize = 65_536;

/// How many bytes of data blocks are read at a time, but for single blocks that are longer.
const LONGEST_RUN: usize = 524_288;

/// The bytes of the data blocks that are read at a time: of as many as 64 KiB hold or of eight, whichever is more, but of no
/// more than a hash block has digests for, 128 or 512 KiB hold. One is read in any case.
pub fn bytes_at_a_time(geometry: &Geometry) -> usize
    ensures one { geometry.now.data_size ≤ result }
    ensures most { result ≡ most_at_a_time geometry.now.data_size (digests_per_block geometry.now) }
{
    let size = geometry.data_size();
    size.saturating_mul(geometry.per_block().min(AT_A_TIME))
        .min(size.saturating_mul(SIDE_BY_SIDE).max(SHORT_RUN))
        .min(LONGEST_RUN)
        .max(size)
}

/// How many data blocks there are from `n` on up to the last whose digest comes to the same hash block.
fn left_in_hash_block(n: u64, per_block: usize) -> usize
    requires { 0 < per_block }
    ensures some { 0 < result }
    ensures end { (n + result) % per_block ≡ 0 }
{
    per_block - (n % per_block as u64) as usize
}

/// Digests of data blocks that were made ahead of their turn. The fields are public for contracts.
#[derive(Drop)]
pub struct Leaves {
    /// Of these those from `taken` to before `held` are still to be taken.
    pub digests: [Digest; 128],
    /// How many were taken.
    pub taken: usize,
    /// How many were made.
    pub held: usize,
    ghost order: { taken ≤ held },
    ghost most: { held ≤ 128 },
}

impl Leaves {
    /// No digest yet.
    pub fn new() -> Self
        ensures taken { result.taken ≡ 0 }
        ensures held { result.held ≡ 0 }
    {
        Leaves {
            digests: [Digest::from_bytes([0; 32]); 128],
            taken: 0,
            held: 0,
        }
    }

    /// Reads the data blocks from `n` on for which `buffer` has room, up to the last whose digest comes to the same hash block,
    /// 128 at most, and makes their digests. The data store where a read failed.
    fn fill<A: Allocator, D: BlockStore>(
        &mut self,
        tree: &mut OpenTree<A>,
        data_store: &mut D,
        n: u64,
        buffer: &mut [u8],
    ) -> Result<(), Which>
        requires within { n < tree.old.geometry.blocks }
        requires blocks { length (D.content data_store.old) ≡ tree.old.geometry.blocks }
        requires size { D.size data_store.old ≡ tree.old.geometry.data_size }
        requires room { tree.old.geometry.data_size ≤ length buffer.old }
        ensures ahead { OnOk result (AreAhead D.BlockStore tree.old.hasher.salted n data_store.new self.new.digests self.new.taken
            self.new.held) }
        ensures given { OnOk result ((mark : ℕ) → mark ≤ length (D.given data_store.old)
            → AreOfGiven D.BlockStore tree.old.hasher.salted mark n data_store.new self.new.digests self.new.taken self.new.held) }
        ensures some { OnOk result (self.new.taken < self.new.held) }
        ensures reads { OnOk result (D.reads data_store.new ≡ D.reads data_store.old + (self.new.held - self.new.taken)) }
        ensures reads_most { D.reads data_store.new + n ≤ D.reads data_store.old + tree.old.geometry.blocks }
        ensures read { IsOnlyRead D.BlockStore data_store.old data_store.new }
        ensures which { IfErr result (λ which. which ≡ Which.Data) }
        ensures failed { OnErr result (D.failures data_store.old < D.failures data_store.new) }
        ensures unfailed { OnOk result (D.failures data_store.new ≡ D.failures data_store.old) }
        ensures opens { opens tree.new ≡ opens tree.old }
        ensures root { tree.new.root ≡ tree.old.root }
        ensures salted { tree.new.hasher.salted ≡ tree.old.hasher.salted }
        ensures geometry { tree.new.geometry ≡ tree.old.geometry }
    {
        let size = tree.geometry.data_size();
        let left = tree.geometry.blocks() - n;
        // No further than the hash block that these digests fill: it is written before a block behind them is read.
        let count = (buffer.len() / size)
            .min(AT_A_TIME)
            .min(left as usize)
            .min(left_in_hash_block(n, tree.geometry.per_block()));
        let run = &mut buffer[..count * size];
        let Ok(()) = data_store.read_run(n, count, run) else {
            return Err(Which::Data);
        };
        tree.digest_run(run, &mut self.digests[..count]);
        self.taken = 0;
        self.held = count;
        Ok(())
    }

    /// The digest of data block `n`, whose turn it is. Where none is ahead, the blocks from `n` on are read into `buffer`, as
    /// many as it has room for, up to the last whose digest comes to the same hash block, 128 at most.
    ///
    /// The data store where a read failed.
    pub fn next<A: Allocator, D: BlockStore>(
        &mut self,
        tree: &mut OpenTree<A>,
        data_store: &mut D,
        n: u64,
        buffer: &mut [u8],
    ) -> Result<Digest, Which>
        requires ahead { AreAhead D.BlockStore tree.old.hasher.salted n data_store.old self.old.digests self.old.taken self.old.held }
        requires within { n < tree.old.geometry.blocks }
        requires blocks { length (D.content data_store.old) ≡ tree.old.geometry.blocks }
        requires size { D.size data_store.old ≡ tree.old.geometry.data_size }
        requires room { tree.old.geometry.data_size ≤ length buffer.old }
        ensures sized { IfOk result (λ digest. length digest ≡ size_of tree.old.hasher.salted.algorithm) }
        ensures right { IfOk result (λ digest. D.tells data_store.old ≡ true
            → digest ≡ salted_digest tree.old.hasher.salted (slice_index_or (D.content data_store.old) n [])) }
        ensures ahead { OnOk result (AreAhead D.BlockStore tree.old.hasher.salted (n + 1) data_store.new self.new.digests self.new.taken
            self.new.held) }
        ensures given { (mark : ℕ) → mark ≤ length (D.given data_store.old)
            → AreOfGiven D.BlockStore tree.old.hasher.salted mark n data_store.old self.old.digests self.old.taken self.old.held
            → IfOk result (λ digest. IsOfGiven D.BlockStore tree.old.hasher.salted mark n data_store.new digest
            × AreOfGiven D.BlockStore tree.old.hasher.salted mark (n + 1) data_store.new self.new.digests self.new.taken self.new.held) }
        ensures reads { OnOk result (D.reads data_store.new + (self.old.held - self.old.taken) ≡ D.reads data_store.old + 1 +
            (self.new.held - self.new.taken)) }
        ensures reads_most { D.reads data_store.new + n + (self.old.held - self.old.taken) ≤ D.reads data_store.old +
            tree.old.geometry.blocks }
        ensures read { IsOnlyRead D.BlockStore data_store.old data_store.new }
        ensures which { IfErr result (λ which. which ≡ Which.Data) }
        ensures failed { OnErr result (D.failures data_store.old < D.failures data_store.new) }
        ensures unfailed { OnOk result (D.failures data_store.new ≡ D.failures data_store.old) }
        ensures opens { opens tree.new ≡ opens tree.old }
        ensures root { tree.new.root ≡ tree.old.root }
        ensures salted { tree.new.hasher.salted ≡ tree.old.hasher.salted }
        ensures geometry { tree.new.geometry ≡ tree.old.geometry }
    {
        if self.taken == self.held {
            self.fill(tree, data_store, n, buffer)?;
        }
        let digest = self.digests[self.taken];
        self.taken += 1;
        Ok(digest)
    }
}
