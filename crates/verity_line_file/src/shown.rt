//! What a volume shows of its table line.
ghost use Rattle.std.specs.Prelude.{◌≡◌, ◌⊎◌, ◌<◌, ◌≤◌, ◌==◌, IsTrue, ◌↔◌, IfOk, IfErr, length};
ghost use Rattle.verity_digest.specs.Hash.{salted_digest};
ghost use Rattle.verity_store.specs.Stores.{IsOnlyRead};
ghost use Rattle.verity_superblock.specs.Superblock.{salted};
ghost use Rattle.verity_line_file.specs.Shown.{HasSizes, Shows, IsShown, GaveNow, values_of};

use std::alloc::Global;
use std::marker::Model;
use thiserror::Error;
use verity_digest::{Digest, Hasher};
use verity_store::{BlockStore, Which};
use verity_superblock::{Superblock, Table};

/// Why a volume shows nothing.
#[derive(Clone, Copy, Debug, PartialEq, Eq, Error)]
pub enum ShownFault {
    /// This store ends before the top block.
    #[error("the {0} device ends before the top block")]
    Short(Which),
    /// This store failed.
    #[error("the {0} device failed")]
    Store(Which),
    /// There is too little memory.
    #[error("there is too little memory")]
    NoMemory,
}

/// The values of a volume's superblock, the hash block at which its tree begins, and the digest of its top block.
#[derive(Drop)]
pub struct Shown {
    superblock: Superblock,
    start: u64,
    root: Digest,
}

impl Model for Shown {
    ghost use Rattle.verity_line_file.specs.Shown.{Values, values_of};

    ghost Value = { Values };

    ghost view = { λ shown. values_of shown.superblock shown.start shown.root };
}

/// Reads block `n` of a store. It takes memory for the block.
fn read_block<S: BlockStore>(
    alloc: Global,
    store: &mut S,
    n: u64,
    which: Which,
) -> Result<Vec<u8>, ShownFault>
    requires { n < length (S.content store.old) }
    ensures given { IfOk result (λ block. GaveNow S.BlockStore store.old store.new n block.items) }
    ensures failed { result ≡ Err (ShownFault.Store which) → S.failures store.old < S.failures store.new }
    ensures fault { IfErr result (λ e. (e ≡ ShownFault.Store which) ⊎ (e ≡ ShownFault.NoMemory)) }
    ensures store { IsOnlyRead S.BlockStore store.old store.new }
{
    let Ok(block) = Vec::from_elem(alloc, 0u8, store.block_size()) else {
        return Err(ShownFault::NoMemory);
    };
    let mut block = block;
    match store.read(n, &mut block) {
        Ok(()) => Ok(block),
        Err(_) => Err(ShownFault::Store(which)),
    }
}

/// The digest of block `n` of a store, by the algorithm and the salt of a superblock. It takes memory for the block and the salt.
fn digest_at<S: BlockStore>(
    alloc: Global,
    superblock: &Superblock,
    store: &mut S,
    n: u64,
    which: Which,
) -> Result<Digest, ShownFault>
    ensures digest { IfOk result (λ digest. (block : _) × GaveNow S.BlockStore store.old store.new n block
        × (digest ≡ salted_digest (salted superblock.now.params) block)) }
    ensures short { result ≡ Err (ShownFault.Short which) → length (S.content store.old) ≤ n }
    ensures failed { result ≡ Err (ShownFault.Store which) → S.failures store.old < S.failures store.new }
    ensures fault { IfErr result (λ e. (e ≡ ShownFault.Short which) ⊎ (e ≡ ShownFault.Store which) ⊎ (e ≡ ShownFault.NoMemory)) }
    ensures store { IsOnlyRead S.BlockStore store.old store.new }
{
    if store.len() <= n {
        return Err(ShownFault::Short(which));
    }
    let block = read_block(alloc, store, n, which)?;
    let Ok(salt) = superblock.salt().copy(alloc) else {
        return Err(ShownFault::NoMemory);
    };
    let mut hasher = Hasher::new(salt, superblock.algorithm());
    Ok(hasher.digest(&block))
}

impl Shown {
    /// What a volume shows whose superblock stands in front of hash block `start`. It reads one block: of a volume of one block its data
    /// block, else the first block of the tree, which is the top.
    pub fn read<D: BlockStore, H: BlockStore>(
        alloc: Global,
        superblock: Superblock,
        start: u64,
        data_store: &mut D,
        hash_store: &mut H,
    ) -> Result<Shown, ShownFault>
        ensures shown { IfOk result (IsShown D.BlockStore H.BlockStore superblock start data_store.old data_store.new
            hash_store.old hash_store.new) }
        ensures data_store { IsOnlyRead D.BlockStore data_store.old data_store.new }
        ensures hash_store { IsOnlyRead H.BlockStore hash_store.old hash_store.new }
        ensures failed_data { result ≡ Err (ShownFault.Store Which.Data) → D.failures data_store.old < D.failures data_store.new }
        ensures failed_hash { result ≡ Err (ShownFault.Store Which.Hash) → H.failures hash_store.old < H.failures hash_store.new }
        ensures short_data { result ≡ Err (ShownFault.Short Which.Data) → length (D.content data_store.old) ≡ 0 }
        ensures short_hash { result ≡ Err (ShownFault.Short Which.Hash) → length (H.content hash_store.old) ≤ start }
    {
        if superblock.data_blocks() == 1 {
            let root = digest_at(alloc, &superblock, data_store, 0, Which::Data)?;
            Ok(Shown {
                superblock,
                start,
                root,
            })
        } else {
            let root = digest_at(alloc, &superblock, hash_store, start, Which::Hash)?;
            Ok(Shown {
                superblock,
                start,
                root,
            })
        }
    }

    /// Whether a table line has the values that the volume shows, but for the root hash.
    pub fn has_sizes(&self, table: &Table) -> bool
        ensures { IsTrue result ↔ HasSizes self.now table.now }
    {
        table.data_block_size() == self.superblock.data_block_size()
            && table.hash_block_size() == self.superblock.hash_block_size()
            && table.data_blocks() == self.superblock.data_blocks()
            && table.hash_start_block() == self.start
            && table.algorithm() == self.superblock.algorithm()
            && table.salt().bytes() == self.superblock.salt().bytes()
    }

    /// Whether the volume is that of a table line, whatever its two device fields are.
    pub fn shows(&self, table: &Table) -> bool
        ensures { IsTrue result ↔ Shows self.now table.now }
    {
        self.has_sizes(table) && table.root().bytes() == self.root.bytes()
    }
}
