//! The superblock of a hash device, read before the sizes that it names are known.
ghost use Rattle.std.specs.Prelude.{◌≡◌, ◌^◌, ◌<◌, ◌≤◌, true, IfOk, IfErr, OnOk};
ghost use Rattle.verity_superblock.specs.Image.{CanBegin, start_behind};
ghost use Rattle.verity_superblock.specs.Superblock.{IsProfile};
ghost use Rattle.cli_volume.specs.Refusals.{IsOfSuperblock};
ghost use Rattle.cli_volume.specs.Superblocks.{IsReadAs, IsReadOnce};

use cli_faults::Fault;
use os_host::{Opened, Paths, asked_store, len_of_most};
use std::alloc::Global;
use verity_store::BlockStore;
use verity_superblock::{SuperFault, Superblock, tree_start};

/// The bytes of a superblock, and of the blocks in which a hash device is read before its own block size is known.
pub const SUPERBLOCK_SIZE: usize = 512;

/// The superblock that stands at a byte offset of a file, and the hash block at which its tree begins. B10 where the
/// offset is no multiple of 512, or of the superblock's own hash blocks; B1 where the file ends before it; S2 where its length is no
/// multiple of 512; S1 where the system doesn't say how long it is, or refuses to read it.
pub fn read_superblock<P: Paths + AllocGlobal>(
    rt: &P,
    hash: Opened,
    offset: u64,
) -> Result<(Superblock, u64), Fault>
    ensures profile { IfOk result (λ read. IsProfile read.0.params read.0.data_blocks) }
    ensures begins { IfOk result (λ read. CanBegin offset read.0.params.hash_block_size) }
    ensures start { IfOk result (λ read. read.1 ≡ start_behind offset read.0.params.hash_block_size) }
    ensures near { IfOk result (λ read. read.1 ≤ 2 ^ 40) }
    ensures refused { IfErr result (IsOfSuperblock (P.refuses rt.now ≡ true)) }
{
    let len = len_of_most(rt, &hash, SUPERBLOCK_SIZE, u64::MAX)?;
    let mut hash_store = asked_store(rt, hash, len, SUPERBLOCK_SIZE)?;
    let read = superblock_in(rt.alloc(), &mut hash_store, offset);
    hash_store.facts();
    Ok(read?)
}

/// The superblock that stands at a byte offset of a store of 512 bytes a block, which is read once, and the hash block at which its tree
/// begins. B10 and B1 as above, S1 where the read fails.
pub fn superblock_in<S: BlockStore>(
    alloc: Global,
    hash_store: &mut S,
    offset: u64,
) -> Result<(Superblock, u64), Fault>
    ensures given { IfOk result (λ read. IsReadAs S.BlockStore hash_store.old hash_store.new offset read.0) }
    ensures profile { IfOk result (λ read. IsProfile read.0.params read.0.data_blocks) }
    ensures begins { IfOk result (λ read. CanBegin offset read.0.params.hash_block_size) }
    ensures start { IfOk result (λ read. read.1 ≡ start_behind offset read.0.params.hash_block_size) }
    ensures near { IfOk result (λ read. read.1 ≤ 2 ^ 40) }
    ensures bound { S.fixed hash_store.new ≡ S.fixed hash_store.old }
    ensures refused { IfErr result (IsOfSuperblock (0 < S.failures hash_store.new)) }
{
    let mut bytes = [0; SUPERBLOCK_SIZE];
    read_bytes(hash_store, offset, &mut bytes)?;
    let superblock = Superblock::decode(alloc, &bytes)?;
    let start = tree_start(offset, superblock.hash_block_size())?;
    Ok((superblock, start))
}

/// Reads the 512 bytes at a byte offset of a hash device.
fn read_bytes<S: BlockStore>(
    hash_store: &mut S,
    offset: u64,
    bytes: &mut [u8; SUPERBLOCK_SIZE],
) -> Result<(), Fault>
    ensures given { OnOk result (IsReadOnce S.BlockStore hash_store.old hash_store.new offset bytes.new) }
    ensures bound { S.fixed hash_store.new ≡ S.fixed hash_store.old }
    ensures refused { IfErr result (IsOfSuperblock (0 < S.failures hash_store.new)) }
{
    if offset % SUPERBLOCK_SIZE as u64 != 0 {
        return Err(SuperFault::Offset.into());
    }
    let place = offset / SUPERBLOCK_SIZE as u64;
    if hash_store.block_size() != SUPERBLOCK_SIZE || place >= hash_store.len() {
        return Err(SuperFault::Short.into());
    }
    hash_store.read(place, bytes)?;
    Ok(())
}
