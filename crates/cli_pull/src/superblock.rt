//! The superblock that is to stand in HASH.
ghost use Rattle.std.specs.Prelude.{◌≡◌, ◌<◌, ◌-◌, ℕ, length, ◌↔◌, IsTrue, IfOk, IfSome};
ghost use Rattle.verity_store.specs.Given.{GaveSince};
ghost use Rattle.verity_store.specs.Stores.{IsOnlyRead};
ghost use Rattle.verity_superblock.specs.Image.{superblock_block};
ghost use Rattle.verity_superblock.specs.Superblock.{Params};
ghost use Rattle.cli_pull.specs.Superblocks.{params_of, HasSuperblock, IsOfLine, IsSuperblock, IsUuid};
ghost use Rattle.cli_pull.specs.Words.{IsElsewhere};

use crate::line::Asked;
use cli_faults::{Failure, salt};
use std::alloc::Global;
use uuid::Uuid;
use verity_chain::Tree;
use verity_check::CheckFault;
use verity_edit::EditFault;
use verity_store::{BlockStore, Which};
use verity_superblock::{SuperFault, Superblock, Table};

/// The hash block that is to stand in front of the tree in HASH: the superblock of the volume with the UUID that is named, else that of the
/// superblock in HASH, else that of the source's. Where HASH's tree begins at hash block 0 there is none, and it has zeros alone.
pub fn superblock_of<K: BlockStore, H: BlockStore>(
    alloc: Global,
    asked: &Asked,
    tree: &Tree,
    hash_store: &mut K,
    source_hash: &mut H,
) -> Result<Vec<u8>, Failure>
    requires { IsElsewhere asked.now.to tree.now }
    ensures made { IfOk result (λ block. IsSuperblock K.BlockStore H.BlockStore hash_store.old hash_store.new source_hash.old
        source_hash.new asked.now.uuid asked.now.to tree.now.hash_start_block block.items) }
    ensures len { IfOk result (λ block. length block.items ≡ tree.now.hash_block_size) }
    ensures read { IsOnlyRead K.BlockStore hash_store.old hash_store.new }
    ensures source_read { IsOnlyRead H.BlockStore source_hash.old source_hash.new }
{
    let table = tree.table();
    let start = table.hash_start_block();
    if start == 0 {
        return Ok(Vec::from_elem(alloc, 0u8, table.hash_block_size())?);
    }
    let uuid = uuid_of(alloc, asked, start, hash_store, source_hash)?;
    block_of(alloc, table, uuid)
}

/// The UUID that is named, else that of the superblock in front of hash block `start` of HASH, else that of the source's.
fn uuid_of<K: BlockStore, H: BlockStore>(
    alloc: Global,
    asked: &Asked,
    start: u64,
    hash_store: &mut K,
    source_hash: &mut H,
) -> Result<Uuid, Failure>
    ensures found { IfOk result (IsUuid K.BlockStore H.BlockStore hash_store.old hash_store.new source_hash.old source_hash.new
        asked.now.uuid asked.now.to start) }
    ensures read { IsOnlyRead K.BlockStore hash_store.old hash_store.new }
    ensures source_read { IsOnlyRead H.BlockStore source_hash.old source_hash.new }
{
    match asked.uuid {
        Some(uuid) => Ok(uuid),
        None => match own_uuid(alloc, hash_store, start)? {
            Some(uuid) => Ok(uuid),
            None => source_uuid(alloc, source_hash, &asked.to),
        },
    }
}

/// The hash block in front of the tree of a table line: the superblock of its volume with this UUID, and zeros behind it.
fn block_of(alloc: Global, table: &Table, uuid: Uuid) -> Result<Vec<u8>, Failure>
    ensures block { IfOk result (λ block. block.items ≡ superblock_block (params_of table.now uuid) table.now.data_blocks) }
    ensures len { IfOk result (λ block. length block.items ≡ table.now.hash_block_size) }
{
    let superblock = Superblock::new(
        table.data_block_size(),
        table.hash_block_size(),
        table.data_blocks(),
        salt(alloc, table.salt().bytes())?,
        uuid,
        table.algorithm(),
    )?;
    superblock.facts();
    let mut block = superblock.encode().to_vec(alloc)?;
    block.resize(table.hash_block_size(), 0)?;
    Ok(block)
}

/// The UUID of the superblock in front of hash block `start` of HASH, if there is one. A block that can't be read is none.
fn own_uuid<K: BlockStore>(
    alloc: Global,
    hash_store: &mut K,
    start: u64,
) -> Result<Option<Uuid>, Failure>
    ensures found { IfOk result (λ found. IfSome found (λ uuid. (p : Params) × (count : ℕ)
        × HasSuperblock K.BlockStore hash_store.old hash_store.new (start - 1) p count × (p.uuid ≡ uuid))) }
    ensures read { IsOnlyRead K.BlockStore hash_store.old hash_store.new }
{
    match superblock_before(alloc, hash_store, start) {
        Ok(superblock) => Ok(Some(superblock.uuid())),
        Err(Failure::NoMemory) => Err(Failure::NoMemory),
        Err(_) => Ok(None),
    }
}

/// The UUID of the superblock in front of the tree of the source. B1 to B8 where there is none; E13 where it is another volume's; V3 where
/// it can't be read.
fn source_uuid<H: BlockStore>(
    alloc: Global,
    hash_store: &mut H,
    to: &Table,
) -> Result<Uuid, Failure>
    ensures found { IfOk result (λ uuid. HasSuperblock H.BlockStore hash_store.old hash_store.new (to.now.hash_start_block - 1)
        (params_of to.now uuid) to.now.data_blocks) }
    ensures read { IsOnlyRead H.BlockStore hash_store.old hash_store.new }
{
    let superblock = superblock_before(alloc, hash_store, to.hash_start_block())?;
    if is_of(&superblock, to) {
        Ok(superblock.uuid())
    } else {
        Err(EditFault::Line.into())
    }
}

/// Whether a superblock has the values of a table line.
fn is_of(superblock: &Superblock, to: &Table) -> bool
    ensures { IsTrue result ↔ IsOfLine superblock.now.params superblock.now.data_blocks to.now }
{
    superblock.data_block_size() == to.data_block_size()
        && superblock.hash_block_size() == to.hash_block_size()
        && superblock.data_blocks() == to.data_blocks()
        && superblock.algorithm() == to.algorithm()
        && superblock.salt().bytes() == to.salt().bytes()
}

/// The superblock in the hash block in front of `start`. B1 where there is no such block; V3 where it can't be read.
fn superblock_before<H: BlockStore>(
    alloc: Global,
    hash_store: &mut H,
    start: u64,
) -> Result<Superblock, Failure>
    ensures found { IfOk result (λ found. HasSuperblock H.BlockStore hash_store.old hash_store.new (start - 1) found.params
        found.data_blocks) }
    ensures read { IsOnlyRead H.BlockStore hash_store.old hash_store.new }
{
    if start == 0 || hash_store.len() < start {
        return Err(SuperFault::Short.into());
    }
    let block = read_block(alloc, hash_store, start - 1)?;
    Ok(Superblock::decode(alloc, &block)?)
}

/// A hash block. V3 where it can't be read.
fn read_block<H: BlockStore>(
    alloc: Global,
    hash_store: &mut H,
    number: u64,
) -> Result<Vec<u8>, Failure>
    requires { number < length (H.content hash_store.old) }
    ensures given { IfOk result (λ block. GaveSince (H.given hash_store.new) (length (H.given hash_store.old)) number block.items) }
    ensures read { IsOnlyRead H.BlockStore hash_store.old hash_store.new }
{
    let mut block = Vec::from_elem(alloc, 0u8, hash_store.block_size())?;
    match hash_store.read(number, &mut block) {
        Ok(()) => Ok(block),
        Err(_) => Err(CheckFault::Store(Which::Hash).into()),
    }
}
