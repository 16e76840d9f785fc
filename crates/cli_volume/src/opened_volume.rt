//! A volume's files, opened to be edited.
ghost use Rattle.std.specs.Prelude.{◌≡◌, ◌≢◌, ◌⊎◌, ◌-◌, ◌*◌, ◌/◌, ◌^◌, false, min, None, Ok, Err, true};
ghost use Rattle.std.specs.Prelude.{IfSome, IfOk, IfErr, IsErr, MatchOption};
ghost use Rattle.cli_faults.specs.Commands.{lock_of, writes};
ghost use Rattle.cli_faults.specs.Errors.{IsOfSystem, IsS1For};
ghost use Rattle.cli_faults.specs.Misread.{IsMisread};
ghost use Rattle.os_files.specs.VolumeFiles.{LiesIn, room_in};
ghost use Rattle.cli_faults.specs.Words.{number_in};
ghost use Rattle.cli_faults.specs.declared.failure.Word.TheVariants as word;
ghost use Rattle.verity_store.specs.declared.fault.Which.TheVariants as which;
ghost use Rattle.cli_volume.specs.Opening.{AreAt, AreSizes, IsOneFile};
ghost use Rattle.cli_faults.specs.Blames.{BlamesNone, BlamesAtMost};

use crate::superblock::read_superblock;
use cli_faults::{Command, Failure, Fault, Word, number};
use os_files::check_apart;
use os_host::{Opened, Paths, VolumeStore, open_there, room_of, store_of_most};
use verity_edit::EditFault;
use verity_store::{BlockStore, StoreFault, Which};
use verity_superblock::{SuperFault, Table};

/// A volume's stores, and what they were opened with.
#[derive(Drop)]
pub struct OpenedVolume {
    pub data_store: VolumeStore,
    pub hash_store: VolumeStore,
    /// HASH, to be read once more.
    pub again: Opened,
    pub sizes: Sizes,
}

/// What a volume's files are opened with.
#[derive(Clone, Copy)]
pub struct Sizes {
    pub data_block_size: usize,
    pub hash_block_size: usize,
    pub data_blocks: u64,
    pub hash_start_block: u64,
    pub data_room: u64,
    pub hash_room: u64,
}

impl Sizes {
    /// The byte offset of the superblock, which is the hash block in front of the tree; 0 where the tree has none in front of it.
    pub fn superblock_offset(&self) -> u64
        ensures { result ≡ min ((self.now.hash_start_block - 1) * self.now.hash_block_size) (2 ^ 64 - 1) }
    {
        let block = self.hash_start_block.saturating_sub(1);
        block.saturating_mul(self.hash_block_size as u64)
    }
}

/// Opens both files and takes their locks. That there is no DATA is told only once HASH was found to hold a superblock. HASH isn't
/// understood where it leads to the file that DATA leads to.
pub fn open_both<P: Paths>(
    rt: &P,
    data_path: &str,
    hash_path: &str,
    command: Command,
) -> Result<(Result<Opened, StoreFault>, Opened), Failure>
    ensures data { IfOk result (λ both. IfOk both.0 (P.opens rt.now data_path.now)) }
    ensures hash { IfOk result (λ both. P.opens rt.now hash_path.now both.1) }
    ensures apart { IfOk result (λ both. IfOk both.0 (λ opened. opened.identity ≢ both.1.identity)) }
    ensures data_permitted { IfOk result (λ both. IfOk both.0 (λ opened. P.permits rt.now opened (writes command which.Data))) }
    ensures hash_permitted { IfOk result (λ both. P.permits rt.now both.1 (writes command which.Hash)) }
    ensures data_locked { IfOk result (λ both. IfOk both.0 (λ opened. P.locks rt.now opened (lock_of command))) }
    ensures hash_locked { IfOk result (λ both. P.locks rt.now both.1 (lock_of command)) }
    ensures missing { IfOk result (λ both. IfErr both.0 (IsOfSystem (P.refuses rt.now ≡ true))) }
    ensures one { IfErr result (λ e. e ≡ Failure.Word word.Hash → IsOneFile P.Paths rt.now data_path.now hash_path.now) }
    ensures refused { IfErr result (BlamesAtMost word.Hash) }
    ensures system { IfErr result (IsS1For (P.refuses rt.now ≡ true)) }
{
    let hash = open_there(rt, hash_path, command, Which::Hash)?;
    let data = open_there(rt, data_path, command, Which::Data);
    if let Ok(data) = &data {
        check_apart(data.identity, hash.identity)?;
        rt.lock(data, command.lock(), Which::Data)?;
    }
    rt.lock(&hash, command.lock(), Which::Hash)?;
    Ok((data, hash))
}

/// Where the superblock stands: at the offset that is named, at byte 0 where none is, and not to be named beside a table line, which
/// says where its tree begins.
pub fn offset_of(table: Option<&str>, offset: Option<&str>) -> Result<u64, Failure>
    ensures unsaid { offset.entry ≡ None → result ≡ Ok 0 }
    ensures said { IfSome offset.entry (λ text. table.entry ≡ None → result ≡ number_in word.HashOffset text.now) }
    ensures beside { offset.entry ≢ None → table.entry ≢ None → result ≡ Err (Failure.Word word.HashOffset) }
    ensures refused { IfErr result (λ e. (e ≡ Failure.Word word.HashOffset)
        × MatchOption offset.entry ⊥ (λ text. table.entry ≡ None → IsMisread word.HashOffset text.now)) }
{
    match (table, offset) {
        (_, None) => Ok(0),
        (Some(_), Some(_)) => Err(Failure::Word(Word::HashOffset)),
        (None, Some(text)) => number(Word::HashOffset, text),
    }
}

/// Opens a volume's stores: of what a table line says; or else the superblock at an offset of HASH. Of a device the data store is the
/// volume's image, as far as the device goes, and the hash store all whole blocks. There is no volume where there is no DATA.
pub fn open_volume<P: Paths + AllocGlobal>(
    rt: &P,
    line: &Option<Table>,
    offset: u64,
    data: Result<Opened, StoreFault>,
    hash: Opened,
) -> Result<OpenedVolume, Failure>
    ensures sizes { IfOk result (λ volume. AreSizes line.now offset volume.sizes) }
    ensures data_lies { IfOk result (λ volume. IfOk «data» (λ opened. LiesIn opened.identity opened.file false opened.len
        (min volume.sizes.data_blocks (opened.len / volume.sizes.data_block_size) * volume.sizes.data_block_size)
        volume.data_store.file)) }
    ensures data_size { IfOk result (λ volume.
        ⟦<VolumeStore as BlockStore>⟧.size volume.data_store ≡ volume.sizes.data_block_size) }
    ensures data_room { IfOk result (λ volume. IfOk «data» (λ opened.
        volume.sizes.data_room ≡ room_in opened.identity opened.len volume.sizes.data_block_size)) }
    ensures hash_lies { IfOk result (λ volume. LiesIn hash.identity hash.file false hash.len
        (min (2 ^ 64 - 1) (hash.len / volume.sizes.hash_block_size) * volume.sizes.hash_block_size) volume.hash_store.file) }
    ensures hash_size { IfOk result (λ volume.
        ⟦<VolumeStore as BlockStore>⟧.size volume.hash_store ≡ volume.sizes.hash_block_size) }
    ensures hash_room { IfOk result (λ volume.
        volume.sizes.hash_room ≡ room_in hash.identity hash.len volume.sizes.hash_block_size) }
    ensures again { IfOk result (λ volume. (volume.again.identity ≡ hash.identity) × (volume.again.len ≡ hash.len)) }
    ensures missing { IsErr «data» → IsErr result }
    ensures refused { IfErr result BlamesNone }
    ensures system { IfErr result (IsS1For ((P.refuses rt.now ≡ true) ⊎ («data» ≡ Err StoreFault.Device))) }
{
    let again = rt.again(&hash)?;
    let sizes = sizes_of(rt, line, &hash, offset)?;
    let (data_store, hash_store, sizes) = open_stores(rt, data, hash, sizes)?;
    Ok(OpenedVolume {
        data_store,
        hash_store,
        again,
        sizes,
    })
}

/// What a table line says of the files; or else the superblock at an offset of HASH.
fn sizes_of<P: Paths + AllocGlobal>(
    rt: &P,
    line: &Option<Table>,
    hash: &Opened,
    offset: u64,
) -> Result<Sizes, Failure>
    ensures sizes { IfOk result (AreSizes line.now offset) }
    ensures hash_room { IfOk result (λ sizes. sizes.hash_room ≡ room_in hash.now.identity hash.now.len sizes.hash_block_size) }
    ensures refused { IfErr result BlamesNone }
    ensures system { IfErr result (IsS1For (P.refuses rt.now ≡ true)) }
{
    match line {
        Some(table) => Ok(Sizes {
            data_block_size: table.data_block_size(),
            hash_block_size: table.hash_block_size(),
            data_blocks: table.data_blocks(),
            hash_start_block: table.hash_start_block(),
            data_room: 0,
            hash_room: room_of(hash, table.hash_block_size()),
        }),
        None => read_sizes(rt, hash, offset),
    }
}

/// What the superblock at an offset of HASH says of them.
fn read_sizes<P: Paths + AllocGlobal>(rt: &P, hash: &Opened, offset: u64) -> Result<Sizes, Failure>
    ensures sizes { IfOk result (AreAt offset) }
    ensures hash_room { IfOk result (λ sizes. sizes.hash_room ≡ room_in hash.now.identity hash.now.len sizes.hash_block_size) }
    ensures refused { IfErr result BlamesNone }
    ensures system { IfErr result (IsS1For (P.refuses rt.now ≡ true)) }
{
    match read_superblock(rt, rt.again(hash)?, offset) {
        Ok((superblock, hash_start_block)) => Ok(Sizes {
            data_block_size: superblock.data_block_size(),
            hash_block_size: superblock.hash_block_size(),
            data_blocks: superblock.data_blocks(),
            hash_start_block,
            data_room: 0,
            hash_room: room_of(hash, superblock.hash_block_size()),
        }),
        Err(fault) => Err(not_a_volume(fault).into()),
    }
}

/// E12 where no superblock can stand at the offset, E9 where there is none.
fn not_a_volume(fault: Fault) -> Fault
    ensures { result ≡ Fault.Store StoreFault.Device → fault ≡ Fault.Store StoreFault.Device }
{
    match fault {
        Fault::Superblock(SuperFault::Offset) => Fault::Edit(EditFault::Offset),
        Fault::Superblock(fault) => Fault::Edit(EditFault::Superblock(fault)),
        fault => fault,
    }
}

/// The stores of a volume of these sizes, and what they were opened with.
fn open_stores<P: Paths>(
    rt: &P,
    data: Result<Opened, StoreFault>,
    hash: Opened,
    sizes: Sizes,
) -> Result<(VolumeStore, VolumeStore, Sizes), Failure>
    ensures sizes { IfOk result (λ opened. opened.2 ≡ record sizes { data_room = opened.2.data_room }) }
    ensures data_lies { IfOk result (λ stores. IfOk «data» (λ opened. LiesIn opened.identity opened.file false opened.len
        (min sizes.data_blocks (opened.len / sizes.data_block_size) * sizes.data_block_size) stores.0.file)) }
    ensures data_size { IfOk result (λ stores. ⟦<VolumeStore as BlockStore>⟧.size stores.0 ≡ sizes.data_block_size) }
    ensures data_room { IfOk result (λ stores. IfOk «data» (λ opened.
        stores.2.data_room ≡ room_in opened.identity opened.len sizes.data_block_size)) }
    ensures hash_lies { IfOk result (λ stores. LiesIn hash.identity hash.file false hash.len
        (min (2 ^ 64 - 1) (hash.len / sizes.hash_block_size) * sizes.hash_block_size) stores.1.file) }
    ensures hash_size { IfOk result (λ stores. ⟦<VolumeStore as BlockStore>⟧.size stores.1 ≡ sizes.hash_block_size) }
    ensures missing { IsErr «data» → IsErr result }
    ensures refused { IfErr result BlamesNone }
    ensures system { IfErr result (IsS1For ((P.refuses rt.now ≡ true) ⊎ («data» ≡ Err StoreFault.Device))) }
{
    let mut sizes = sizes;
    let data = data?;
    sizes.data_room = room_of(&data, sizes.data_block_size);
    let data_store = store_of_most(rt, data, sizes.data_block_size, sizes.data_blocks)?;
    let hash_store = store_of_most(rt, hash, sizes.hash_block_size, u64::MAX)?;
    Ok((data_store, hash_store, sizes))
}
