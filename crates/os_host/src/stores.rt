//! Stores over opened files and devices.
ghost use Rattle.std.specs.Prelude.{◌≡◌, ◌≢◌, ◌*◌, ◌/◌, ◌%◌, ◌<◌, ◌≤◌, ◌↔◌, true, false, None, Ok, Err, min};
ghost use Rattle.std.specs.Prelude.{IsOk, IfOk, IfErr, OnOk, length};
ghost use Rattle.verity_store.specs.RawFile.{bound_by_file};
ghost use Rattle.verity_profile.specs.Profile.{IsBlockSize};
ghost use Rattle.os_files.specs.Identities.{IsDevice};
ghost use Rattle.os_host.specs.Lengths.{IsLenOf, IsRagged};
ghost use Rattle.os_files.specs.VolumeFiles.{IsPart, LiesIn, room_in};

use crate::asked::Asked;
use crate::opening::Opened;
use crate::paths::Paths;
use os_files::{Identity, VolumeFile, check_block_size};
use std::fs::File;
use verity_store::{BlockStore, FileStore, RawFile, StoreFault, Window};

/// A store in a file or in a part of one.
pub type VolumeStore = FileStore<VolumeFile<File>>;

/// A store over a file of a system, which is asked for each call.
pub type AskedStore<'a, P> = FileStore<Asked<'a, P>>;

/// A store over all of a file or a device. S4 for all but the block sizes of the profile; S1 where the system doesn't say how long the
/// file is; S2 where its length is not a multiple of `size`.
pub fn whole_store<P: Paths>(rt: &P, opened: Opened, size: usize) -> Result<VolumeStore, StoreFault>
    ensures lies { IfOk result (λ s. LiesIn opened.identity opened.file false opened.len opened.len s.file) }
    ensures size { IfOk result (λ s. ⟦<VolumeStore as BlockStore>⟧.size s ≡ size) }
    ensures wrong_size { (result ≡ Err StoreFault.BlockSize) ↔ ¬ IsBlockSize size }
    ensures ragged { result ≡ Err StoreFault.Ragged → IsRagged P.Paths rt.now opened.identity opened.file opened.len size }
    ensures memory { result ≢ Err StoreFault.NoMemory }
    ensures system { result ≡ Err StoreFault.Device → P.refuses rt.now ≡ true }
{
    check_block_size(size)?;
    let len = len_by_now(rt, &opened)?;
    FileStore::of_len(whole_file(opened), len, size)
}

/// A store over a file as it stands, S1 where the system doesn't say how long it is, S2 where that is not a multiple of `size`; or over the
/// first blocks of a device, at most so many. S4 as above.
pub fn store_of_most<P: Paths>(
    rt: &P,
    opened: Opened,
    size: usize,
    blocks: u64,
) -> Result<VolumeStore, StoreFault>
    ensures lies { IfOk result (λ s. LiesIn opened.identity opened.file false opened.len (min blocks (opened.len / size) * size) s.file) }
    ensures size { IfOk result (λ s. ⟦<VolumeStore as BlockStore>⟧.size s ≡ size) }
    ensures wrong_size { (result ≡ Err StoreFault.BlockSize) ↔ ¬ IsBlockSize size }
    ensures ragged { result ≡ Err StoreFault.Ragged → IsRagged P.Paths rt.now opened.identity opened.file
        (min blocks (opened.len / size) * size) size }
    ensures memory { result ≢ Err StoreFault.NoMemory }
    ensures system { result ≡ Err StoreFault.Device → P.refuses rt.now ≡ true }
{
    check_block_size(size)?;
    let len = len_of_most(rt, &opened, size, blocks)?;
    FileStore::of_len(file_of_most(opened, size, blocks), len, size)
}

/// A store over so many bytes, from the first on, of what was opened, each call on which is asked of the system. S4 as above; S2 where
/// that is not a multiple of `size`.
pub fn asked_store<'a, P: Paths>(
    rt: &'a P,
    opened: Opened,
    len: u64,
    size: usize,
) -> Result<AskedStore<'a, P>, StoreFault>
    ensures file { IfOk result (λ s. s.file.file ≡ opened.file) }
    ensures size { IfOk result (λ s. ⟦<AskedStore<'a, P> as BlockStore>⟧.size s ≡ size) }
    ensures len { IfOk result (λ s. length (⟦<AskedStore<'a, P> as BlockStore>⟧.content s) * size ≡ len) }
    ensures bound { IfOk result (λ s. ⟦<AskedStore<'a, P> as BlockStore>⟧.fixed s ≡ bound_by_file (P.refuses rt.now)) }
    ensures wrong_size { (result ≡ Err StoreFault.BlockSize) ↔ ¬ IsBlockSize size }
    ensures ragged { (result ≡ Err StoreFault.Ragged) ↔ (IsBlockSize size × (len % size ≢ 0)) }
    ensures succeeds { IsBlockSize size → len % size ≡ 0 → IsOk result }
{
    FileStore::of_len(Asked::new(rt, opened.file), len, size)
}

/// A store over the first blocks of a file or a device. S1 where there aren't so many; S4 as above.
pub fn store_of_first(opened: Opened, size: usize, blocks: u64) -> Result<VolumeStore, StoreFault>
    ensures lies { IfOk result (λ s. IsPart opened.file opened.len (blocks * size) s.file) }
    ensures size { IfOk result (λ s. ⟦<VolumeStore as BlockStore>⟧.size s ≡ size) }
    ensures enough { OnOk result (blocks ≤ opened.len / size) }
    ensures count { IfOk result (λ s. length (⟦<VolumeStore as BlockStore>⟧.content s) ≡ blocks) }
    ensures wrong_size { (result ≡ Err StoreFault.BlockSize) ↔ ¬ IsBlockSize size }
    ensures memory { result ≢ Err StoreFault.NoMemory }
    ensures short { result ≡ Err StoreFault.Device → opened.len / size < blocks }
{
    check_block_size(size)?;
    if blocks > opened.len / size as u64 {
        return Err(StoreFault::Device);
    }
    let len = whole_blocks(opened.len, size, blocks);
    FileStore::of_len(file_of_first(opened, size, blocks), len, size)
}

/// A store to be filled anew: of no block over a file, in which all stays until the store's length is set; or over all whole
/// blocks of a device. S4 as above.
pub fn new_store(opened: Opened, size: usize) -> Result<VolumeStore, StoreFault>
    ensures lies { IfOk result (λ s. LiesIn opened.identity opened.file true opened.len (opened.len / size * size) s.file) }
    ensures size { IfOk result (λ s. ⟦<VolumeStore as BlockStore>⟧.size s ≡ size) }
    ensures wrong_size { (result ≡ Err StoreFault.BlockSize) ↔ ¬ IsBlockSize size }
    ensures memory { result ≢ Err StoreFault.NoMemory }
    ensures system { result ≢ Err StoreFault.Device }
{
    check_block_size(size)?;
    let len = len_anew(&opened, size);
    FileStore::of_len(file_anew(opened, size), len, size)
}

/// How many bytes a store to be filled anew begins with: none over a file, all whole blocks over a device.
pub fn len_anew(opened: &Opened, size: usize) -> u64
    requires { IsBlockSize size }
    ensures device { IsDevice opened.now.identity → result ≡ opened.now.len / size * size }
    ensures file { ¬ IsDevice opened.now.identity → result ≡ 0 }
{
    match opened.identity {
        Identity::File(_, _) => 0,
        Identity::Device(_) => whole_blocks(opened.len, size, u64::MAX),
    }
}

/// How many bytes there are: of a file by now, of a device as when it was opened. S1 where the system doesn't say.
pub fn len_by_now<P: Paths>(rt: &P, opened: &Opened) -> Result<u64, StoreFault>
    ensures len { IfOk result (IsLenOf P.Paths rt.now opened.now.identity opened.now.file opened.now.len) }
    ensures device { IsDevice opened.now.identity → result ≡ Ok opened.now.len }
    ensures refused { IfErr result (λ e. (e ≡ StoreFault.Device) × (P.refuses rt.now ≡ true)) }
{
    match opened.identity {
        Identity::File(_, _) => match rt.byte_len(&opened.file) {
            Ok(len) => Ok(len),
            Err(_) => Err(StoreFault::Device),
        },
        Identity::Device(_) => Ok(opened.len),
    }
}

/// How many bytes a store over a file as it stands has, or over the first blocks of a device, at most so many. S1 as above.
pub fn len_of_most<P: Paths>(
    rt: &P,
    opened: &Opened,
    size: usize,
    blocks: u64,
) -> Result<u64, StoreFault>
    requires { IsBlockSize size }
    ensures len { IfOk result (IsLenOf P.Paths rt.now opened.now.identity opened.now.file (min blocks (opened.now.len / size) * size)) }
    ensures device { IsDevice opened.now.identity → result ≡ Ok (min blocks (opened.now.len / size) * size) }
    ensures refused { IfErr result (λ e. (e ≡ StoreFault.Device) × (P.refuses rt.now ≡ true)) }
{
    let len = len_by_now(rt, opened)?;
    match opened.identity {
        Identity::File(_, _) => Ok(len),
        Identity::Device(_) => Ok(whole_blocks(len, size, blocks)),
    }
}

/// All of a file or a device.
pub fn whole_file(opened: Opened) -> VolumeFile<File>
    ensures lies { LiesIn opened.identity opened.file false opened.len opened.len result }
    ensures unknown { ⟦<VolumeFile<File> as RawFile>⟧.bytes result ≡ None }
{
    match opened.identity {
        Identity::File(_, _) => VolumeFile::new(opened.file),
        Identity::Device(_) => part(opened.file, opened.len, opened.len),
    }
}

/// A file as it stands, or the first blocks of a device, at most so many.
pub fn file_of_most(opened: Opened, size: usize, blocks: u64) -> VolumeFile<File>
    requires { IsBlockSize size }
    ensures lies { LiesIn opened.identity opened.file false opened.len (min blocks (opened.len / size) * size) result }
    ensures unknown { ⟦<VolumeFile<File> as RawFile>⟧.bytes result ≡ None }
{
    match opened.identity {
        Identity::File(_, _) => VolumeFile::new(opened.file),
        Identity::Device(_) => {
            let len = whole_blocks(opened.len, size, blocks);
            part(opened.file, opened.len, len)
        }
    }
}

/// The first blocks of a file or a device.
pub fn file_of_first(opened: Opened, size: usize, blocks: u64) -> VolumeFile<File>
    requires size { IsBlockSize size }
    requires enough { blocks ≤ opened.len / size }
    ensures lies { IsPart opened.file opened.len (blocks * size) result }
    ensures unknown { ⟦<VolumeFile<File> as RawFile>⟧.bytes result ≡ None }
{
    let len = whole_blocks(opened.len, size, blocks);
    part(opened.file, opened.len, len)
}

/// A file that is replaced, or all whole blocks of a device.
pub fn file_anew(opened: Opened, size: usize) -> VolumeFile<File>
    requires { IsBlockSize size }
    ensures lies { LiesIn opened.identity opened.file true opened.len (opened.len / size * size) result }
    ensures unknown { ⟦<VolumeFile<File> as RawFile>⟧.bytes result ≡ None }
{
    match opened.identity {
        Identity::File(_, _) => VolumeFile::replaced(opened.file),
        Identity::Device(_) => {
            let len = whole_blocks(opened.len, size, u64::MAX);
            part(opened.file, opened.len, len)
        }
    }
}

/// How many blocks can stand in a file or a device: any number in a file.
pub fn room_of(opened: &Opened, size: usize) -> u64
    ensures { result ≡ room_in opened.now.identity opened.now.len size }
{
    match opened.identity {
        Identity::Device(_) if size > 0 => opened.len / size as u64,
        _ => u64::MAX,
    }
}

/// How many bytes the first `most` blocks have, or all whole blocks where there are fewer.
fn whole_blocks(len: u64, size: usize, most: u64) -> u64
    requires { IsBlockSize size }
    ensures blocks { result ≡ min most (len / size) * size }
    ensures within { result ≤ len }
{
    let size = size as u64;
    let blocks = len / size;
    most.min(blocks) * size
}

/// The first `len` bytes of a file or a device of so many.
fn part(file: File, all: u64, len: u64) -> VolumeFile<File>
    requires { len ≤ all }
    ensures lies { IsPart file all len result }
    ensures unknown { ⟦<VolumeFile<File> as RawFile>⟧.bytes result ≡ None }
{
    VolumeFile::Part(Window::new(file, all, len))
}
