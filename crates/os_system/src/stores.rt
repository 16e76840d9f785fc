//! Stores over what was opened, here or at a server.

ghost use Rattle.std.specs.Prelude.{◌≡◌, ◌≢◌, ◌*◌, ◌/◌, ◌%◌, ◌<◌, ◌≤◌, ◌⊎◌, ◌↔◌, ℕ, true, IfOk, IfErr, length, Err};
ghost use Rattle.verity_profile.specs.Profile.{IsBlockSize};
ghost use Rattle.os_host.specs.Lengths.{IsLenOf};
ghost use Rattle.os_files.specs.Parts.{HasAsked, HasFewer, IsRaggedPart};
ghost use Rattle.os_host.specs.Parts.{LiesAsPart};
ghost use Rattle.os_system.specs.Located.{HasBlocks, LiesHere, LiesThere};

use crate::located::{Located, Remote};
use os_files::{Part, VolumeFile, check_block_size};
use os_host::{
    Opened, Paths, file_anew, file_of_first, file_of_most, len_anew, len_by_now, len_of_most,
    whole_file,
};
use remote_read_ahead::Ahead;
use std::alloc::Global;
use std::fs::File;
use verity_store::{BlockStore, FileStore, RawFile, StoreFault};

/// The most bytes that are read ahead at once at a server.
const WINDOW: usize = 4 << 20;

/// What a store reads.
pub type Lying<F> = Ahead<Located<VolumeFile<File>, F>>;

/// A store over a part of a file here.
pub fn store_here<P: Paths, F: RawFile + Drop>(
    paths: &P,
    alloc: Global,
    opened: Opened,
    part: Part,
    size: usize,
) -> Result<FileStore<Lying<F>>, StoreFault>
    ensures lies { IfOk result (λ s. LiesHere opened part size s.file.file) }
    ensures size { IfOk result (λ s. ⟦<FileStore<Lying<F>> as BlockStore>⟧.size s ≡ size) }
    ensures count { IfOk result (λ s. HasAsked part (length (⟦<FileStore<Lying<F>> as BlockStore>⟧.content s))) }
    ensures wrong_size { (result ≡ Err StoreFault.BlockSize) ↔ ¬ IsBlockSize size }
    ensures ragged { result ≡ Err StoreFault.Ragged → IsRaggedPart part
        ((count : ℕ) × IsLenOf P.Paths paths.now opened.identity opened.file opened.len count × (count % size ≢ 0)) }
{
    check_block_size(size)?;
    let (file, len) = part_here(paths, opened, part, size)?;
    store_over(alloc, Located::Here(file), len, 0, size)
}

/// That part of a file, and how many bytes it has.
fn part_here<P: Paths>(
    paths: &P,
    opened: Opened,
    part: Part,
    size: usize,
) -> Result<(VolumeFile<File>, u64), StoreFault>
    requires { IsBlockSize size }
    ensures lies { IfOk result (λ found. LiesAsPart opened part size found.0) }
    ensures count { IfOk result (λ found. (blocks : ℕ) → found.1 ≡ blocks * size → HasAsked part blocks) }
    ensures len { IfOk result (λ found. found.1 % size ≢ 0 → IsRaggedPart part
        ((count : ℕ) × IsLenOf P.Paths paths.now opened.identity opened.file opened.len count × (count % size ≢ 0))) }
    ensures refused { IfErr result (λ e. e ≡ StoreFault.Device) }
{
    match part {
        Part::All => {
            let len = len_by_now(paths, &opened)?;
            Ok((whole_file(opened), len))
        }
        Part::First(blocks) => {
            if blocks > opened.len / size as u64 {
                return Err(StoreFault::Device);
            }
            let len = blocks * size as u64;
            Ok((file_of_first(opened, size, blocks), len))
        }
        Part::AtMost(blocks) => {
            let len = len_of_most(paths, &opened, size, blocks)?;
            Ok((file_of_most(opened, size, blocks), len))
        }
        Part::New => {
            let len = len_anew(&opened, size);
            Ok((file_anew(opened, size), len))
        }
    }
}

/// A store over a part of a file at a server. One whose length is no multiple of `size` is refused, S2.
pub fn store_there<F: RawFile + Drop>(
    alloc: Global,
    remote: Remote<F>,
    part: Part,
    size: usize,
) -> Result<FileStore<Lying<F>>, StoreFault>
    ensures lies { IfOk result (λ s. LiesThere remote part size (length (⟦<FileStore<Lying<F>> as BlockStore>⟧.content s)) s.file.file) }
    ensures size { IfOk result (λ s. ⟦<FileStore<Lying<F>> as BlockStore>⟧.size s ≡ size) }
    ensures wrong_size { (result ≡ Err StoreFault.BlockSize) ↔ ¬ IsBlockSize size }
    ensures ragged { result ≡ Err StoreFault.Ragged → remote.len % size ≢ 0 }
{
    check_block_size(size)?;
    let blocks = blocks_there(remote.len, part, size)?;
    let len = blocks * size as u64;
    store_over(alloc, Located::There(remote.file), len, WINDOW, size)
}

/// How many blocks a part of a file at a server has, where that file has so many bytes.
fn blocks_there(len: u64, part: Part, size: usize) -> Result<u64, StoreFault>
    requires { IsBlockSize size }
    ensures blocks { IfOk result (HasBlocks part (len / size)) }
    ensures within { IfOk result (λ blocks. blocks * size ≤ len) }
    ensures refused { IfErr result (λ e. (e ≡ StoreFault.Device) ⊎ ((e ≡ StoreFault.Ragged) × (len % size ≢ 0))) }
{
    let size = size as u64;
    if len % size != 0 {
        return Err(StoreFault::Ragged);
    }
    let all = len / size;
    match part {
        Part::All => Ok(all),
        Part::First(count) if count <= all => Ok(count),
        Part::First(_) => Err(StoreFault::Device),
        Part::AtMost(count) => Ok(all.min(count)),
        Part::New => Err(StoreFault::Device),
    }
}

/// A store over so many bytes, which are read ahead by at most so many at a time.
fn store_over<F: RawFile + Drop>(
    alloc: Global,
    file: Located<VolumeFile<File>, F>,
    len: u64,
    window: usize,
    size: usize,
) -> Result<FileStore<Lying<F>>, StoreFault>
    requires { IsBlockSize size }
    ensures file { IfOk result (λ s. s.file.file ≡ file) }
    ensures size { IfOk result (λ s. ⟦<FileStore<Lying<F>> as BlockStore>⟧.size s ≡ size) }
    ensures len { IfOk result (λ s. length (⟦<FileStore<Lying<F>> as BlockStore>⟧.content s) * size ≡ len) }
    ensures ragged { result ≡ Err StoreFault.Ragged → len % size ≢ 0 }
    ensures refused { result ≢ Err StoreFault.BlockSize }
{
    match Ahead::new(alloc, file, len, window) {
        Ok(ahead) => FileStore::of_len(ahead, len, size),
        Err(_) => Err(StoreFault::NoMemory),
    }
}
