//! A store in a file.
ghost use Rattle.std.specs.Prelude.{◌≡◌, ◌≢◌, ◌+◌, ◌*◌, ◌^◌, ◌<◌, ◌≤◌, ◌%◌, ◌↔◌, ◌++◌, length, true};
ghost use Rattle.std.specs.Prelude.{IfOk, IfErr, IfSome, OnOk, OnErr, IsOk, IsTrue};
ghost use Rattle.std.specs.List.{concat};
ghost use Rattle.verity_profile.specs.Profile.{IsBlockSize};
ghost use Rattle.verity_store.specs.Given.{run_of};
ghost use Rattle.verity_store.specs.RawFile.{HasLength, is_known, file_blocks, bound_by_file};

use crate::{BlockStore, RawFile, StoreFault};
use base_count::Count;
use std::fs::{File, OpenOptions};
use std::io;
use std::io::ErrorKind;
use std::rt::Files;
use verity_profile::is_block_size;
use verity_read_log::Given;

/// A store whose blocks lie in a file, one after the other, from byte 0 on.
///
/// It tells where the bytes of its file are known. Each read, of a block or of a run, and each write is one access to the file,
/// at its offset; where that of a run fails, each of its blocks is counted as a read, and none is given. Over a file
/// of the system, of whose bytes nothing is known, what it gave is still the very list of what its reads returned.
#[derive(Drop)]
pub struct FileStore<F: RawFile> {
    file: F,
    size: usize,
    blocks: u64,
    read_count: Count,
    change_count: Count,
    failed: Count,
    given: Given,
    ghost profile: { IsBlockSize size },
    ghost fits: { blocks * size < 2 ^ 64 },
    ghost whole: { HasLength (F.bytes file) (blocks * size) },
    ghost told: { 0 < failed.steps → F.may_refuse file ≡ true },
}

// Whether the file has this length; where it can't be asked, no.
fn has_len<F: RawFile>(file: &F, len: u64) -> bool
    ensures told { IsTrue result → HasLength (F.bytes file.now) len }
    ensures known { is_known (F.bytes file.now) ≡ true → HasLength (F.bytes file.now) len → IsTrue result }
{
    match file.byte_len() {
        Ok(now) => now == len,
        Err(_) => false,
    }
}

// Counts so many reads.
fn count_reads(reads: &mut Count, count: usize)
    ensures { reads.new.steps ≡ reads.old.steps + count }
{
    'each: for _done in 0..count {
        reads.step();
    }
}

// Notes the blocks of a run that was read.
fn note_run(given: &mut Given, first: u64, size: usize, count: usize, out: &[u8])
    requires near { first + count < 2 ^ 64 }
    requires sized { length out.now ≡ count * size }
    ensures { given.new.blocks ≡ given.old.blocks ++ run_of first size count out.now }
{
    'each: for j in 0..count {
        let at = j * size;
        given.note(first + j as u64, &out[at..at + size]);
    }
}

impl<F: RawFile> FileStore<F> {
    /// A store over a file, whose bytes stay as they are.
    ///
    /// S4 where `size` is not one of the profile; else S1 where the file can't be asked for its length; else S2 where the
    /// length is not a multiple of `size`. The file is then closed.
    pub fn over(file: F, size: usize) -> Result<FileStore<F>, StoreFault>
    where
        F: Drop,
        ensures file { IfOk result (λ s. s.file ≡ file) }
        ensures content { IfOk result (λ s. IfSome (F.bytes file) (λ bytes. concat (⟦<FileStore<F> as BlockStore>⟧.content s) ≡ bytes)) }
        ensures len { IfOk result (λ s. HasLength (F.bytes file) (length (⟦<FileStore<F> as BlockStore>⟧.content s) * size)) }
        ensures size { IfOk result (λ s. ⟦<FileStore<F> as BlockStore>⟧.size s ≡ size) }
        ensures tells { IfOk result (λ s. ⟦<FileStore<F> as BlockStore>⟧.tells s ≡ is_known (F.bytes file)) }
        ensures wrong_size { (result ≡ Err StoreFault.BlockSize) ↔ ¬ IsBlockSize size }
        ensures ragged { IfSome (F.bytes file) (λ bytes. (result ≡ Err StoreFault.Ragged)
            ↔ (IsBlockSize size × (length bytes % size ≢ 0))) }
        ensures succeeds { IfSome (F.bytes file) (λ bytes. IsBlockSize size → length bytes % size ≡ 0 → IsOk result) }
        ensures memory { result ≢ Err StoreFault.NoMemory }
        ensures refused { result ≡ Err StoreFault.Device → F.may_refuse file ≡ true }
    {
        if !is_block_size(size) {
            return Err(StoreFault::BlockSize);
        }
        let Ok(len) = file.byte_len() else {
            return Err(StoreFault::Device);
        };
        FileStore::of_len(file, len, size)
    }

    /// A store over a file that has so many bytes, which stay as they are. The file isn't asked for them.
    ///
    /// S4 where `size` is not one of the profile; else S2 where the length is not a multiple of `size`. The file is then closed.
    pub fn of_len(file: F, len: u64, size: usize) -> Result<FileStore<F>, StoreFault>
    where
        F: Drop,
        requires { HasLength (F.bytes file) len }
        ensures file { IfOk result (λ s. s.file ≡ file) }
        ensures content { IfOk result (λ s. IfSome (F.bytes file) (λ bytes. concat (⟦<FileStore<F> as BlockStore>⟧.content s) ≡ bytes)) }
        ensures len { IfOk result (λ s. length (⟦<FileStore<F> as BlockStore>⟧.content s) * size ≡ len) }
        ensures size { IfOk result (λ s. ⟦<FileStore<F> as BlockStore>⟧.size s ≡ size) }
        ensures tells { IfOk result (λ s. ⟦<FileStore<F> as BlockStore>⟧.tells s ≡ is_known (F.bytes file)) }
        ensures wrong_size { (result ≡ Err StoreFault.BlockSize) ↔ ¬ IsBlockSize size }
        ensures ragged { (result ≡ Err StoreFault.Ragged) ↔ (IsBlockSize size × (len % size ≢ 0)) }
        ensures succeeds { IsBlockSize size → len % size ≡ 0 → IsOk result }
    {
        if !is_block_size(size) {
            return Err(StoreFault::BlockSize);
        }
        let size64 = size as u64;
        if len % size64 != 0 {
            return Err(StoreFault::Ragged);
        }
        Ok(FileStore {
            file,
            size,
            blocks: len / size64,
            read_count: Count::new(),
            change_count: Count::new(),
            failed: Count::new(),
            given: Given::new(),
        })
    }

    /// That a failure was counted only where calls on the file may be refused.
    pub fn facts(&self)
        ensures { 0 < self.now.failed.steps → bound_by_file (F.may_refuse self.now.file) ≡ bound_by_file true }
    {
        let _ = &self.failed;
    }
}

// S3 for want of memory, S1 for all else.
fn fault_of(error: io::Error) -> StoreFault
    ensures size { result ≢ StoreFault.BlockSize }
    ensures length { result ≢ StoreFault.Ragged }
{
    match error.kind() {
        ErrorKind::OutOfMemory => StoreFault::NoMemory,
        _ => StoreFault::Device,
    }
}

impl FileStore<File> {
    /// A store over the file at a path, which is opened to be read, and where `writable` to be written too.
    ///
    /// S4 where `size` is not one of the profile, and then nothing is opened; else S1 where the file can't be opened or asked
    /// for its length, or S3 where memory for its path was refused; else S2 where its length is not a multiple of `size`.
    pub fn open<R: Files<File = File>>(
        rt: &R,
        path: &str,
        size: usize,
        writable: bool,
    ) -> Result<FileStore<File>, StoreFault>
        ensures size { IfOk result (λ s. ⟦<FileStore<File> as BlockStore>⟧.size s ≡ size) }
        ensures wrong_size { (result ≡ Err StoreFault.BlockSize) ↔ ¬ IsBlockSize size }
    {
        if !is_block_size(size) {
            return Err(StoreFault::BlockSize);
        }
        let opened = OpenOptions::new().read(true).write(writable).open(rt, path);
        match opened {
            Ok(file) => FileStore::over(file, size),
            Err(error) => Err(fault_of(error)),
        }
    }

    /// A store over the file at a path, which is made, or emptied where it is there, and can be read and written.
    ///
    /// S4 where `size` is not one of the profile, and then no file is made or emptied; else S1 where it can't be made, emptied
    /// or asked for its length, or S3 where memory for its path was refused.
    pub fn create<R: Files<File = File>>(
        rt: &R,
        path: &str,
        size: usize,
    ) -> Result<FileStore<File>, StoreFault>
        ensures size { IfOk result (λ s. ⟦<FileStore<File> as BlockStore>⟧.size s ≡ size) }
        ensures wrong_size { (result ≡ Err StoreFault.BlockSize) ↔ ¬ IsBlockSize size }
    {
        if !is_block_size(size) {
            return Err(StoreFault::BlockSize);
        }
        let opened = OpenOptions::new()
            .read(true)
            .write(true)
            .create(true)
            .truncate(true)
            .open(rt, path);
        match opened {
            Ok(file) => FileStore::over(file, size),
            Err(error) => Err(fault_of(error)),
        }
    }
}

impl<F: RawFile> BlockStore for FileStore<F> {
    ghost size = { λ s. s.size };

    ghost content = { λ s. file_blocks s.size s.blocks (F.bytes s.file) };

    ghost tells = { λ s. is_known (F.bytes s.file) };

    ghost given = { λ s. s.given.blocks };

    ghost failures = { λ s. s.failed.steps };

    ghost reads = { λ s. s.read_count.steps };

    ghost changes = { λ s. s.change_count.steps };

    ghost room = { λ _. 2 ^ 41 };

    ghost synced = { λ s. F.synced s.file };

    ghost fixed = { λ s. bound_by_file (F.may_refuse s.file) };

    fn block_size(&self) -> usize {
        self.size
    }

    fn len(&self) -> u64 {
        self.blocks
    }

    fn read(&mut self, n: u64, out: &mut [u8]) -> Result<(), StoreFault> {
        self.read_count.step();
        let at = n * self.size as u64;
        match self.file.read_exact_at(at, out) {
            Ok(()) => {
                self.given.note(n, out);
                Ok(())
            }
            Err(_) => {
                self.failed.step();
                Err(StoreFault::Device)
            }
        }
    }

    /// Reads the run by one access to the file.
    fn read_run(&mut self, first: u64, count: usize, out: &mut [u8]) -> Result<(), StoreFault> {
        count_reads(&mut self.read_count, count);
        let _len = self.len();
        let start = first * self.size as u64;
        match self.file.read_exact_at(start, out) {
            Ok(()) => {
                note_run(&mut self.given, first, self.size, count, out);
                Ok(())
            }
            Err(_) => {
                self.failed.step();
                Err(StoreFault::Device)
            }
        }
    }

    fn write(&mut self, n: u64, block: &[u8]) -> Result<(), StoreFault> {
        self.change_count.step();
        let at = n * self.size as u64;
        match self.file.write_all_at(at, block) {
            Ok(()) => Ok(()),
            Err(_) => {
                self.failed.step();
                Err(StoreFault::Device)
            }
        }
    }

    fn reserve(&mut self, _blocks: u64) -> Result<(), StoreFault> {
        Ok(())
    }

    fn set_len(&mut self, blocks: u64) -> Result<(), StoreFault> {
        self.change_count.step();
        let len = blocks * self.size as u64;
        match self.file.set_byte_len(len) {
            Ok(()) => {
                self.blocks = blocks;
                Ok(())
            }
            Err(_) => {
                self.failed.step();
                // The file may have been cut or grown all the same.
                if has_len(&self.file, len) {
                    self.blocks = blocks;
                }
                Err(StoreFault::Device)
            }
        }
    }

    fn sync(&mut self) -> Result<(), StoreFault>
        ensures synced { OnOk result (F.synced self.new.file ≡ true) }
        ensures error { IfErr result (λ e. e ≡ StoreFault.Device) }
        ensures failed { OnErr result (self.old.failed.steps < self.new.failed.steps) }
        ensures unfailed { OnOk result (self.new.failed.steps ≡ self.old.failed.steps) }
        ensures failures { self.old.failed.steps ≤ self.new.failed.steps }
        ensures reads { self.new.read_count.steps ≡ self.old.read_count.steps }
        ensures changes { self.new.change_count.steps ≡ self.old.change_count.steps }
        ensures content { file_blocks self.new.size self.new.blocks (F.bytes self.new.file)
            ≡ file_blocks self.old.size self.old.blocks (F.bytes self.old.file) }
        ensures given { self.new.given.blocks ≡ self.old.given.blocks }
        ensures tells { is_known (F.bytes self.new.file) ≡ is_known (F.bytes self.old.file) }
        ensures size { self.new.size ≡ self.old.size }
        ensures fixed { bound_by_file (F.may_refuse self.new.file) ≡ bound_by_file (F.may_refuse self.old.file) }
    {
        match self.file.sync() {
            Ok(()) => Ok(()),
            Err(_) => {
                self.failed.step();
                Err(StoreFault::Device)
            }
        }
    }
}
