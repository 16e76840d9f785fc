//! Files whose ghosts stand beside them.
ghost use Rattle.std.specs.Prelude.{◌≡◌, ◌≤◌, ◌<◌, ◌+◌, ◌^◌, None, length, IsTrue, IsFalse};
ghost use Rattle.verity_disks.specs.Tearing.{Kept, written, resized, read_of, kept_of, with_kept, stepped, kept_whole};

use crate::Device;
use crate::file_log::FileLog;
use std::marker::Model;
use verity_store::RawFile;

/// A file of whose bytes nothing is known, how many there are, and what the calls on it did to a device.
///
/// The length and the device are as if each call did what it was asked to.
#[derive(Drop)]
pub struct FileDevice<F: RawFile> {
    file: F,
    len: u64,
    log: FileLog,
}

impl<F: RawFile> Model for FileDevice<F> {
    ghost use Rattle.std.specs.Prelude.{◌≡◌, None, length};
    ghost use Rattle.verity_disks.specs.Tearing.{Kept, read_of};

    ghost Value = { Kept };

    ghost view = { λ device. device.log.kept };

    ghost invariant = { λ device. (F.bytes device.file ≡ None) × (device.len ≡ length (read_of device.log.kept)) };
}

impl<F: RawFile> FileDevice<F> {
    /// A file of this length, as a device that stands in any way in which so many bytes are read.
    pub fn sized(file: F, len: u64) -> FileDevice<F>
        ghost kept: { Kept }
        requires unknown { F.bytes file ≡ None }
        requires len { length (read_of kept) ≡ len }
        ensures { result ≡ kept }
    {
        FileDevice {
            file,
            len,
            log: FileLog::begun(),
        }
    }

    /// A file of these bytes, as a device that stands in any way in which they are read.
    pub fn holding(file: F, bytes: &[u8]) -> FileDevice<F>
        ghost kept: { Kept }
        requires unknown { F.bytes file ≡ None }
        requires bytes { read_of kept ≡ bytes.now }
        ensures { result ≡ kept }
    {
        FileDevice {
            file,
            len: bytes.len() as u64,
            log: FileLog::begun(),
        }
    }

    /// How many bytes it has.
    pub fn len(&self) -> u64
        ensures { result ≡ length (read_of self.now) }
    {
        self.len
    }

    // Writes, and tells whether it was answered.
    fn write(&mut self, at: u64, bytes: &[u8]) -> bool
        requires below { at ≤ length (read_of self.old) }
        requires small { at + length bytes.now < 2 ^ 64 }
        ensures { self.new ≡ stepped (written at bytes.now) self.old }
    {
        self.len = self.len.max(at + bytes.len() as u64);
        self.log.write(at, bytes);
        self.file.write_all_at(at, bytes).is_ok()
    }

    // Cuts it or fills it up, and tells whether it was answered.
    fn resize(&mut self, len: u64) -> bool
        ensures { self.new ≡ stepped (resized len) self.old }
    {
        self.len = len;
        self.log.resize(len);
        self.file.set_byte_len(len).is_ok()
    }

    // Syncs it, and tells whether it was answered.
    fn sync(&mut self) -> bool
        ensures synced { IsTrue result → self.new ≡ kept_whole self.old }
        ensures same { IsFalse result → self.new ≡ self.old }
    {
        let synced = self.file.sync().is_ok();
        if synced {
            self.log.sync();
        }
        synced
    }
}

/// Three files.
#[derive(Drop)]
pub struct ThreeFiles<F: RawFile> {
    data_file: FileDevice<F>,
    hash_file: FileDevice<F>,
    journal_file: FileDevice<F>,
}

impl<F: RawFile> Model for ThreeFiles<F> {
    ghost use Rattle.verity_disks.specs.Tearing.{Three};

    ghost Value = { Three };

    ghost view = { λ files. record { on_data = files.data_file; on_hash = files.hash_file; on_journal = files.journal_file } };
}

impl<F: RawFile> ThreeFiles<F> {
    /// These three.
    pub fn new(
        data_file: FileDevice<F>,
        hash_file: FileDevice<F>,
        journal_file: FileDevice<F>,
    ) -> ThreeFiles<F>
        ensures { result ≡ record { on_data = data_file; on_hash = hash_file; on_journal = journal_file } }
    {
        ThreeFiles {
            data_file,
            hash_file,
            journal_file,
        }
    }

    /// How many bytes one of them has.
    pub fn len(&self, device: Device) -> u64
        ensures { result ≡ length (read_of (kept_of self.now device)) }
    {
        match device {
            Device::Data => self.data_file.len(),
            Device::Hash => self.hash_file.len(),
            Device::Journal => self.journal_file.len(),
        }
    }

    /// Writes to one of them, and tells whether it was answered.
    pub fn write(&mut self, device: Device, at: u64, bytes: &[u8]) -> bool
        requires below { at ≤ length (read_of (kept_of self.old device)) }
        requires small { at + length bytes.now < 2 ^ 64 }
        ensures { self.new ≡ with_kept device (stepped (written at bytes.now) (kept_of self.old device)) self.old }
    {
        match device {
            Device::Data => self.data_file.write(at, bytes),
            Device::Hash => self.hash_file.write(at, bytes),
            Device::Journal => self.journal_file.write(at, bytes),
        }
    }

    /// Cuts or fills up one of them, and tells whether it was answered.
    pub fn resize(&mut self, device: Device, len: u64) -> bool
        ensures { self.new ≡ with_kept device (stepped (resized len) (kept_of self.old device)) self.old }
    {
        match device {
            Device::Data => self.data_file.resize(len),
            Device::Hash => self.hash_file.resize(len),
            Device::Journal => self.journal_file.resize(len),
        }
    }

    /// Syncs one of them, and tells whether it was answered.
    pub fn sync(&mut self, device: Device) -> bool
        ensures synced { IsTrue result → self.new ≡ with_kept device (kept_whole (kept_of self.old device)) self.old }
        ensures same { IsFalse result → self.new ≡ self.old }
    {
        match device {
            Device::Data => self.data_file.sync(),
            Device::Hash => self.hash_file.sync(),
            Device::Journal => self.journal_file.sync(),
        }
    }
}
