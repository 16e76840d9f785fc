//! What was done to a file, which contracts see and which has no bytes when the program runs.
ghost use Rattle.std.specs.Prelude.{◌≡◌};
ghost use Rattle.std.specs.Borrow.{ftrue};
ghost use Rattle.verity_disks.specs.Tearing.{Kept, written, resized, stepped, kept_whole};

use std::marker::Model;

/// The bytes that are on a device, and what was done to it since its last sync. No code can read it.
#[derive(Drop)]
pub struct FileLog {
    pub ghost kept: { Kept },
}

impl Model for FileLog {
    ghost also_owns = { λ _. ftrue };
}

impl FileLog {
    /// Of a device that stands like this, whichever it is.
    pub fn begun() -> FileLog
        ghost kept: { Kept }
        ensures { result.kept ≡ kept }
    {
        log_of()
    }

    /// It was written to.
    pub fn write(&mut self, at: u64, bytes: &[u8])
        ensures { self.new.kept ≡ stepped (written at bytes.now) self.old.kept }
    {
        *self = self.after_write(at, bytes);
    }

    /// It got another length.
    pub fn resize(&mut self, len: u64)
        ensures { self.new.kept ≡ stepped (resized len) self.old.kept }
    {
        *self = self.after_resize(len);
    }

    /// All of it came onto the device.
    pub fn sync(&mut self)
        ensures { self.new.kept ≡ kept_whole self.old.kept }
    {
        *self = self.after_sync();
    }

    // The log after a write.
    fn after_write(&self, at: u64, bytes: &[u8]) -> FileLog
        ensures { result.kept ≡ stepped (written at bytes.now) self.now.kept }
    {
        after_step(self, at, bytes)
    }

    // The log after a change of length.
    fn after_resize(&self, len: u64) -> FileLog
        ensures { result.kept ≡ stepped (resized len) self.now.kept }
    {
        after_step(self, len, &[])
    }

    // The log after a sync.
    fn after_sync(&self) -> FileLog
        ensures { result.kept ≡ kept_whole self.now.kept }
    {
        after_step(self, 0, &[])
    }
}

// A log of this device.
fn after_step(_log: &FileLog, _at: u64, _bytes: &[u8]) -> FileLog
    ghost kept: { Kept }
    ensures { result.kept ≡ kept }
{
    log_of()
}

// A log of this device. Only functions of this file reach it.
fn log_of() -> FileLog
    ghost kept: { Kept }
    ensures { result.kept ≡ kept }
{
    FileLog {}
}
