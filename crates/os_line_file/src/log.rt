//! What was done to a folder, which contracts see and which has no bytes when the program runs.
ghost use Rattle.std.specs.Prelude.{◌≡◌, List, ℕ};
ghost use Rattle.std.specs.Borrow.{ftrue};
ghost use Rattle.os_line_file.specs.Held.{texts_of};
ghost use Rattle.os_line_file.specs.Log.{Log, Wrote, Replaced, Removed, fresh, stepped, synced};

use std::marker::Model;

/// What is on the device of a folder, what was done since its last sync, and how it stood before. No code can read it.
#[derive(Drop)]
pub struct FolderLog {
    pub ghost log: { Log },
}

impl Model for FolderLog {
    ghost also_owns = { λ _. ftrue };
}

impl FolderLog {
    /// Of a folder that nothing was done to, with these texts.
    pub fn begun(line: &Option<Vec<u8>>, next: &Option<Vec<u8>>) -> FolderLog
        ensures { result.log ≡ fresh (texts_of line.now next.now) }
    {
        first_log(line, next)
    }

    /// FILE.next is made anew with this text.
    pub fn write(&mut self, text: &[u8])
        ensures { self.new.log ≡ stepped (Wrote text.now) self.old.log }
    {
        *self = self.after_write(text);
    }

    /// FILE.next takes FILE's place.
    pub fn replace(&mut self)
        ensures { self.new.log ≡ stepped Replaced self.old.log }
    {
        *self = self.after_replace();
    }

    /// FILE.next is removed.
    pub fn remove(&mut self)
        ensures { self.new.log ≡ stepped Removed self.old.log }
    {
        *self = self.after_remove();
    }

    /// All of it came onto the device.
    pub fn sync(&mut self)
        ensures { self.new.log ≡ synced self.old.log }
    {
        *self = self.after_sync();
    }

    // The log after FILE.next is made anew.
    fn after_write(&self, text: &[u8]) -> FolderLog
        ensures { result.log ≡ stepped (Wrote text.now) self.now.log }
    {
        next_log(self, text)
    }

    // The log after FILE.next took FILE's place.
    fn after_replace(&self) -> FolderLog
        ensures { result.log ≡ stepped Replaced self.now.log }
    {
        next_log(self, &[])
    }

    // The log after FILE.next was removed.
    fn after_remove(&self) -> FolderLog
        ensures { result.log ≡ stepped Removed self.now.log }
    {
        next_log(self, &[])
    }

    // The log after a sync.
    fn after_sync(&self) -> FolderLog
        ensures { result.log ≡ synced self.now.log }
    {
        next_log(self, &[])
    }
}

// A log of this folder.
fn first_log(_line: &Option<Vec<u8>>, _next: &Option<Vec<u8>>) -> FolderLog
    ghost log: { Log }
    ensures { result.log ≡ log }
{
    log_of()
}

// A log of this folder.
fn next_log(_log: &FolderLog, _text: &[u8]) -> FolderLog
    ghost log: { Log }
    ensures { result.log ≡ log }
{
    log_of()
}

// A log of this folder. Only functions of this file reach it.
fn log_of() -> FolderLog
    ghost log: { Log }
    ensures { result.log ≡ log }
{
    FolderLog {}
}
