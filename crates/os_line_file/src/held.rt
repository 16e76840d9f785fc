//! The texts of both files, as memory has them.
ghost use Rattle.std.specs.Prelude.{◌≡◌, Some};
ghost use Rattle.std.specs.Option.{option_copied};
ghost use Rattle.os_line_file.specs.Held.{texts_of};
ghost use Rattle.os_line_file.specs.Log.{Wrote, Replaced, Removed, fresh, seen_of, stepped, synced};

use crate::log::FolderLog;
use std::marker::Model;

/// The texts of both files, as they are once each call has done what it was asked to. A contract sees what was done.
#[derive(Drop)]
pub(crate) struct Held {
    line: Option<Vec<u8>>,
    next: Option<Vec<u8>>,
    log: FolderLog,
}

impl Model for Held {
    ghost use Rattle.std.specs.Prelude.{◌≡◌};
    ghost use Rattle.os_line_file.specs.Held.{text_of};
    ghost use Rattle.os_line_file.specs.Log.{Log, seen_of};

    ghost Value = { Log };

    ghost view = { λ held. held.log.log };

    ghost invariant = { λ held. (text_of held.line ≡ (seen_of held.log.log.kept).line)
        × (text_of held.next ≡ (seen_of held.log.log.kept).next) };
}

impl Held {
    /// These texts, of files that nothing was done to.
    pub(crate) fn new(line: Option<Vec<u8>>, next: Option<Vec<u8>>) -> Held
        ensures { result ≡ fresh (texts_of line next) }
    {
        let log = FolderLog::begun(&line, &next);
        Held { line, next, log }
    }

    /// The text of FILE.
    pub(crate) fn line(&self) -> Option<&[u8]>
        ensures { option_copied result ≡ (seen_of self.now.kept).line }
    {
        match &self.line {
            Some(text) => Some(text),
            None => None,
        }
    }

    /// The text of FILE.next.
    pub(crate) fn next(&self) -> Option<&[u8]>
        ensures { option_copied result ≡ (seen_of self.now.kept).next }
    {
        match &self.next {
            Some(text) => Some(text),
            None => None,
        }
    }

    /// FILE.next is made anew with this text.
    pub(crate) fn write(&mut self, text: Vec<u8>)
        ensures { self.new ≡ stepped (Wrote text.items) self.old }
    {
        self.log.write(&text);
        self.next = Some(text);
    }

    /// FILE.next takes FILE's place.
    pub(crate) fn replace(&mut self)
        ensures { self.new ≡ stepped Replaced self.old }
    {
        self.log.replace();
        self.line = self.next.take();
    }

    /// FILE.next is removed.
    pub(crate) fn remove(&mut self)
        ensures { self.new ≡ stepped Removed self.old }
    {
        self.log.remove();
        self.next = None;
    }

    /// All of it came onto the device.
    pub(crate) fn sync(&mut self)
        ensures { self.new ≡ synced self.old }
    {
        self.log.sync();
    }
}
