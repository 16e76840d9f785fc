//! FILE.next while a pull is under way.
ghost use Rattle.std.specs.Prelude.{◌≡◌, ◌≢◌, ◌<◌, ◌↔◌, IsTrue, IfErr, OnOk, Some};
ghost use Rattle.os_line_file.specs.Folder.{with_next, IsDurable, KeepsLine, LeavesOnly};
ghost use Rattle.verity_line_file.specs.Lines.{pulling};

use crate::fault::LineFileFault;
use crate::line_file::LineFile;
use os_line_file::LineFolder;

/// Whether this text of FILE.next says that a pull is under way.
pub fn says_pull(text: &[u8]) -> bool
    ensures { IsTrue result ↔ text.now ≡ pulling }
{
    text == b"pull\n".as_slice()
}

impl<F: LineFolder> LineFile<F> {
    /// Whether FILE.next says that a pull is under way, or was cut short.
    pub fn is_pulling(&self) -> bool
        ensures { IsTrue result ↔ (F.seen self.now.folder).next ≡ Some pulling }
    {
        match self.folder.next() {
            Some(text) => says_pull(text),
            None => false,
        }
    }

    /// Has FILE.next say that a pull is under way, before its first change. FILE isn't touched. After Folder nothing is known of FILE.next,
    /// and no change of the volume may follow.
    pub fn begin_pull(&mut self) -> Result<(), LineFileFault>
        ensures begun { OnOk result (F.seen self.new.folder ≡ with_next (Some pulling) (F.seen self.old.folder)) }
        ensures durable { OnOk result (IsDurable (F.seen self.new.folder) (F.may_leave self.new.folder)) }
        ensures any_moment { LeavesOnly F.moment F.left_since self.old.folder self.new.folder (KeepsLine (F.may_leave self.old.folder)) }
        ensures failed { IfErr result (λ e. e ≡ LineFileFault.Folder → F.failures self.old.folder < F.failures self.new.folder) }
        ensures unchanged { IfErr result (λ e. e ≢ LineFileFault.Folder → self.new.folder ≡ self.old.folder) }
        ensures refused { IfErr result (λ e. e ≢ LineFileFault.Folder → e ≡ LineFileFault.NoMemory) }
    {
        match self.folder.write_next(b"pull\n") {
            Ok(()) => Ok(()),
            Err(fault) => Err(fault.into()),
        }
    }
}
