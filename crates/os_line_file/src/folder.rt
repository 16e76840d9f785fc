//! What is asked of the folder in which a table line is kept.
ghost use Rattle.std.specs.Prelude.{◌≡◌, ℕ, ◌≤◌, ◌<◌, Bool, true, List, IfOk, IfErr, OnOk, OnErr, IsSome, Some, None};
ghost use Rattle.std.specs.Option.{option_copied};
ghost use Rattle.os_line_file.specs.Folder.{Texts, with_next, replaced, KeepsLine, MayReplace, MayRemove, IsDurable, Elapses};

use thiserror::Error;

/// Why a call failed.
#[derive(Clone, Copy, Debug, PartialEq, Eq, Error, Drop)]
pub enum FolderFault {
    #[error("the system refused")]
    Device,
    #[error("there is too little memory")]
    NoMemory,
}

/// FILE and FILE.next, in one folder, which loses at a crash what wasn't synced, in whole or in part, and which may fail.
///
/// FILE is never written: another file takes its place.
pub trait LineFolder {
    /// The texts of both files.
    ghost seen: { Self → Texts };

    /// What a crash at this moment may leave of both.
    ghost may_leave: { Self → Texts → Type 0 };

    /// The moment, as a number that doesn't fall.
    ghost moment: { Self → ℕ };

    /// What a crash at some moment from that one on might have left, during a call or between two.
    ghost left_since: { Self → ℕ → Texts → Type 0 };

    /// How often the system refused.
    ghost failures: { Self → ℕ };

    /// The text of FILE; none where there is no file.
    fn line(&self) -> Option<&[u8]>
        ensures { option_copied result ≡ (seen self.now).line };

    /// The text of FILE.next; none where there is no file.
    fn next(&self) -> Option<&[u8]>
        ensures { option_copied result ≡ (seen self.now).next };

    /// Makes FILE.next anew with this text, and asks for both files and their entries in the folder to be kept. FILE isn't touched. After
    /// Device nothing is known of FILE.next; NoMemory changes nothing.
    fn write_next(&mut self, text: &[u8]) -> Result<(), FolderFault>
        ensures written { OnOk result (seen self.new ≡ with_next (Some text.now) (seen self.old)) }
        ensures durable { OnOk result (IsDurable (seen self.new) (may_leave self.new)) }
        ensures time { Elapses (moment self.old) (moment self.new) (left_since self.old) (left_since self.new)
            (KeepsLine (may_leave self.old)) }
        ensures memory { result ≡ Err FolderFault.NoMemory → self.new ≡ self.old }
        ensures failed { result ≡ Err FolderFault.Device → failures self.old < failures self.new }
        ensures failures { failures self.old ≤ failures self.new };

    /// Asks for both files and their entries to be kept, puts FILE.next in FILE's place, and asks for the entries to be kept again.
    fn replace(&mut self) -> Result<(), FolderFault>
        requires { IsSome (seen self.old).next }
        ensures replaced { OnOk result (seen self.new ≡ replaced (seen self.old)) }
        ensures durable { OnOk result (IsDurable (seen self.new) (may_leave self.new)) }
        ensures time { Elapses (moment self.old) (moment self.new) (left_since self.old) (left_since self.new)
            (MayReplace (seen self.old)) }
        ensures error { IfErr result (λ e. e ≡ FolderFault.Device) }
        ensures failed { OnErr result (failures self.old < failures self.new) }
        ensures failures { failures self.old ≤ failures self.new };

    /// Asks for both files and their entries to be kept, removes FILE.next, and asks for the entries to be kept again.
    fn remove_next(&mut self) -> Result<(), FolderFault>
        ensures removed { OnOk result (seen self.new ≡ with_next None (seen self.old)) }
        ensures durable { OnOk result (IsDurable (seen self.new) (may_leave self.new)) }
        ensures time { Elapses (moment self.old) (moment self.new) (left_since self.old) (left_since self.new)
            (MayRemove (seen self.old)) }
        ensures error { IfErr result (λ e. e ≡ FolderFault.Device) }
        ensures failed { OnErr result (failures self.old < failures self.new) }
        ensures failures { failures self.old ≤ failures self.new };

    /// This moment is one of those since an earlier one.
    ghost counts_now: { (folder : Self) (t : ℕ) (c : Texts) → t ≤ moment folder → may_leave folder c → left_since folder t c };

    /// Since this moment there is no other.
    ghost only_now: { (folder : Self) (c : Texts) → left_since folder (moment folder) c → may_leave folder c };
}

/// The folders of a system, by the paths of the files in them.
///
/// Opening one and closing it are steps of the system, each from one state of it to the next: so what was done to a folder is what stands
/// between the two, and nothing else was done where no other step was made.
pub trait LineFolders {
    /// The two files of a path.
    type Folder: LineFolder + Drop;

    /// The system refused a call. No call changes that.
    ghost refuses: { Self → Bool };

    /// These are the file that this path leads to, and the one beside it; the system is another one then.
    ghost opens: { Self → List ℕ → Self.Folder → Self → Type 0 };

    /// They are left as they are now; the system is another one then.
    ghost closes: { Self → Self.Folder → Self → Type 0 };

    /// Reads the file that a path leads to, be it by a link, and the one beside it, whose path is the first one's with `.next` behind it.
    /// Either may be missing. Device where one of them is no regular file, has more than 65,536 bytes, or can't be read, and where the
    /// path is a link that leads nowhere.
    fn open_line(&mut self, path: &str) -> Result<Self::Folder, FolderFault>
        ensures opened { IfOk result (λ folder. opens self.old path.now folder self.new) }
        ensures unchanged { OnErr result (self.new ≡ self.old) }
        ensures refused { result ≡ Err FolderFault.Device → refuses self.old ≡ true }
        ensures refuses { refuses self.new ≡ refuses self.old };

    /// Leaves both files as they are.
    fn close_line(&mut self, folder: Self::Folder)
        ensures closed { closes self.old folder self.new }
        ensures refuses { refuses self.new ≡ refuses self.old };
}
