//! What a command asks of a system: what stands at its paths, and the blocks of it.
//!
//! What stands at a path, and what becomes of it, only the system knows. So the types of what is opened, and of the stores over it, are the
//! system's own: code that works over any [`System`] comes by a state of one through its calls alone, and a clause that names a state
//! speaks of what these calls gave. A call that may change what stands at a path makes another system of it ([`System::open_to_write`],
//! [`System::close`]); so where a command's clause leads by such steps from the system before to the one after, nothing else was opened to
//! be written. Of the real system, whose calls have no clauses, nothing is known: that it answers so is trusted.
ghost use Rattle.std.specs.Prelude.{◌≡◌, ◌≢◌, ◌⊎◌, ◌↔◌, ◌%◌, ℕ, Bool, true, false, List, length};
ghost use Rattle.std.specs.Prelude.{IsOk, IfOk, IfErr, OnOk, OnErr, Option, string_bytes};
ghost use Rattle.verity_profile.specs.Profile.{IsBlockSize};
ghost use Rattle.cli_faults.specs.Errors.{IsOfLock, IsOfSystem};
ghost use Rattle.os_files.specs.Parts.{HasAsked, HasFewer, IsRaggedPart};
ghost use Rattle.cli_faults.specs.declared.command.Lock.{Lock};
ghost use Rattle.cli_faults.specs.declared.failure.Failure.TheVariants as failure;
ghost use Rattle.os_files.specs.declared.identity.Identity.{Identity};
ghost use Rattle.os_files.specs.declared.part.Part.{Part};
ghost use Rattle.verity_disks.specs.declared.disks.Device.{Device};
ghost use Rattle.verity_disks.specs.declared.disks.Device.TheVariants as of;

use crate::identity::Identity;
use crate::part::Part;
use cli_faults::{Failure, Fault, Lock};
use std::alloc::Global;
use std::io;
use verity_disks::{Device, Disks};
use verity_store::{BlockStore, StoreFault, Which};

/// A system of paths, with what is opened there and the stores over it of types of its own.
pub trait System {
    /// A file or a block device that was opened.
    type File: Drop;

    /// The blocks of one.
    type Store: BlockStore + Drop;

    /// A data device, a hash device and a journal, under one clock.
    type Journalled: Disks + Drop;

    /// The system refused a call, or has more to read than is taken. No call changes that.
    ghost refuses: { Self → Bool };

    /// Which file or device it is.
    ghost identity: { Self.File → Identity };

    /// How many bytes it had when it was opened.
    ghost len: { Self.File → ℕ };

    /// This was opened at this path, to be read.
    ghost opens: { Self → List ℕ → Self.File → Type 0 };

    /// This was opened at this path, to be written too, which made the system this one.
    ghost opens_to_write: { Self → List ℕ → Self.File → Self → Type 0 };

    /// This lock was taken on what was opened.
    ghost locks: { Self → Self.File → Lock → Type 0 };

    /// Another has a lock on what was opened that shuts this one out.
    ghost shuts_out: { Self → Self.File → Lock → Type 0 };

    /// A path leads to the file whose own path this is, or has no other.
    ghost leads: { Self → List ℕ → List ℕ → Type 0 };

    /// Nothing is seen at this path.
    ghost lacks: { Self → List ℕ → Type 0 };

    /// A block device stands at this path.
    ghost has_device: { Self → List ℕ → Type 0 };

    /// What was opened begins with these bytes.
    ghost begins: { Self → Self.File → List ℕ → Type 0 };

    /// These bytes of what was opened stand from this offset on.
    ghost reads: { Self → Self.File → ℕ → List ℕ → Type 0 };

    /// What was opened has so many bytes by now.
    ghost has_len: { Self → Self.File → ℕ → Type 0 };

    /// This store is over this part of what was opened.
    ghost lies: { Self → Self.File → Part → Self.Store → Type 0 };

    /// What stands at this path was left as this store is, which made the system this one.
    ghost closes: { Self → List ℕ → Self.Store → Self → Type 0 };

    /// These devices are what was opened as DATA, as HASH and as a journal.
    ghost joins: { Self → Self.File → Self.File → Self.File → Self.Journalled → Type 0 };

    /// What stands at the paths of DATA, of HASH and of a journal was left as these devices are, which made the system this one.
    ghost parts: { Self → List ℕ → List ℕ → List ℕ → Self.Journalled → Self → Type 0 };

    /// The device of which a call failed last.
    ghost failed_last: { Self.Journalled → Option Device };

    /// The file at this path was removed, where it could be, which made the system this one.
    ghost removes: { Self → List ℕ → Self → Type 0 };

    /// Where memory is taken from.
    fn alloc(&self) -> Global;

    /// Which file or device was opened.
    fn identity_of(&self, file: &Self::File) -> Identity
        ensures { result ≡ identity file.now };

    /// How many bytes it had then.
    fn len_of(&self, file: &Self::File) -> u64
        ensures { result ≡ len file.now };

    /// Opens a file or a block device that stands at a path, to be read. S1 where it isn't there, or is neither, which is not waited for;
    /// S3 for want of memory.
    fn open(&self, path: &str) -> Result<Self::File, StoreFault>
        ensures opened { IfOk result (opens self.now path.now) }
        ensures refused { IfErr result (IsOfSystem (refuses self.now ≡ true)) };

    /// Opens one to be written too, and makes a file where there is nothing and `makes` says so. It tells whether it did. Nothing is cut.
    /// S1 and S3 as in `open`.
    fn open_to_write(&mut self, path: &str, makes: bool) -> Result<(Self::File, bool), StoreFault>
        ensures opened { IfOk result (λ opened. opens_to_write self.old path.now opened.0 self.new) }
        ensures found { IfOk result (λ opened. makes ≡ false → opened.1 ≡ false) }
        ensures refused { IfErr result (IsOfSystem (refuses self.old ≡ true)) }
        ensures same { refuses self.new ≡ refuses self.old };

    /// Takes a lock on what was opened. S5 where another has one that shuts it out; S1 where the system refuses, S3 for want of memory.
    fn lock(&self, file: &Self::File, lock: Lock, which: Which) -> Result<(), Fault>
        ensures locked { OnOk result (locks self.now file.now lock) }
        ensures open { lock ≡ Lock.Open → IsOk result }
        ensures refused { IfErr result (IsOfLock (refuses self.now ≡ true) (shuts_out self.now file.now lock) which) };

    /// The path of what a path leads to; the path itself where there is nothing, or the system doesn't say. No error but want of memory.
    fn real_path(&self, path: &str) -> Result<String, Failure>
        ensures leads { IfOk result (λ led. leads self.now path.now (string_bytes led)) }
        ensures refused { IfErr result (λ e. e ≡ failure.NoMemory) };

    /// Whether anything is seen at a path, be it a link that leads nowhere. No error but want of memory.
    fn is_there(&self, path: &str) -> Result<bool, StoreFault>
        ensures lacks { IfOk result (λ there. there ≡ false → lacks self.now path.now) }
        ensures refused { IfErr result (λ e. e ≡ StoreFault.NoMemory) };

    /// Whether a path leads to a block device; not where it can't be looked at.
    fn is_device(&self, path: &str) -> bool
        ensures { result ≡ true → has_device self.now path.now };

    /// Reads the first bytes of what was opened, as many as `out` has.
    fn read_first(&self, file: &mut Self::File, out: &mut [u8]) -> io::Result<()>
        ensures read { OnOk result (begins self.now file.old out.new) }
        ensures refused { OnErr result (refuses self.now ≡ true) };

    /// Reads as many bytes of what was opened as `out` has, from a byte offset on.
    fn read_at(&self, file: &Self::File, at: u64, out: &mut [u8]) -> io::Result<()>
        ensures read { OnOk result (reads self.now file.now at out.new) }
        ensures refused { OnErr result (refuses self.now ≡ true) };

    /// A store over a part of what was opened. S4 for all but the block sizes of the profile; S2 where that is no whole number of blocks;
    /// S1 where there are fewer than are asked for, or the system doesn't say how long it is; S3 for want of memory.
    fn store(&self, file: Self::File, part: Part, size: usize) -> Result<Self::Store, StoreFault>
        ensures lies { IfOk result (lies self.now file part) }
        ensures size { IfOk result (λ store. Self.Store.size store ≡ size) }
        ensures count { IfOk result (λ store. HasAsked part (length (Self.Store.content store))) }
        ensures wrong_size { (result ≡ Err StoreFault.BlockSize) ↔ ¬ IsBlockSize size }
        ensures ragged { result ≡ Err StoreFault.Ragged
            → IsRaggedPart part ((count : ℕ) × has_len self.now file count × (count % size ≢ 0)) }
        ensures short { result ≡ Err StoreFault.Device → (refuses self.now ≡ true) ⊎ HasFewer part (len file) size };

    /// Closes the store over what was opened at a path to be written.
    fn close(&mut self, path: &str, store: Self::Store) -> Result<(), StoreFault>
        ensures closed { OnOk result (closes self.old path.now store self.new) }
        ensures refused { IfErr result (IsOfSystem (refuses self.old ≡ true)) }
        ensures same { refuses self.new ≡ refuses self.old };

    /// The devices of what was opened as DATA, as HASH and as a journal, all of whose bytes were read. S1 where the system refuses, S3
    /// for want of memory.
    fn journalled(
        &self,
        image: Self::File,
        device: Self::File,
        journal: Self::File,
        bytes: Vec<u8>,
    ) -> Result<Self::Journalled, StoreFault>
        requires read { reads self.now journal 0 bytes.items }
        requires whole { length bytes.items ≡ len journal }
        ensures joins { IfOk result (joins self.now image device journal) }
        ensures data_len { IfOk result (λ disks. length (Self.Journalled.seen disks of.Data) ≡ len image) }
        ensures hash_len { IfOk result (λ disks. length (Self.Journalled.seen disks of.Hash) ≡ len device) }
        ensures journal { IfOk result (λ disks. Self.Journalled.seen disks of.Journal ≡ bytes.items) }
        ensures refused { IfErr result (IsOfSystem (refuses self.now ≡ true)) };

    /// The device of which a call failed last, where the system says which.
    fn last_failed(&self, disks: &Self::Journalled) -> Option<Device>
        ensures { result ≡ failed_last disks.now };

    /// Closes the devices of what was opened at the paths of DATA, of HASH and of a journal.
    fn close_journalled(
        &mut self,
        data_path: &str,
        hash_path: &str,
        journal_path: &str,
        disks: Self::Journalled,
    ) -> Result<(), StoreFault>
        ensures parted { OnOk result (parts self.old data_path.now hash_path.now journal_path.now disks self.new) }
        ensures refused { IfErr result (IsOfSystem (refuses self.old ≡ true)) }
        ensures same { refuses self.new ≡ refuses self.old };

    /// Asks for the entries of the folder to be kept in which a path stands.
    fn sync_folder(&self, path: &str) -> io::Result<()>
        ensures refused { OnErr result (refuses self.now ≡ true) };

    /// Removes a file, and asks for that to be kept. A file that comes back does no harm, so nothing is refused.
    fn remove(&mut self, path: &str)
        ensures removed { removes self.old path.now self.new }
        ensures same { refuses self.new ≡ refuses self.old };

    /// Removes a file that this program made, where nothing was written to it yet; of a link, the file that it names.
    fn unmake(&mut self, path: &str)
        ensures { refuses self.new ≡ refuses self.old };
}
