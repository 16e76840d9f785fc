//! What the program asks the system of its files: by a path, and of what was opened at one.
//!
//! What stands at a path, and what becomes of an opened file, only the system knows. Here that has a name, for each question one, which a
//! contract can say of any system: code that works over any [`Paths`] has no other way to such a fact than to ask by that very path, or
//! of that very file. Of the system itself, whose calls have no clauses, nothing is known: that it answers so is trusted.
ghost use Rattle.std.specs.Prelude.{◌≡◌, ℕ, Bool, true, false, List, Option, IsOk, IfOk, IfErr, IfSome, OnOk, OnErr, string_bytes};
ghost use Rattle.std.specs.declared.fs.File.{File};
ghost use Rattle.cli_faults.specs.Errors.{IsOfLock, IsOfScript, IsOfSystem};
ghost use Rattle.cli_faults.specs.declared.command.Lock.{Lock};
ghost use Rattle.cli_faults.specs.declared.failure.Failure.TheVariants as failure;
ghost use Rattle.os_host.specs.declared.opening.Opened.{Opened};

use crate::locks::take_lock;
use crate::opening::{
    Opened, look_again, make_or_open, open_again, open_at, path_led_to, stands_at, unmake_at,
};
use cli_faults::{Failure, Fault, Lock};
use os_files::{Identity, file_identity, read_script, unread};
use std::alloc::Global;
use std::fs::File;
use std::io::Read;
use std::os::unix::fs::FileExt;
use std::rt::Files;
use std::{fs, io};
use verity_store::{RawFile, StoreFault, Which};

/// The files of a system, by their paths.
pub trait Paths {
    /// The system refused a call, or has more to read than is taken.
    ghost refuses: { Self → Bool };

    /// What was opened stood at this path.
    ghost opens: { Self → List ℕ → Opened → Type 0 };

    /// What was opened can be written too, or only be read.
    ghost permits: { Self → Opened → Bool → Type 0 };

    /// This lock was taken on what was opened.
    ghost locks: { Self → Opened → Lock → Type 0 };

    /// Another has a lock on what was opened that shuts this one out.
    ghost shuts_out: { Self → Opened → Lock → Type 0 };

    /// A path leads to the file whose own path this is, or has no other.
    ghost leads: { Self → List ℕ → List ℕ → Type 0 };

    /// Nothing is seen at this path.
    ghost lacks: { Self → List ℕ → Type 0 };

    /// A block device stands at this path.
    ghost has_device: { Self → List ℕ → Type 0 };

    /// An opened file has so many bytes by now.
    ghost has_len: { Self → File → ℕ → Type 0 };

    /// What was opened begins with these bytes.
    ghost begins: { Self → Opened → List ℕ → Type 0 };

    /// These bytes were read of an opened file from this offset on.
    ghost reads: { Self → File → ℕ → List ℕ → Type 0 };

    /// These bytes were written to an opened file from this offset on, which made it this one.
    ghost writes: { Self → File → ℕ → List ℕ → File → Type 0 };

    /// An opened file was given so many bytes, which made it this one.
    ghost sets_len: { Self → File → ℕ → File → Type 0 };

    /// What was written to an opened file was asked to be kept, which made it this one.
    ghost syncs: { Self → File → File → Type 0 };

    /// The bytes that are read at this path, where they are known.
    ghost text: { Self → List ℕ → Option (List ℕ) };

    /// Opens a file or a block device that stands at a path, to be written too where that is asked for. S1 where it isn't there, or is
    /// neither, which is not waited for; S3 for want of memory.
    fn open(&self, path: &str, is_written: bool) -> Result<Opened, StoreFault>
        ensures opened { IfOk result (opens self.now path.now) }
        ensures permitted { IfOk result (λ opened. permits self.now opened is_written) }
        ensures refused { IfErr result (IsOfSystem (refuses self.now ≡ true)) };

    /// Opens a file or a block device to be written, and makes a file where there is nothing. It tells whether it did. Nothing is cut.
    /// S1 and S3 as in `open`.
    fn open_or_make(&self, alloc: Global, path: &str) -> Result<(Opened, bool), StoreFault>
        ensures opened { IfOk result (λ made. opens self.now path.now made.0) }
        ensures permitted { IfOk result (λ made. permits self.now made.0 true) }
        ensures refused { IfErr result (IsOfSystem (refuses self.now ≡ true)) };

    /// What was opened, once more. S1 where the system refuses, S3 for want of memory.
    fn again(&self, opened: &Opened) -> Result<Opened, StoreFault>
        ensures same { IfOk result (λ again. (again.identity ≡ opened.now.identity) × (again.len ≡ opened.now.len)) }
        ensures refused { IfErr result (IsOfSystem (refuses self.now ≡ true)) };

    /// The same, with as many bytes as it has by now.
    fn seen_again(&self, opened: &Opened) -> Result<Opened, StoreFault>
        ensures refused { IfErr result (IsOfSystem (refuses self.now ≡ true)) };

    /// Takes a lock on what was opened. S5 where another has one that shuts it out; S1 where the system refuses, S3 for want of memory.
    fn lock(&self, opened: &Opened, lock: Lock, which: Which) -> Result<(), Fault>
        ensures locked { OnOk result (locks self.now opened.now lock) }
        ensures open { lock ≡ Lock.Open → IsOk result }
        ensures refused { IfErr result (IsOfLock (refuses self.now ≡ true) (shuts_out self.now opened.now lock) which) };

    /// The path of what a path leads to; the path itself where there is nothing, or the system doesn't say. No error but want of memory.
    fn real_path(&self, alloc: Global, path: &str) -> Result<String, Failure>
        ensures leads { IfOk result (λ led. leads self.now path.now (string_bytes led)) }
        ensures refused { IfErr result (λ e. e ≡ failure.NoMemory) };

    /// Whether anything is seen at a path, be it a link that leads nowhere. No error but want of memory.
    fn is_there(&self, path: &str) -> Result<bool, StoreFault>
        ensures lacks { IfOk result (λ there. there ≡ false → lacks self.now path.now) }
        ensures refused { IfErr result (λ e. e ≡ StoreFault.NoMemory) };

    /// Whether a path leads to a block device; not where it can't be looked at.
    fn is_device(&self, path: &str) -> bool
        ensures { result ≡ true → has_device self.now path.now };

    /// Reads the first bytes of what was opened, as many as `out` has.
    fn read_first(&self, opened: &mut Opened, out: &mut [u8]) -> io::Result<()>
        ensures read { OnOk result (begins self.now opened.old out.new) }
        ensures refused { OnErr result (refuses self.now ≡ true) };

    /// How many bytes an opened file has by now; of a device it isn't asked.
    fn byte_len(&self, file: &File) -> io::Result<u64>
        ensures len { IfOk result (has_len self.now file.now) }
        ensures refused { OnErr result (refuses self.now ≡ true) };

    /// Reads as many bytes of what was opened as `out` has, from offset `at` on.
    fn read_at(&self, file: &File, at: u64, out: &mut [u8]) -> io::Result<()>
        ensures read { OnOk result (reads self.now file.now at out.new) }
        ensures refused { OnErr result (refuses self.now ≡ true) };

    /// Writes these bytes from offset `at` on.
    fn write_at(&self, file: &mut File, at: u64, bytes: &[u8]) -> io::Result<()>
        ensures written { OnOk result (writes self.now file.old at bytes.now file.new) }
        ensures refused { OnErr result (refuses self.now ≡ true) };

    /// Cuts an opened file to `n` bytes, or fills it up to as many with zeros.
    fn set_byte_len(&self, file: &mut File, n: u64) -> io::Result<()>
        ensures set { OnOk result (sets_len self.now file.old n file.new) }
        ensures refused { OnErr result (refuses self.now ≡ true) };

    /// Asks to keep what was written to an opened file.
    fn sync(&self, file: &mut File) -> io::Result<()>
        ensures synced { OnOk result (syncs self.now file.old file.new) }
        ensures refused { OnErr result (refuses self.now ≡ true) };

    /// The bytes of the script at a path, be it a pipe. S1 where it can't be opened or read, or is longer than 2^30 bytes; want of memory.
    fn script_at(&self, alloc: Global, path: &str) -> Result<Vec<u8>, Failure>
        ensures read { IfOk result (λ script. IfSome (text self.now path.now) (λ bytes. script.items ≡ bytes)) }
        ensures refused { IfErr result (IsOfScript (refuses self.now ≡ true)) };

    /// The bytes of the script that an input has. S1 where it can't be read, or is longer than 2^30 bytes; want of memory.
    fn script_in<I: Read>(&self, alloc: Global, input: &mut I) -> Result<Vec<u8>, Failure>
        ensures read { IfOk result (λ script. IfSome (I.remaining input.old) (λ bytes. script.items ≡ bytes)) }
        ensures refused { IfErr result (IsOfScript (refuses self.now ≡ true)) };

    /// Asks for the entries of the folder to be kept in which a path stands.
    fn sync_folder(&self, path: &str) -> io::Result<()>
        ensures refused { OnErr result (refuses self.now ≡ true) };

    /// Removes a file that this program made, where nothing was written to it yet; of a link, the file that it names.
    fn unmake(&self, alloc: Global, path: &str);

    /// Removes a file, and asks for that to be kept. A file that comes back does no harm, so nothing is refused.
    fn remove(&self, path: &str);
}

impl<R: Files<File = File>> Paths for R {
    ghost use Rattle.std.specs.Prelude.{⊤, None, true};

    ghost refuses = { λ _. true };

    ghost opens = { λ _ _ _. ⊤ };

    ghost permits = { λ _ _ _. ⊤ };

    ghost locks = { λ _ _ _. ⊤ };

    ghost shuts_out = { λ _ _ _. ⊤ };

    ghost leads = { λ _ _ _. ⊤ };

    ghost lacks = { λ _ _. ⊤ };

    ghost has_device = { λ _ _. ⊤ };

    ghost has_len = { λ _ _ _. ⊤ };

    ghost begins = { λ _ _ _. ⊤ };

    ghost reads = { λ _ _ _ _. ⊤ };

    ghost writes = { λ _ _ _ _ _. ⊤ };

    ghost sets_len = { λ _ _ _ _. ⊤ };

    ghost syncs = { λ _ _ _. ⊤ };

    ghost text = { λ _ _. None };

    fn open(&self, path: &str, is_written: bool) -> Result<Opened, StoreFault> {
        open_at(self, path, is_written)
    }

    fn open_or_make(&self, alloc: Global, path: &str) -> Result<(Opened, bool), StoreFault> {
        make_or_open(self, alloc, path)
    }

    fn again(&self, opened: &Opened) -> Result<Opened, StoreFault> {
        open_again(opened)
    }

    fn seen_again(&self, opened: &Opened) -> Result<Opened, StoreFault> {
        look_again(opened)
    }

    fn lock(&self, opened: &Opened, lock: Lock, which: Which) -> Result<(), Fault> {
        take_lock(&opened.file, lock, which)
    }

    fn real_path(&self, alloc: Global, path: &str) -> Result<String, Failure> {
        path_led_to(self, alloc, path)
    }

    fn is_there(&self, path: &str) -> Result<bool, StoreFault> {
        stands_at(self, path)
    }

    fn is_device(&self, path: &str) -> bool {
        match fs::metadata(self, path) {
            Ok(metadata) => matches!(file_identity(&metadata), Some(Identity::Device(_))),
            Err(_) => false,
        }
    }

    fn read_first(&self, opened: &mut Opened, out: &mut [u8]) -> io::Result<()> {
        RawFile::read_exact_at(&mut opened.file, 0, out)
    }

    fn byte_len(&self, file: &File) -> io::Result<u64> {
        RawFile::byte_len(file)
    }

    fn read_at(&self, file: &File, at: u64, out: &mut [u8]) -> io::Result<()> {
        FileExt::read_exact_at(file, out, at)
    }

    fn write_at(&self, file: &mut File, at: u64, bytes: &[u8]) -> io::Result<()> {
        RawFile::write_all_at(file, at, bytes)
    }

    fn set_byte_len(&self, file: &mut File, n: u64) -> io::Result<()> {
        RawFile::set_byte_len(file, n)
    }

    fn sync(&self, file: &mut File) -> io::Result<()> {
        RawFile::sync(file)
    }

    fn script_at(&self, alloc: Global, path: &str) -> Result<Vec<u8>, Failure> {
        match File::open(self, path) {
            Ok(file) => {
                let mut file = file;
                read_script(alloc, &mut file)
            }
            Err(error) => Err(unread(error)),
        }
    }

    fn script_in<I: Read>(&self, alloc: Global, input: &mut I) -> Result<Vec<u8>, Failure> {
        read_script(alloc, input)
    }

    fn sync_folder(&self, path: &str) -> io::Result<()> {
        File::open(self, folder_of(path))?.sync_all()
    }

    fn unmake(&self, alloc: Global, path: &str) {
        unmake_at(self, alloc, path);
    }

    fn remove(&self, path: &str) {
        if fs::remove_file(self, path).is_ok() {
            let _ = self.sync_folder(path);
        }
    }
}

/// The folder in which a path stands.
fn folder_of(path: &str) -> &str {
    match path.rsplit_once('/') {
        Some(("", _)) => "/",
        Some((folder, _)) => folder,
        None => ".",
    }
}
