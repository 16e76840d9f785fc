//! Three files under one clock.
ghost use Rattle.std.specs.Prelude.{◌≡◌, ◌⊎◌, ◌≤◌, ◌+◌, ◌↔◌, [], length, None, Some};
ghost use Rattle.std.specs.Option.{ForSome};
ghost use Rattle.std.proofs.Common.{inl};
ghost use Rattle.verity_disks.specs.Tearing.{read_of, all_read, AllMayLeave, MightHaveLeft};
ghost use Rattle.verity_disks.specs.Past.{no_later};

use crate::file_device::{FileDevice, ThreeFiles};
use crate::past::Past;
use crate::{Device, DiskFault, Disks};
use base_count::Count;
use std::alloc::{Allocator, Global};
use verity_store::RawFile;

/// Three files as the devices of a journal.
///
/// What they hold is a ghost: three devices, which stood in any way at first, and what each call on a file did to its device,
/// if it did what it was asked to and a stop takes no more than [`Disks`] says. That the files of a system do so can't be
/// proved, and is trusted; after a call that failed nothing is known of what is read.
///
/// The journal is read from memory, as it stood at first: no file is read. After the first change each read is a fault, and
/// so is each of the other devices.
#[derive(Drop)]
pub struct FileDisks<F: RawFile, A: Allocator = Global> {
    files: ThreeFiles<F>,
    unchanged_journal: Option<Vec<u8, A>>,
    failed: Count,
    last_failed: Option<Device>,
    past: Past,
    ghost journal: { ForSome unchanged_journal (λ bytes. bytes.items ≡ read_of files.on_journal) },
    ghost told: { (last_failed ≡ None) ↔ (failed.steps ≡ 0) },
}

impl<F: RawFile, A: Allocator> FileDisks<F, A> {
    /// These three files, the last of which has these bytes.
    pub fn new(
        on_data: FileDevice<F>,
        on_hash: FileDevice<F>,
        on_journal: FileDevice<F>,
        journal: Vec<u8, A>,
    ) -> FileDisks<F, A>
        requires { read_of on_journal ≡ journal.items }
        ensures files { result.files ≡ record { on_data = on_data; on_hash = on_hash; on_journal = on_journal } }
        ensures past { result.past.moments ≡ [] }
    {
        FileDisks {
            files: ThreeFiles::new(on_data, on_hash, on_journal),
            unchanged_journal: Some(journal),
            failed: Count::new(),
            last_failed: None,
            past: Past::new(),
        }
    }

    /// These three files, of which the first two have so many bytes, and the journal has these.
    #[tactic(auto, using(crate::proofs::Zeros::zeros_len))]
    pub fn over(
        data_file: F,
        data_len: u64,
        hash_file: F,
        hash_len: u64,
        journal_file: F,
        journal: Vec<u8, A>,
    ) -> FileDisks<F, A>
        requires data_unknown { F.bytes data_file ≡ None }
        requires hash_unknown { F.bytes hash_file ≡ None }
        requires journal_unknown { F.bytes journal_file ≡ None }
        ensures data_len { length (read_of result.files.on_data) ≡ data_len }
        ensures hash_len { length (read_of result.files.on_hash) ≡ hash_len }
        ensures journal { read_of result.files.on_journal ≡ journal.items }
        ensures past { result.past.moments ≡ [] }
    {
        let on_journal = FileDevice::holding(journal_file, &journal);
        FileDisks::new(
            FileDevice::sized(data_file, data_len),
            FileDevice::sized(hash_file, hash_len),
            on_journal,
            journal,
        )
    }

    /// The device of which a call failed last; none where none did.
    pub fn last_failed(&self) -> Option<Device>
        ensures value { result ≡ self.now.last_failed }
        ensures none { (result ≡ None) ↔ (⟦<FileDisks<F, A> as Disks>⟧.faults self.now ≡ 0) }
    {
        self.last_failed
    }
}

// Notes that a call on a device failed.
fn fail(failed: &mut Count, last_failed: &mut Option<Device>, device: Device) -> DiskFault
    ensures fault { result ≡ DiskFault.Device }
    ensures counted { failed.new.steps ≡ failed.old.steps + 1 }
    ensures last { last_failed.new ≡ Some device }
{
    failed.step();
    *last_failed = Some(device);
    DiskFault::Device
}

impl<F: RawFile, A: Allocator> Disks for FileDisks<F, A> {
    ghost seen = { λ d. all_read d.files };

    ghost may_leave = { λ d c. AllMayLeave d.files c };

    ghost moment = { λ d. length d.past.moments };

    ghost left_since = { λ d t c. AllMayLeave d.files c ⊎ MightHaveLeft t d.past.moments c };

    ghost faults = { λ d. d.failed.steps };

    ghost counts_now = { λ d t c le now. inl now };

    ghost only_now = { λ d c left. no_later d.past.moments (AllMayLeave d.files c) c left };

    fn write_at(&mut self, device: Device, at: u64, bytes: &[u8]) -> Result<(), DiskFault> {
        self.past.note_files(&self.files);
        let is_small = bytes.len() as u64 <= u64::MAX - at;
        if !is_small {
            return Err(fail(&mut self.failed, &mut self.last_failed, device));
        }
        self.unchanged_journal = None;
        if self.files.write(device, at, bytes) {
            return Ok(());
        }
        Err(fail(&mut self.failed, &mut self.last_failed, device))
    }

    fn set_len(&mut self, device: Device, len: u64) -> Result<(), DiskFault> {
        self.past.note_files(&self.files);
        self.unchanged_journal = None;
        if self.files.resize(device, len) {
            return Ok(());
        }
        Err(fail(&mut self.failed, &mut self.last_failed, device))
    }

    fn sync(&mut self, device: Device) -> Result<(), DiskFault> {
        self.past.note_files(&self.files);
        if self.files.sync(device) {
            return Ok(());
        }
        Err(fail(&mut self.failed, &mut self.last_failed, device))
    }

    fn len(&self, device: Device) -> u64 {
        self.files.len(device)
    }

    fn read_at(&mut self, device: Device, at: u64, out: &mut [u8]) -> Result<(), DiskFault> {
        self.past.note_files(&self.files);
        if let (Device::Journal, Some(bytes)) = (device, &self.unchanged_journal) {
            let end = at as usize + out.len();
            out.copy_from_slice(&bytes[at as usize..end]);
            return Ok(());
        }
        Err(fail(&mut self.failed, &mut self.last_failed, device))
    }
}
