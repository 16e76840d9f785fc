//! The real system.
ghost use Rattle.std.specs.Prelude.{◌≡◌};

use crate::opening::Opened;
use crate::paths::Paths;
use crate::stores::{
    VolumeStore, new_store, store_of_first, store_of_most, whole_file, whole_store,
};
use cli_faults::{Failure, Fault, Lock};
use os_files::{Identity, Part, System, VolumeFile};
use std::alloc::Global;
use std::fs::File;
use std::io;
use verity_disks::{Device, Disks, FileDisks};
use verity_store::{BlockStore, StoreFault, Which};

/// The real system, whose files are asked for by their paths.
#[derive(Drop)]
pub struct Host<'a, P> {
    paths: &'a P,
}

impl<'a, P: Paths> Host<'a, P> {
    /// The system of these paths.
    pub fn new(paths: &'a P) -> Host<'a, P>
        ensures { result.paths.now ≡ paths.now }
    {
        Host { paths }
    }
}

// What was opened at a path is what stands there; a store is over that very file. What became of it when it was closed isn't known.
impl<'a, P: Paths + AllocGlobal> System for Host<'a, P> {
    ghost use Rattle.std.specs.Prelude.{◌≡◌, true, false, ⊤};
    ghost use Rattle.os_host.specs.Lengths.{IsLenOf};
    ghost use Rattle.os_host.specs.Parts.{LiesAsPart};

    type File = Opened;

    type Store = VolumeStore;

    type Journalled = FileDisks<VolumeFile<File>>;

    ghost refuses = { λ host. P.refuses host.paths.now };

    ghost identity = { λ opened. opened.identity };

    ghost len = { λ opened. opened.len };

    ghost opens = { λ host path opened. P.opens host.paths.now path opened × P.permits host.paths.now opened false };

    ghost opens_to_write = { λ old path opened new. (new.paths.now ≡ old.paths.now) × P.opens old.paths.now path opened
        × P.permits old.paths.now opened true };

    ghost locks = { λ host opened lock. P.locks host.paths.now opened lock };

    ghost shuts_out = { λ host opened lock. P.shuts_out host.paths.now opened lock };

    ghost leads = { λ host path led. P.leads host.paths.now path led };

    ghost lacks = { λ host path. P.lacks host.paths.now path };

    ghost has_device = { λ host path. P.has_device host.paths.now path };

    ghost begins = { λ host opened bytes. P.begins host.paths.now opened bytes };

    ghost reads = { λ host opened at bytes. P.reads host.paths.now opened.file at bytes };

    ghost has_len = { λ host opened len. IsLenOf P.Paths host.paths.now opened.identity opened.file opened.len len };

    ghost lies = { λ _ opened part store. LiesAsPart opened part store.size store.file };

    ghost closes = { λ old _ _ new. new.paths.now ≡ old.paths.now };

    ghost joins = { λ _ _ _ _ _. ⊤ };

    ghost parts = { λ old _ _ _ _ new. new.paths.now ≡ old.paths.now };

    ghost failed_last = { λ disks. disks.last_failed };

    ghost removes = { λ old _ new. new.paths.now ≡ old.paths.now };

    fn alloc(&self) -> Global {
        self.paths.alloc()
    }

    fn identity_of(&self, file: &Opened) -> Identity {
        file.identity
    }

    fn len_of(&self, file: &Opened) -> u64 {
        file.len
    }

    fn open(&self, path: &str) -> Result<Opened, StoreFault> {
        self.paths.open(path, false)
    }

    fn open_to_write(&mut self, path: &str, makes: bool) -> Result<(Opened, bool), StoreFault> {
        if makes {
            self.paths.open_or_make(self.paths.alloc(), path)
        } else {
            Ok((self.paths.open(path, true)?, false))
        }
    }

    fn lock(&self, file: &Opened, lock: Lock, which: Which) -> Result<(), Fault> {
        self.paths.lock(file, lock, which)
    }

    fn real_path(&self, path: &str) -> Result<String, Failure> {
        self.paths.real_path(self.paths.alloc(), path)
    }

    fn is_there(&self, path: &str) -> Result<bool, StoreFault> {
        self.paths.is_there(path)
    }

    fn is_device(&self, path: &str) -> bool {
        self.paths.is_device(path)
    }

    fn read_first(&self, file: &mut Opened, out: &mut [u8]) -> io::Result<()> {
        self.paths.read_first(file, out)
    }

    fn read_at(&self, file: &Opened, at: u64, out: &mut [u8]) -> io::Result<()> {
        self.paths.read_at(&file.file, at, out)
    }

    fn store(&self, file: Opened, part: Part, size: usize) -> Result<VolumeStore, StoreFault> {
        match part {
            Part::All => whole_store(self.paths, file, size),
            Part::First(blocks) => store_of_first(file, size, blocks),
            Part::AtMost(blocks) => store_of_most(self.paths, file, size, blocks),
            Part::New => new_store(file, size),
        }
    }

    fn close(&mut self, _path: &str, _store: VolumeStore) -> Result<(), StoreFault> {
        Ok(())
    }

    fn journalled(
        &self,
        image: Opened,
        device: Opened,
        journal: Opened,
        bytes: Vec<u8>,
    ) -> Result<FileDisks<VolumeFile<File>>, StoreFault> {
        let data_len = image.len;
        let hash_len = device.len;
        let on_data = whole_file(image);
        let on_hash = whole_file(device);
        let on_journal = whole_file(journal);
        Ok(FileDisks::over(on_data, data_len, on_hash, hash_len, on_journal, bytes))
    }

    fn last_failed(&self, disks: &FileDisks<VolumeFile<File>>) -> Option<Device> {
        disks.last_failed()
    }

    fn close_journalled(
        &mut self,
        _data_path: &str,
        _hash_path: &str,
        _journal_path: &str,
        _disks: FileDisks<VolumeFile<File>>,
    ) -> Result<(), StoreFault> {
        Ok(())
    }

    fn sync_folder(&self, path: &str) -> io::Result<()> {
        self.paths.sync_folder(path)
    }

    fn remove(&mut self, path: &str) {
        self.paths.remove(path);
    }

    fn unmake(&mut self, path: &str) {
        self.paths.unmake(self.paths.alloc(), path);
    }
}
