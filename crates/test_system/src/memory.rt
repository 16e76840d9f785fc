//! A system of three files in memory.
ghost use Rattle.std.specs.Prelude.{◌≡◌, ◌/◌, ◌<◌, ◌↔◌, true, None, codes, length, vec_len, IfOk, IfErr, IfSome};
ghost use Rattle.cli_faults.specs.Errors.{IsOfSystem};
ghost use Rattle.verity_disks.specs.Tearing.{kept_of};
ghost use Rattle.verity_profile.specs.Profile.{IsBlockSize};
ghost use Rattle.test_system.specs.Files.{device_of, journal_of, IsOpened};

use cli_faults::{Failure, Fault, Lock};
use os_files::{Identity, Part, System};
use std::alloc::Global;
use std::io;
use std::io::ErrorKind;
use test_stores::FailStore;
use verity_disks::{Device, Disks, TearingDisks};
use verity_profile::is_block_size;
use verity_store::{BlockStore, MemStore, StoreFault, Which};

/// Which of the files.
#[derive(Clone, Copy, Debug, PartialEq, Eq)]
pub enum Name {
    Data,
    Hash,
    Journal,
}

/// Three files, at the paths `data`, `hash` and `hash.journal`. A file that isn't there has no bytes.
#[derive(Drop)]
pub struct MemSystem {
    alloc: Global,
    pub image: Vec<u8>,
    pub device: Option<Vec<u8>>,
    pub journal: Option<Vec<u8>>,
    /// Which call on each store fails, counted from 1; 0 for none.
    pub due: u64,
    /// After how many calls the devices of a journal end.
    pub calls: u64,
}

/// A file that was opened, with the bytes that it had then.
#[derive(Drop)]
pub struct MemOpened {
    name: Name,
    bytes: Vec<u8>,
}

/// A store of the first blocks of these bytes, so many. S1 where there are fewer, S4 for all but the block sizes of the profile.
pub(crate) fn first_blocks(bytes: Vec<u8>, blocks: u64, size: usize) -> Result<MemStore, StoreFault>
    ensures count { IfOk result (λ store. length (⟦<MemStore as BlockStore>⟧.content store) ≡ blocks) }
    ensures size { IfOk result (λ store. ⟦<MemStore as BlockStore>⟧.size store ≡ size) }
    ensures tells { IfOk result (λ store. ⟦<MemStore as BlockStore>⟧.tells store ≡ true) }
    ensures wrong_size { (result ≡ Err StoreFault.BlockSize) ↔ ¬ IsBlockSize size }
    ensures short { result ≡ Err StoreFault.Device → vec_len bytes / size < blocks }
{
    if !is_block_size(size) {
        return Err(StoreFault::BlockSize);
    }
    if blocks > bytes.len() as u64 / size as u64 {
        return Err(StoreFault::Device);
    }
    let mut bytes = bytes;
    bytes.truncate(blocks as usize * size);
    MemStore::new(bytes, size)
}

/// What is on a device.
fn kept(alloc: Global, disks: &TearingDisks, device: Device) -> Result<Vec<u8>, StoreFault>
    ensures kept { IfOk result (λ bytes. bytes.items ≡ (kept_of disks.now.devices device).durable) }
    ensures refused { IfErr result (IsOfSystem (true ≡ true)) }
{
    match disks.device(device).durable().to_vec(alloc) {
        Ok(bytes) => Ok(bytes),
        Err(_) => Err(StoreFault::NoMemory),
    }
}

impl MemSystem {
    /// These bytes in `data`, and no other file.
    pub fn new(alloc: Global, image: Vec<u8>, due: u64) -> MemSystem
        ensures { result.image.items ≡ image.items }
    {
        MemSystem {
            alloc,
            image,
            device: None,
            journal: None,
            due,
            calls: u64::MAX,
        }
    }

    /// The file at a path, where it is there.
    fn bytes_at(&self, path: &str) -> Option<(Name, &[u8])>
        ensures image { path.now ≡ codes "data" → IfSome result (λ found. found.1.now ≡ self.now.image.items) }
        ensures device { path.now ≡ codes "hash" → IfSome result (λ found. found.1.now ≡ device_of self.now) }
        ensures journal { path.now ≡ codes "hash.journal" → IfSome result (λ found. found.1.now ≡ journal_of self.now) }
        ensures none { path.now ≡ codes "hash.journal" → result ≡ None → self.now.journal ≡ None }
    {
        if path == "data" {
            return Some((Name::Data, &self.image));
        }
        if path == "hash" {
            return match &self.device {
                Some(bytes) => Some((Name::Hash, bytes)),
                None => None,
            };
        }
        if path == "hash.journal" {
            return match &self.journal {
                Some(bytes) => Some((Name::Journal, bytes)),
                None => None,
            };
        }
        None
    }

    /// What stands at a path, with its bytes.
    fn opened(&self, path: &str) -> Result<MemOpened, StoreFault>
        ensures opened { IfOk result (IsOpened self.now path.now) }
        ensures refused { IfErr result (IsOfSystem (true ≡ true)) }
    {
        match self.bytes_at(path) {
            Some((name, bytes)) => match bytes.to_vec(self.alloc) {
                Ok(bytes) => Ok(MemOpened { name, bytes }),
                Err(_) => Err(StoreFault::NoMemory),
            },
            None => Err(StoreFault::Device),
        }
    }
}

impl System for MemSystem {
    ghost use Rattle.std.specs.Prelude.{◌≡◌, ◌≢◌, codes, true, None, Some, length, vec_len, take, drop, ⊤};
    ghost use Rattle.std.specs.List.{concat};
    ghost use Rattle.std.specs.Option.{option_map};
    ghost use Rattle.os_files.specs.declared.part.Part.TheVariants as part;
    ghost use Rattle.os_files.specs.declared.identity.Identity.{Identity};
    ghost use Rattle.test_system.specs.Files.{AreJoined, AreParted, IsOpened};
    ghost use Rattle.test_system.specs.Identities.{identity_of};

    type File = MemOpened;

    type Store = FailStore<MemStore>;

    type Journalled = TearingDisks;

    ghost refuses = { λ _. true };

    ghost identity = { λ opened. identity_of opened.name };

    ghost len = { λ opened. vec_len opened.bytes };

    ghost opens = { IsOpened };

    ghost opens_to_write = { λ old path opened new. (new ≡ old) × IsOpened old path opened };

    ghost locks = { λ _ _ _. ⊤ };

    ghost shuts_out = { λ _ _ _. ⊤ };

    ghost leads = { λ _ path led. led ≡ path };

    ghost lacks = { λ system path. path ≡ codes "hash.journal" → system.journal ≡ None };

    ghost has_device = { λ _ _. ⊤ };

    ghost begins = { λ _ _ _. ⊤ };

    ghost reads = { λ _ opened at bytes. bytes ≡ take (length bytes) (drop at opened.bytes.items) };

    ghost has_len = { λ _ opened len. len ≡ vec_len opened.bytes };

    ghost lies = { λ _ opened p store. (⟦<MemStore as BlockStore>⟧.tells store.store ≡ true)
        × (p ≡ part.All → concat (⟦<MemStore as BlockStore>⟧.content store.store) ≡ opened.bytes.items) };

    ghost closes = { λ old path store new. (new.image.items ≡ old.image.items)
        × (path ≡ codes "hash" → option_map (λ bytes. bytes.items) new.device
        ≡ Some (concat (⟦<MemStore as BlockStore>⟧.content store.store))) };

    ghost joins = { λ _ image device journal disks. AreJoined image device journal disks.devices };

    ghost parts = { λ _ data_path hash_path path disks new. AreParted data_path hash_path path disks.devices new };

    ghost failed_last = { λ _. None };

    ghost removes = { λ old path new. path ≡ codes "hash.journal" → new ≡ record old { journal = None } };

    fn alloc(&self) -> Global {
        self.alloc
    }

    fn identity_of(&self, file: &MemOpened) -> Identity {
        match file.name {
            Name::Data => Identity::File(0, 0),
            Name::Hash => Identity::File(0, 1),
            Name::Journal => Identity::File(0, 2),
        }
    }

    fn len_of(&self, file: &MemOpened) -> u64 {
        file.bytes.len() as u64
    }

    fn open(&self, path: &str) -> Result<MemOpened, StoreFault> {
        self.opened(path)
    }

    fn open_to_write(&mut self, path: &str, makes: bool) -> Result<(MemOpened, bool), StoreFault> {
        if makes && path == "hash" && self.device.is_none() {
            let bytes = Vec::new(self.alloc);
            let name = Name::Hash;
            return Ok((MemOpened { name, bytes }, true));
        }
        Ok((self.opened(path)?, false))
    }

    fn lock(&self, _file: &MemOpened, _lock: Lock, _which: Which) -> Result<(), Fault> {
        Ok(())
    }

    fn real_path(&self, path: &str) -> Result<String, Failure> {
        Ok(String::from_str(self.alloc, path)?)
    }

    fn is_there(&self, path: &str) -> Result<bool, StoreFault> {
        Ok(self.bytes_at(path).is_some())
    }

    fn is_device(&self, _path: &str) -> bool {
        false
    }

    fn read_first(&self, file: &mut MemOpened, out: &mut [u8]) -> io::Result<()> {
        if out.len() > file.bytes.len() {
            return Err(ErrorKind::UnexpectedEof.into());
        }
        out.copy_from_slice(&file.bytes[..out.len()]);
        Ok(())
    }

    fn read_at(&self, file: &MemOpened, at: u64, out: &mut [u8]) -> io::Result<()> {
        let Some(rest) = file.bytes.get(at as usize..) else {
            return Err(ErrorKind::UnexpectedEof.into());
        };
        let Some(bytes) = rest.get(..out.len()) else {
            return Err(ErrorKind::UnexpectedEof.into());
        };
        out.copy_from_slice(bytes);
        Ok(())
    }

    fn store(
        &self,
        file: MemOpened,
        part: Part,
        size: usize,
    ) -> Result<FailStore<MemStore>, StoreFault> {
        let store = match part {
            Part::All | Part::AtMost(_) => MemStore::new(file.bytes, size)?,
            Part::First(blocks) => first_blocks(file.bytes, blocks, size)?,
            Part::New => MemStore::new(Vec::new(self.alloc), size)?,
        };
        Ok(FailStore::at(store, self.due))
    }

    fn close(&mut self, path: &str, store: FailStore<MemStore>) -> Result<(), StoreFault> {
        let Ok(bytes) = store.store().bytes().to_vec(self.alloc) else {
            return Err(StoreFault::NoMemory);
        };
        if path == "hash" {
            self.device = Some(bytes);
        }
        Ok(())
    }

    fn journalled(
        &self,
        image: MemOpened,
        device: MemOpened,
        journal: MemOpened,
        _bytes: Vec<u8>,
    ) -> Result<TearingDisks, StoreFault> {
        match TearingDisks::new(
            self.alloc,
            image.bytes,
            device.bytes,
            journal.bytes,
            self.calls,
        ) {
            Ok(disks) => Ok(disks),
            Err(_) => Err(StoreFault::NoMemory),
        }
    }

    fn last_failed(&self, _disks: &TearingDisks) -> Option<Device> {
        None
    }

    // What isn't synced is lost.
    fn close_journalled(
        &mut self,
        data_path: &str,
        hash_path: &str,
        journal_path: &str,
        disks: TearingDisks,
    ) -> Result<(), StoreFault> {
        let image = kept(self.alloc, &disks, Device::Data)?;
        let device = kept(self.alloc, &disks, Device::Hash)?;
        let journal = kept(self.alloc, &disks, Device::Journal)?;
        if data_path == "data" {
            self.image = image;
        }
        if hash_path == "hash" {
            self.device = Some(device);
        }
        if journal_path == "hash.journal" {
            self.journal = Some(journal);
        }
        Ok(())
    }

    fn sync_folder(&self, _path: &str) -> io::Result<()> {
        Ok(())
    }

    fn remove(&mut self, path: &str) {
        if path == "hash.journal" {
            self.journal = None;
        }
    }

    fn unmake(&mut self, path: &str) {
        if path == "hash" {
            self.device = None;
        }
    }
}
