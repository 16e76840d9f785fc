//! A system of four files in memory: those of a source, and those that are made of it.
use crate::memory::first_blocks;
use cli_faults::{Failure, Fault, Lock};
use os_files::{Identity, Part, System};
use std::alloc::Global;
use std::io;
use std::io::ErrorKind;
use test_stores::FailStore;
use verity_disks::{Device, TearingDisks};
use verity_store::{MemStore, StoreFault, Which};

/// Which of the files, by their paths `from`, `from.hash`, `data` and `hash`.
#[derive(Clone, Copy, Debug, PartialEq, Eq)]
pub enum Four {
    From,
    FromHash,
    Data,
    Hash,
}

/// Four files, and no journal. One that isn't there is `None`.
#[derive(Drop)]
pub struct FourFiles {
    alloc: Global,
    pub from: Vec<u8>,
    pub from_hash: Vec<u8>,
    pub image: Option<Vec<u8>>,
    pub device: Option<Vec<u8>>,
    /// The store that fails, and at which call, counted from 1; at 0 at none.
    pub failing: (Four, u64),
}

/// A file that was opened, with the bytes that it had then.
#[derive(Drop)]
pub struct FourOpened {
    name: Four,
    bytes: Vec<u8>,
}

/// Which file stands at a path.
fn named(path: &str) -> Option<Four> {
    if path == "from" {
        Some(Four::From)
    } else if path == "from.hash" {
        Some(Four::FromHash)
    } else if path == "data" {
        Some(Four::Data)
    } else if path == "hash" {
        Some(Four::Hash)
    } else {
        None
    }
}

impl FourFiles {
    /// A source of these bytes, and nothing made of it.
    pub fn new(alloc: Global, from: Vec<u8>, from_hash: Vec<u8>) -> FourFiles {
        FourFiles {
            alloc,
            from,
            from_hash,
            image: None,
            device: None,
            failing: (Four::Data, 0),
        }
    }

    fn bytes_of(&self, name: Four) -> Option<&[u8]> {
        match name {
            Four::From => Some(&self.from),
            Four::FromHash => Some(&self.from_hash),
            Four::Data => match &self.image {
                Some(bytes) => Some(bytes),
                None => None,
            },
            Four::Hash => match &self.device {
                Some(bytes) => Some(bytes),
                None => None,
            },
        }
    }
}

impl System for FourFiles {
    ghost use Rattle.std.specs.Prelude.{true, None, vec_len, ⊤};
    ghost use Rattle.test_system.specs.Identities.{identity_of_four};

    type File = FourOpened;

    type Store = FailStore<MemStore>;

    type Journalled = TearingDisks;

    ghost refuses = { λ _. true };

    ghost identity = { λ opened. identity_of_four opened.name };

    ghost len = { λ opened. vec_len opened.bytes };

    ghost opens = { λ _ _ _. ⊤ };

    ghost opens_to_write = { λ _ _ _ _. ⊤ };

    ghost locks = { λ _ _ _. ⊤ };

    ghost shuts_out = { λ _ _ _. ⊤ };

    ghost leads = { λ _ _ _. ⊤ };

    ghost lacks = { λ _ _. ⊤ };

    ghost has_device = { λ _ _. ⊤ };

    ghost begins = { λ _ _ _. ⊤ };

    ghost reads = { λ _ _ _ _. ⊤ };

    ghost has_len = { λ _ _ _. ⊤ };

    ghost lies = { λ _ _ _ _. ⊤ };

    ghost closes = { λ _ _ _ _. ⊤ };

    ghost joins = { λ _ _ _ _ _. ⊤ };

    ghost parts = { λ _ _ _ _ _ _. ⊤ };

    ghost failed_last = { λ _. None };

    ghost removes = { λ _ _ _. ⊤ };

    fn alloc(&self) -> Global {
        self.alloc
    }

    fn identity_of(&self, file: &FourOpened) -> Identity {
        match file.name {
            Four::From => Identity::File(0, 0),
            Four::FromHash => Identity::File(0, 1),
            Four::Data => Identity::File(0, 2),
            Four::Hash => Identity::File(0, 3),
        }
    }

    fn len_of(&self, file: &FourOpened) -> u64 {
        file.bytes.len() as u64
    }

    fn open(&self, path: &str) -> Result<FourOpened, StoreFault> {
        let Some(name) = named(path) else {
            return Err(StoreFault::Device);
        };
        match self.bytes_of(name) {
            Some(bytes) => match bytes.to_vec(self.alloc) {
                Ok(bytes) => Ok(FourOpened { name, bytes }),
                Err(_) => Err(StoreFault::NoMemory),
            },
            None => Err(StoreFault::Device),
        }
    }

    fn open_to_write(&mut self, path: &str, makes: bool) -> Result<(FourOpened, bool), StoreFault> {
        match self.open(path) {
            Ok(opened) => Ok((opened, false)),
            Err(fault) => match named(path) {
                Some(name) if makes => {
                    let bytes = Vec::new(self.alloc);
                    Ok((FourOpened { name, bytes }, true))
                }
                _ => Err(fault),
            },
        }
    }

    fn lock(&self, _file: &FourOpened, _lock: Lock, _which: Which) -> Result<(), Fault> {
        Ok(())
    }

    fn real_path(&self, path: &str) -> Result<String, Failure> {
        Ok(String::from_str(self.alloc, path)?)
    }

    fn is_there(&self, path: &str) -> Result<bool, StoreFault> {
        match named(path) {
            Some(name) => Ok(self.bytes_of(name).is_some()),
            None => Ok(false),
        }
    }

    fn is_device(&self, _path: &str) -> bool {
        false
    }

    fn read_first(&self, file: &mut FourOpened, out: &mut [u8]) -> io::Result<()> {
        if out.len() > file.bytes.len() {
            return Err(ErrorKind::UnexpectedEof.into());
        }
        out.copy_from_slice(&file.bytes[..out.len()]);
        Ok(())
    }

    fn read_at(&self, _file: &FourOpened, _at: u64, _out: &mut [u8]) -> io::Result<()> {
        Err(ErrorKind::UnexpectedEof.into())
    }

    fn store(
        &self,
        file: FourOpened,
        part: Part,
        size: usize,
    ) -> Result<FailStore<MemStore>, StoreFault> {
        let (failing, call) = self.failing;
        let due = if failing == file.name { call } else { 0 };
        let store = match part {
            Part::All | Part::AtMost(_) => MemStore::new(file.bytes, size)?,
            Part::First(blocks) => first_blocks(file.bytes, blocks, size)?,
            Part::New => MemStore::new(Vec::new(self.alloc), size)?,
        };
        Ok(FailStore::at(store, due))
    }

    fn close(&mut self, path: &str, store: FailStore<MemStore>) -> Result<(), StoreFault> {
        let Ok(bytes) = store.store().bytes().to_vec(self.alloc) else {
            return Err(StoreFault::NoMemory);
        };
        match named(path) {
            Some(Four::Data) => self.image = Some(bytes),
            Some(Four::Hash) => self.device = Some(bytes),
            _ => return Err(StoreFault::Device),
        }
        Ok(())
    }

    // No journal is here, so none is opened.
    fn journalled(
        &self,
        _image: FourOpened,
        _device: FourOpened,
        _journal: FourOpened,
        _bytes: Vec<u8>,
    ) -> Result<TearingDisks, StoreFault> {
        Err(StoreFault::Device)
    }

    fn last_failed(&self, _disks: &TearingDisks) -> Option<Device> {
        None
    }

    fn close_journalled(
        &mut self,
        _data_path: &str,
        _hash_path: &str,
        _journal_path: &str,
        _disks: TearingDisks,
    ) -> Result<(), StoreFault> {
        Err(StoreFault::Device)
    }

    fn sync_folder(&self, _path: &str) -> io::Result<()> {
        Ok(())
    }

    fn remove(&mut self, _path: &str) {}

    fn unmake(&mut self, path: &str) {
        match named(path) {
            Some(Four::Data) => self.image = None,
            Some(Four::Hash) => self.device = None,
            _ => {}
        }
    }
}
