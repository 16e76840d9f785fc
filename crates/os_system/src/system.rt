//! The real system, as commands read it.

ghost use Rattle.std.specs.Prelude.{◌≡◌, true, IfOk, IfErr};
ghost use Rattle.remote_url.specs.Grammar.{HasScheme, Names};
ghost use Rattle.cli_faults.specs.Errors.{IsOfSystem};
ghost use Rattle.os_system.specs.Located.{IsReached};

use crate::located::{Located, Remote};
use crate::servers::Servers;
use crate::stores::{Lying, store_here, store_there};
use cli_faults::{Failure, Fault, Lock};
use os_files::{Identity, Part, System, VolumeFile};
use os_host::{Host, Opened, Paths};
use os_urls::{Notes, is_url};
use remote_origin::OriginFault;
use remote_url::{Source, source_of};
use std::alloc::Global;
use std::fs::File;
use std::io::{self, ErrorKind};
use verity_disks::{Device, FileDisks};
use verity_store::{FileStore, RawFile, StoreFault, Which};

/// What was opened: a file or a block device here, or a file at a server.
pub type OsFile<F> = Located<Opened, Remote<F>>;

/// A store over either.
pub type OsStore<F> = FileStore<Lying<F>>;

/// The number of no block device: what lies at a server is told apart from each file and each device here.
const SERVERS: u64 = u64::MAX;

/// The real system, whose files are asked for by their paths, and those at servers by their URLs. What is at a server is only read.
#[derive(Drop)]
pub struct OsSystem<'a, P, V> {
    paths: &'a P,
    servers: &'a V,
    notes: &'a Notes,
}

impl<'a, P: Paths, V: Servers> OsSystem<'a, P, V> {
    /// The system of these paths and servers, which notes what it sees at servers.
    pub fn new(paths: &'a P, servers: &'a V, notes: &'a Notes) -> OsSystem<'a, P, V>
        ensures paths { result.paths.now ≡ paths.now }
        ensures servers { result.servers.now ≡ servers.now }
    {
        OsSystem {
            paths,
            servers,
            notes,
        }
    }

    /// Opens what lies at a server.
    fn reach(&self, url: &str, source: Source<'_>) -> Result<Remote<V::File>, StoreFault>
        requires named { Names url.now source }
        requires scheme { HasScheme url.now }
        ensures reached { IfOk result (IsReached (V.reaches self.now.servers.now) url.now) }
        ensures refused { IfErr result (IsOfSystem (true ≡ true)) }
    {
        match self.servers.reach(source) {
            Ok((file, len)) => {
                self.notes.note_len(url, len);
                Ok(Remote { file, len })
            }
            Err(fault) => {
                self.notes.note_refusal(url, &fault);
                Err(store_fault(&fault))
            }
        }
    }
}

/// S3 for want of memory here, S1 for all else.
fn store_fault(fault: &OriginFault) -> StoreFault
    ensures { IsOfSystem (true ≡ true) result }
{
    if fault.is_no_memory() {
        StoreFault::NoMemory
    } else {
        StoreFault::Device
    }
}

// A store is over what was opened at that path or URL, and nothing at a server is opened to be written.
impl<'a, P: Paths + AllocGlobal, V: Servers> System for OsSystem<'a, P, V> {
    ghost use Rattle.std.specs.Prelude.{◌≡◌, ◌⊎◌, true, false, ⊤, length};
    ghost use Rattle.remote_url.specs.Grammar.{HasScheme};
    ghost use Rattle.verity_store.specs.RawFile.{Reads};
    ghost use Rattle.os_host.specs.Lengths.{IsLenOf};
    ghost use Rattle.os_system.specs.Located.{identity_of, len_of, ByPlace, OpensAt, LiesOver};

    type File = OsFile<V::File>;

    type Store = OsStore<V::File>;

    type Journalled = FileDisks<VolumeFile<File>>;

    ghost refuses = { λ _. true };

    ghost identity = { λ file. identity_of file };

    ghost len = { λ file. len_of file };

    ghost opens = { λ system path file. OpensAt (λ path opened. P.opens system.paths.now path opened
        × P.permits system.paths.now opened false) (V.reaches system.servers.now) path file };

    ghost opens_to_write = { λ old path file new. (new.paths.now ≡ old.paths.now) × OpensAt (λ path opened.
        P.opens old.paths.now path opened × P.permits old.paths.now opened true) (λ _ _ _. ⊥) path file };

    ghost locks = { λ system file lock. ByPlace (λ opened. P.locks system.paths.now opened lock) (λ _. ⊤) file };

    ghost shuts_out = { λ system file lock. ByPlace (λ opened. P.shuts_out system.paths.now opened lock) (λ _. ⊥) file };

    ghost leads = { λ system path led. (HasScheme path × (led ≡ path)) ⊎ ((¬ HasScheme path) × P.leads system.paths.now path led) };

    ghost lacks = { λ system path. (¬ HasScheme path) × P.lacks system.paths.now path };

    ghost has_device = { λ system path. HasScheme path ⊎ P.has_device system.paths.now path };

    ghost begins = { λ system file bytes. ByPlace (λ opened. P.begins system.paths.now opened bytes)
        (λ remote. Reads (V.File.bytes remote.file) 0 bytes) file };

    ghost reads = { λ system file at bytes. ByPlace (λ opened. P.reads system.paths.now opened.file at bytes) (λ _. ⊥) file };

    ghost has_len = { λ system file len. ByPlace
        (λ opened. IsLenOf P.Paths system.paths.now opened.identity opened.file opened.len len) (λ remote. len ≡ remote.len) file };

    ghost lies = { λ _ file part store. LiesOver file part store.size store.blocks store.file.file };

    ghost closes = { λ old _ _ new. new.paths.now ≡ old.paths.now };

    ghost joins = { λ _ _ _ _ _. ⊤ };

    ghost parts = { λ old _ _ _ _ new. new.paths.now ≡ old.paths.now };

    ghost failed_last = { λ disks. disks.last_failed };

    ghost removes = { λ old _ new. new.paths.now ≡ old.paths.now };

    fn alloc(&self) -> Global {
        self.paths.alloc()
    }

    fn identity_of(&self, file: &OsFile<V::File>) -> Identity {
        match file {
            Located::Here(opened) => opened.identity,
            Located::There(_) => Identity::Device(SERVERS),
        }
    }

    fn len_of(&self, file: &OsFile<V::File>) -> u64 {
        match file {
            Located::Here(opened) => opened.len,
            Located::There(remote) => remote.len,
        }
    }

    fn open(&self, path: &str) -> Result<OsFile<V::File>, StoreFault> {
        if !is_url(path) {
            return Ok(Located::Here(Host::new(self.paths).open(path)?));
        }
        match source_of(path) {
            Ok(source) => Ok(Located::There(self.reach(path, source)?)),
            Err(fault) => {
                self.notes.note_refusal(path, &fault);
                Err(StoreFault::Device)
            }
        }
    }

    /// Nothing at a server is opened to be written.
    fn open_to_write(
        &mut self,
        path: &str,
        makes: bool,
    ) -> Result<(OsFile<V::File>, bool), StoreFault> {
        if is_url(path) {
            return Err(StoreFault::Device);
        }
        let (opened, is_made) = Host::new(self.paths).open_to_write(path, makes)?;
        Ok((Located::Here(opened), is_made))
    }

    /// At a server no lock is taken.
    fn lock(&self, file: &OsFile<V::File>, lock: Lock, which: Which) -> Result<(), Fault> {
        match file {
            Located::Here(opened) => Host::new(self.paths).lock(opened, lock, which),
            Located::There(_) => Ok(()),
        }
    }

    fn real_path(&self, path: &str) -> Result<String, Failure> {
        if is_url(path) {
            Ok(String::from_str(self.alloc(), path)?)
        } else {
            Host::new(self.paths).real_path(path)
        }
    }

    fn is_there(&self, path: &str) -> Result<bool, StoreFault> {
        if is_url(path) {
            Ok(true)
        } else {
            Host::new(self.paths).is_there(path)
        }
    }

    fn is_device(&self, path: &str) -> bool {
        is_url(path) || Host::new(self.paths).is_device(path)
    }

    fn read_first(&self, file: &mut OsFile<V::File>, out: &mut [u8]) -> io::Result<()> {
        match file {
            Located::Here(opened) => Host::new(self.paths).read_first(opened, out),
            Located::There(remote) => remote.file.read_exact_at(0, out),
        }
    }

    /// What lies at a server isn't read so.
    fn read_at(&self, file: &OsFile<V::File>, at: u64, out: &mut [u8]) -> io::Result<()> {
        match file {
            Located::Here(opened) => Host::new(self.paths).read_at(opened, at, out),
            Located::There(_) => Err(io::Error::from(ErrorKind::Unsupported)),
        }
    }

    fn store(
        &self,
        file: OsFile<V::File>,
        part: Part,
        size: usize,
    ) -> Result<OsStore<V::File>, StoreFault> {
        match file {
            Located::Here(opened) => store_here(self.paths, self.alloc(), opened, part, size),
            Located::There(remote) => store_there(self.alloc(), remote, part, size),
        }
    }

    fn close(&mut self, _path: &str, _store: OsStore<V::File>) -> Result<(), StoreFault> {
        Ok(())
    }

    /// No journal lies at a server.
    fn journalled(
        &self,
        image: OsFile<V::File>,
        device: OsFile<V::File>,
        journal: OsFile<V::File>,
        bytes: Vec<u8>,
    ) -> Result<FileDisks<VolumeFile<File>>, StoreFault> {
        match (image, device, journal) {
            (Located::Here(image), Located::Here(device), Located::Here(journal)) => {
                Host::new(self.paths).journalled(image, device, journal, bytes)
            }
            _ => Err(StoreFault::Device),
        }
    }

    fn last_failed(&self, disks: &FileDisks<VolumeFile<File>>) -> Option<Device> {
        disks.last_failed()
    }

    fn close_journalled(
        &mut self,
        _data_path: &str,
        _hash_path: &str,
        _journal_path: &str,
        _disks: FileDisks<VolumeFile<File>>,
    ) -> Result<(), StoreFault> {
        Ok(())
    }

    fn sync_folder(&self, path: &str) -> io::Result<()> {
        self.paths.sync_folder(path)
    }

    fn remove(&mut self, path: &str) {
        self.paths.remove(path);
    }

    fn unmake(&mut self, path: &str) {
        Host::new(self.paths).unmake(path);
    }
}
