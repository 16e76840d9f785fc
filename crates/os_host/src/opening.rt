//! Files are opened here, looked at, and nothing is changed in them.
ghost use Rattle.std.specs.Prelude.{◌≡◌, ⊤, true, IfOk, IfErr};
ghost use Rattle.std.specs.IoError.{error_kind};
ghost use Rattle.cli_faults.specs.Commands.{writes};
ghost use Rattle.cli_faults.specs.Errors.{IsOfSystem, is_memory, store_fault_of};
ghost use Rattle.cli_faults.specs.declared.failure.Failure.TheVariants as failure;

use crate::paths::Paths;
use cli_faults::{Command, Failure, is_want_of_memory};
use os_files::{Identity, file_identity};
use std::alloc::Global;
use std::fs::{File, Metadata, OpenOptions};
use std::io::{ErrorKind, Seek, SeekFrom};
use std::rt::Files;
use std::{fs, io};
use verity_store::{StoreFault, Which};

/// A file or a block device that was opened, which it is, and how many bytes it had then.
#[derive(Drop)]
pub struct Opened {
    pub file: File,
    pub identity: Identity,
    pub len: u64,
}

/// Opens one of a volume's files for a command. S1 where it isn't there, or is neither a file nor a block device, which is not
/// waited for; S3 for want of memory.
pub fn open_there<P: Paths>(
    rt: &P,
    path: &str,
    command: Command,
    which: Which,
) -> Result<Opened, StoreFault>
    ensures opened { IfOk result (P.opens rt.now path.now) }
    ensures permitted { IfOk result (λ opened. P.permits rt.now opened (writes command which)) }
    ensures refused { IfErr result (IsOfSystem (P.refuses rt.now ≡ true)) }
{
    rt.open(path, command.is_writing(which))
}

/// What was opened, once more.
pub(crate) fn open_again(opened: &Opened) -> Result<Opened, StoreFault>
    ensures same { IfOk result (λ again. (again.identity ≡ opened.now.identity) × (again.len ≡ opened.now.len)) }
    ensures refused { IfErr result (IsOfSystem ⊤) }
{
    match opened.file.try_clone() {
        Ok(file) => Ok(Opened {
            file,
            identity: opened.identity,
            len: opened.len,
        }),
        Err(error) => Err(fault_of(error)),
    }
}

/// The same, with as many bytes as it has by now.
pub(crate) fn look_again(opened: &Opened) -> Result<Opened, StoreFault>
    ensures { IfErr result (IsOfSystem ⊤) }
{
    looked_at(open_again(opened)?.file)
}

/// Opens a file or a block device that stands at a path.
pub(crate) fn open_at<R: Files<File = File>>(
    rt: &R,
    path: &str,
    is_written: bool,
) -> Result<Opened, StoreFault>
    ensures { IfErr result (IsOfSystem ⊤) }
{
    match fs::metadata(rt, path) {
        Ok(metadata) => open_seen(rt, path, is_written, &metadata),
        Err(error) => Err(fault_of(error)),
    }
}

/// The same, to be written, or makes a file where there is nothing. It tells whether it did.
pub(crate) fn make_or_open<R: Files<File = File>>(
    rt: &R,
    alloc: Global,
    path: &str,
) -> Result<(Opened, bool), StoreFault>
    ensures { IfErr result (IsOfSystem ⊤) }
{
    match fs::metadata(rt, path) {
        Ok(metadata) => match open_seen(rt, path, true, &metadata) {
            Ok(opened) => Ok((opened, false)),
            Err(fault) => Err(fault),
        },
        Err(error) => match error.kind() {
            ErrorKind::NotFound => match make(rt, alloc, path) {
                Ok(opened) => Ok((opened, true)),
                Err(fault) => Err(fault),
            },
            _ => Err(fault_of(error)),
        },
    }
}

/// The path of what a path leads to; the path itself where there is nothing, or the system doesn't say.
pub(crate) fn path_led_to<R: Files>(rt: &R, alloc: Global, path: &str) -> Result<String, Failure>
    ensures { IfErr result (λ e. e ≡ failure.NoMemory) }
{
    match rt.canonicalize(alloc, path) {
        Ok(path) => Ok(String::from_str(alloc, path.as_str())?),
        Err(error) => match error.kind() {
            ErrorKind::OutOfMemory => Err(Failure::NoMemory),
            _ => Ok(String::from_str(alloc, path)?),
        },
    }
}

/// Whether anything is seen at a path.
pub(crate) fn stands_at<R: Files>(rt: &R, path: &str) -> Result<bool, StoreFault>
    ensures { IfErr result (λ e. e ≡ StoreFault.NoMemory) }
{
    match fs::symlink_metadata(rt, path) {
        Ok(_) => Ok(true),
        Err(error) => match error.kind() {
            ErrorKind::OutOfMemory => Err(StoreFault::NoMemory),
            _ => Ok(false),
        },
    }
}

/// Removes a file that this program made, where nothing was written to it yet.
pub(crate) fn unmake_at<R: Files<File = File>>(rt: &R, alloc: Global, path: &str) {
    let Ok(metadata) = fs::metadata(rt, path) else {
        return;
    };
    if metadata.len() == 0 {
        let _ = remove_led_to(rt, alloc, path);
    }
}

/// Removes the file that a path leads to; of a link, the file that it names.
fn remove_led_to<R: Files<File = File>>(rt: &R, alloc: Global, path: &str) -> io::Result<()> {
    if fs::symlink_metadata(rt, path)?.is_symlink() {
        let target = rt.canonicalize(alloc, path)?;
        fs::remove_file(rt, target.as_str())
    } else {
        fs::remove_file(rt, path)
    }
}

fn make<R: Files<File = File>>(rt: &R, alloc: Global, path: &str) -> Result<Opened, StoreFault>
    ensures { IfErr result (IsOfSystem ⊤) }
{
    let made = OpenOptions::new()
        .read(true)
        .write(true)
        .create(true)
        .open(rt, path);
    match made {
        Ok(file) => match looked_at(file) {
            Ok(opened) => Ok(opened),
            Err(fault) => {
                unmake_at(rt, alloc, path);
                Err(fault)
            }
        },
        Err(error) => Err(fault_of(error)),
    }
}

/// Opens what was seen at a path. The path's metadata is looked at first, since to open a pipe is to wait.
fn open_seen<R: Files<File = File>>(
    rt: &R,
    path: &str,
    is_written: bool,
    metadata: &Metadata,
) -> Result<Opened, StoreFault>
    ensures { IfErr result (IsOfSystem ⊤) }
{
    if file_identity(metadata).is_none() {
        return Err(StoreFault::Device);
    }
    let opened = OpenOptions::new()
        .read(true)
        .write(is_written)
        .open(rt, path);
    match opened {
        Ok(file) => looked_at(file),
        Err(error) => Err(fault_of(error)),
    }
}

fn looked_at(file: File) -> Result<Opened, StoreFault>
    ensures file { IfOk result (λ opened. opened.file ≡ file) }
    ensures refused { IfErr result (IsOfSystem ⊤) }
{
    match identity_and_len(&file) {
        Ok(Some((identity, len))) => Ok(Opened {
            file,
            identity,
            len,
        }),
        Ok(None) => Err(StoreFault::Device),
        Err(error) => Err(fault_of(error)),
    }
}

/// Which file or device this is, and how many bytes it has: a device has as many as come before its end.
fn identity_and_len(file: &File) -> io::Result<Option<(Identity, u64)>> {
    let metadata = file.metadata()?;
    match file_identity(&metadata) {
        Some(Identity::File(dev, ino)) => { Ok(Some((Identity::File(dev, ino), metadata.len()))) }
        Some(Identity::Device(rdev)) => {
            let len = (&mut &*file).seek(SeekFrom::End(0))?;
            Ok(Some((Identity::Device(rdev), len)))
        }
        None => Ok(None),
    }
}

/// S3 for want of memory, S1 for all else.
pub fn fault_of(error: io::Error) -> StoreFault
    ensures fault { result ≡ store_fault_of error }
    ensures system { IsOfSystem ⊤ result }
{
    if is_want_of_memory(&error) {
        StoreFault::NoMemory
    } else {
        StoreFault::Device
    }
}
