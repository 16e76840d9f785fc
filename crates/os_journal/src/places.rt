//! Where a volume's journal stands, and the names that it has of the volume.
ghost use Rattle.std.specs.Prelude.{◌≡◌, ◌↔◌, None, IfSome, IfOk, IfErr, string_bytes};
ghost use Rattle.os_journal.specs.Names.{volume_names, AreNames, IsJournalPath, IsName, IsWithoutJournal};

use cli_faults::Failure;
use os_files::{Identity, System, path_beside};
use std::alloc::{AllocError, Global};
use std::path::Path;
use uuid::Uuid;

/// The argument that asks for no journal.
const NONE: &str = "none";

/// The path of a volume's journal: the one that was named; else, where HASH is a regular file, the one beside it. None where
/// none is asked for, and of a device.
pub fn journal_path<S: System>(
    system: &S,
    named: Option<&str>,
    hash: Identity,
    hash_path: &str,
) -> Result<Option<String>, Failure>
    ensures none { IfOk result (λ path. (path ≡ None) ↔ IsWithoutJournal named.entry hash) }
    ensures path { IfOk result (λ path. IfSome path (λ path.
        IsJournalPath S.System system.now named.entry hash_path.now (string_bytes path))) }
    ensures refused { IfErr result (λ e. e ≡ Failure.NoMemory) }
{
    match (named, hash) {
        (Some(NONE), _) => Ok(None),
        (Some(path), _) => Ok(Some(String::from_str(system.alloc(), path)?)),
        (None, Identity::File(_, _)) => Ok(Some(path_beside(system, hash_path)?)),
        (None, Identity::Device(_)) => Ok(None),
    }
}

/// The names of a volume's files, as its journal has them: DATA's, a zero byte, and HASH's. Of a file it is the last part of its
/// path, of a link that of the file that it leads to; of a device nothing, since it may be found at another path after a crash.
pub fn volume_names<S: System>(
    system: &S,
    image: Identity,
    data_path: &str,
    device: Identity,
    hash_path: &str,
) -> Result<String, Failure>
    ensures names { IfOk result (λ names. AreNames S.System system.now image data_path.now device hash_path.now (string_bytes names)) }
    ensures refused { IfErr result (λ e. e ≡ Failure.NoMemory) }
{
    let mut names = name_of(system, image, data_path)?;
    names.push('\0')?;
    names.push_str(&name_of(system, device, hash_path)?)?;
    Ok(names)
}

/// The names that a journal has of a volume: its UUID, the byte offset of its superblock in HASH, and the names of its files.
pub fn names_of_volume(
    alloc: Global,
    uuid: Uuid,
    offset: u64,
    files: &str,
) -> Result<Vec<u8>, AllocError>
    ensures { IfOk result (λ names. names.items ≡ volume_names uuid offset files.now) }
{
    let mut names = Vec::new(alloc);
    names.extend_from_slice(uuid.as_bytes())?;
    names.extend_from_slice(&offset.to_le_bytes())?;
    names.extend_from_slice(files.as_bytes())?;
    Ok(names)
}

/// The name of a file in its folder; of a device nothing.
fn name_of<S: System>(system: &S, identity: Identity, path: &str) -> Result<String, Failure>
    ensures name { IfOk result (λ name. IsName S.System system.now identity path.now (string_bytes name)) }
    ensures refused { IfErr result (λ e. e ≡ Failure.NoMemory) }
{
    match identity {
        Identity::File(_, _) => {
            let path = system.real_path(path)?;
            match Path::new(&path).file_name() {
                Some(name) => Ok(String::from_str(system.alloc(), name)?),
                None => Ok(path),
            }
        }
        Identity::Device(_) => Ok(String::new(system.alloc())),
    }
}
