//! Of which volume a journal is.
ghost use Rattle.std.specs.Prelude.{◌≡◌, true, is_some, IfSome, IfOk, IfErr, OnOk};
ghost use Rattle.cli_faults.specs.Errors.{IsS1For};
ghost use Rattle.cli_faults.specs.Blames.{BlamesNone};
ghost use Rattle.verity_journal.specs.Journal.{plan_of};
ghost use Rattle.os_journal.specs.Names.{IsOfVolume, IsVolumeAt};

use cli_faults::{Failure, Fault};
use os_files::System;
use uuid::Uuid;
use verity_edit::EditFault;
use verity_journal::parse_journal;
use verity_store::Which;
use verity_superblock::{SuperFault, Superblock};

/// The bytes of a superblock.
const SUPERBLOCK_SIZE: u64 = 512;

/// Whether a plan stands in a journal behind an open commit flag. S7 where it is of other files or another volume than these, and where the
/// bytes are no journal's.
pub(crate) fn has_plan<S: System>(
    system: &S,
    device: &S::File,
    bytes: &[u8],
    names: &str,
) -> Result<bool, Failure>
    ensures open { IfOk result (λ is_open. is_open ≡ is_some (plan_of bytes.now)) }
    ensures named { OnOk result (IfSome (plan_of bytes.now) (λ plan. IsOfVolume S.System system.now device.now names.now plan.names)) }
    ensures refused { IfErr result BlamesNone }
    ensures system { IfErr result (IsS1For (S.refuses system.now ≡ true)) }
{
    match parse_journal(system.alloc(), bytes)? {
        Some(plan) => {
            check_names(system, device, plan.names(), names)?;
            Ok(true)
        }
        None => Ok(false),
    }
}

/// That a journal's names are those of these files and of the volume that stands in HASH. S7; E6 where HASH can't be read at the offset
/// that they name.
fn check_names<S: System>(
    system: &S,
    device: &S::File,
    names: &[u8],
    files: &str,
) -> Result<(), Failure>
    ensures own { OnOk result (IsOfVolume S.System system.now device.now files.now names.now) }
    ensures refused { IfErr result BlamesNone }
    ensures system { IfErr result (IsS1For (S.refuses system.now ≡ true)) }
{
    let Some((uuid, rest)) = names.split_first_chunk::<16>() else {
        return Err(Fault::Journal.into());
    };
    let Some((offset, rest)) = rest.split_first_chunk::<8>() else {
        return Err(Fault::Journal.into());
    };
    if rest != files.as_bytes() {
        return Err(Fault::Journal.into());
    }
    match uuid_at(system, device, u64::from_le_bytes(*offset))? {
        Some(other) if other.as_bytes() != uuid => Err(Fault::Journal.into()),
        _ => Ok(()),
    }
}

/// The UUID of the superblock that stands at a byte offset of HASH; none where none of the profile does. E6 where HASH can't be read there.
fn uuid_at<S: System>(system: &S, device: &S::File, offset: u64) -> Result<Option<Uuid>, Failure>
    ensures found { IfOk result (IsVolumeAt S.System system.now device.now offset) }
    ensures refused { IfErr result BlamesNone }
    ensures system { IfErr result (IsS1For (S.refuses system.now ≡ true)) }
{
    let len = system.len_of(device);
    if SUPERBLOCK_SIZE <= len && offset <= len - SUPERBLOCK_SIZE {
        read_uuid(system, device, offset)
    } else {
        Ok(None)
    }
}

/// The same, where HASH has 512 bytes there.
fn read_uuid<S: System>(system: &S, device: &S::File, offset: u64) -> Result<Option<Uuid>, Failure>
    ensures found { IfOk result (IsVolumeAt S.System system.now device.now offset) }
    ensures refused { IfErr result BlamesNone }
    ensures system { IfErr result (IsS1For (S.refuses system.now ≡ true)) }
{
    let mut block = [0; SUPERBLOCK_SIZE as usize];
    if system.read_at(device, offset, &mut block).is_err() {
        return Err(Fault::Edit(EditFault::Store(Which::Hash)).into());
    }
    match Superblock::decode(system.alloc(), &block) {
        Ok(superblock) => Ok(Some(superblock.uuid())),
        Err(SuperFault::NoMemory) => Err(Failure::NoMemory),
        Err(_) => Ok(None),
    }
}
