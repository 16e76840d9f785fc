//! What is made of a volume's files by what its journal says.
ghost use Rattle.std.specs.Prelude.{◌≡◌, None, length, IfSome, IfOk, IfErr, true};
ghost use Rattle.cli_faults.specs.declared.failure.Word.TheVariants as word;
ghost use Rattle.cli_faults.specs.Errors.{IsS1For};
ghost use Rattle.cli_faults.specs.Blames.{BlamesAtMost};
ghost use Rattle.os_journal.specs.Blamed.{IsOfDisks};
ghost use Rattle.os_journal.specs.Journals.{IsOneOf, Recovers, Starts};

use crate::faults::fault_of_disks;
use crate::names::has_plan;
use crate::reading::{check_first_bytes, first_bytes, open_journal};
use cli_faults::{Failure, Fault, Word};
use os_files::{System, VolumeFile};
use std::fs::File;
use verity_disks::{Disks, FileDisks};
use verity_journal::Keeper;

/// Three files of the real system, kept between commits.
pub type FileKeeper = Keeper<FileDisks<VolumeFile<File>>>;

/// What was found in the files of a volume.
#[derive(Drop)]
pub struct Found<K: Disks> {
    /// The files, of which the journal's commit flag is closed by now.
    pub keeper: Keeper<K>,
    /// Whether the flag was open, and the commit behind it was made again.
    pub is_recovered: bool,
}

/// Makes the volume that what was opened as DATA and as HASH stands for, where there is a journal at a path. None where there is none.
///
/// S7 where the journal can't be used, is no journal, is of other files or another volume than these, or keeps more of a file than there
/// is: then nothing is changed, the journal neither. E6 with the file that failed. `--journal` isn't understood where it leads to DATA or
/// HASH. It reads the journal, and takes as much memory as that has bytes, twice.
pub fn recover_at<S: System>(
    system: &mut S,
    path: &str,
    image: S::File,
    device: S::File,
    names: &str,
) -> Result<Option<Found<S::Journalled>>, Failure>
    ensures nothing { IfOk result (λ found. found ≡ None → S.lacks system.old path.now) }
    ensures stays { IfOk result (λ found. found ≡ None → system.new ≡ system.old) }
    ensures found { IfOk result (λ found. IfSome found (λ found. Recovers S.System S.Journalled.Disks system.old system.new path.now
        image device names.now found.is_recovered found.keeper.disks)) }
    ensures same { S.refuses system.new ≡ S.refuses system.old }
    ensures word { IfErr result (λ e. e ≡ Failure.Word word.Journal
        → IsOneOf S.System system.old path.now (S.identity image) (S.identity device)) }
    ensures refused { IfErr result (BlamesAtMost word.Journal) }
    ensures system { IfErr result (IsS1For (S.refuses system.old ≡ true)) }
{
    let Some(journal) = open_journal(system, path)? else {
        return Ok(None);
    };
    let identity = system.identity_of(&journal);
    if identity == system.identity_of(&image) || identity == system.identity_of(&device) {
        return Err(Failure::Word(Word::Journal));
    }
    check_first_bytes(system, &journal)?;
    let bytes = first_bytes(system, &journal, system.len_of(&journal))?;
    let is_recovered = has_plan(system, &device, &bytes, names)?;
    let keeper = started(system, image, device, journal, bytes)?;
    Ok(Some(Found {
        keeper,
        is_recovered,
    }))
}

/// The devices of what was opened as DATA, as HASH and as a journal, all of whose bytes were read: started.
pub(crate) fn started<S: System>(
    system: &S,
    image: S::File,
    device: S::File,
    journal: S::File,
    bytes: Vec<u8>,
) -> Result<Keeper<S::Journalled>, Fault>
    requires read { S.reads system.now journal 0 bytes.items }
    requires whole { length bytes.items ≡ S.len journal }
    ensures started { IfOk result (λ keeper. Starts S.System S.Journalled.Disks system.now image device journal bytes.items
        keeper.disks) }
    ensures refused { IfErr result (IsOfDisks (S.refuses system.now ≡ true)) }
{
    let disks = system.journalled(image, device, journal, bytes)?;
    let mut keeper = Keeper::new(disks);
    match keeper.start(system.alloc()) {
        Ok(()) => Ok(keeper),
        Err(fault) => Err(fault_of_disks(system, &keeper, fault)),
    }
}
