//! A volume, recovered.
ghost use Rattle.std.specs.Prelude.{◌≡◌, ◌≢◌, true, IfOk, IfErr};
ghost use Rattle.cli_faults.specs.Commands.{lock_of};
ghost use Rattle.cli_faults.specs.declared.failure.Word.TheVariants as word;
ghost use Rattle.cli_faults.specs.Errors.{IsS1For};
ghost use Rattle.cli_faults.specs.Blames.{BlamesAtMost};
ghost use Rattle.os_journal.specs.Blamed.{BlamesVolume, IsOneFile};
ghost use Rattle.os_journal.specs.Journals.{AreOpened, IsMade, IsMadeWhole, IsOneOf};

use crate::places::{journal_path, volume_names};
use crate::recovering::recover_at;
use cli_faults::{Command, Failure, Word};
use os_files::{System, check_apart};
use verity_store::Which;

/// Opens the two files of a volume, tells them apart and takes their locks, makes the changes that stand behind an open commit flag of its
/// journal, closes all and removes the journal. It tells whether there were any changes to make.
///
/// The journal is the one that is named, or the one beside HASH. `--journal` isn't understood where there can be none, of a device and
/// where `none` is named. Errors else as [`recover_at`]'s; S1 and S3 of either file, S5 where another's lock shuts this one out, and
/// HASH isn't understood where it leads to DATA.
pub fn recover_volume<S: System>(
    system: &mut S,
    data_path: &str,
    hash_path: &str,
    named: Option<&str>,
) -> Result<bool, Failure>
    ensures recovered { IfOk result (IsMadeWhole S.System S.Journalled.Disks system.old system.new named.entry
        data_path.now hash_path.now) }
    ensures blames { IfErr result (BlamesVolume S.System system.old named.entry data_path.now hash_path.now) }
    ensures system { IfErr result (IsS1For (S.refuses system.old ≡ true)) }
{
    let (image, device) = open_both(system, data_path, hash_path)?;
    let on_data = system.identity_of(&image);
    let on_hash = system.identity_of(&device);
    let Some(path) = journal_path(system, named, on_hash, hash_path)? else {
        return Err(Failure::Word(Word::Journal));
    };
    let names = volume_names(system, on_data, data_path, on_hash, hash_path)?;
    make_whole(system, data_path, hash_path, &path, image, device, &names)
}

/// Opens both files to be written and takes their locks. That there is no DATA is told only once HASH is locked. HASH isn't understood
/// where it leads to the file that DATA leads to.
fn open_both<S: System>(
    system: &mut S,
    data_path: &str,
    hash_path: &str,
) -> Result<(S::File, S::File), Failure>
    ensures opened { IfOk result (λ both. AreOpened S.System system.old data_path.now hash_path.now both.0 both.1 system.new) }
    ensures same { S.refuses system.new ≡ S.refuses system.old }
    ensures one { IfErr result (λ e. e ≡ Failure.Word word.Hash → IsOneFile S.System system.old data_path.now hash_path.now) }
    ensures refused { IfErr result (BlamesAtMost word.Hash) }
    ensures system { IfErr result (IsS1For (S.refuses system.old ≡ true)) }
{
    let lock = Command::Recover.lock();
    let (device, _) = system.open_to_write(hash_path, false)?;
    match system.open_to_write(data_path, false) {
        Ok((image, _)) => {
            check_apart(system.identity_of(&image), system.identity_of(&device))?;
            system.lock(&image, lock, Which::Data)?;
            system.lock(&device, lock, Which::Hash)?;
            Ok((image, device))
        }
        Err(fault) => {
            system.lock(&device, lock, Which::Hash)?;
            Err(fault.into())
        }
    }
}

/// Makes the changes behind the commit flag of the journal at a path, if it is there and its flag open, closes the three files and removes
/// the journal. It tells whether the flag was open.
fn make_whole<S: System>(
    system: &mut S,
    data_path: &str,
    hash_path: &str,
    path: &str,
    image: S::File,
    device: S::File,
    names: &str,
) -> Result<bool, Failure>
    ensures made { IfOk result (IsMade S.System S.Journalled.Disks system.old system.new data_path.now hash_path.now path.now
        image device names.now) }
    ensures word { IfErr result (λ e. e ≡ Failure.Word word.Journal
        → IsOneOf S.System system.old path.now (S.identity image) (S.identity device)) }
    ensures refused { IfErr result (BlamesAtMost word.Journal) }
    ensures system { IfErr result (IsS1For (S.refuses system.old ≡ true)) }
{
    let Some(found) = recover_at(system, path, image, device, names)? else {
        return Ok(false);
    };
    system.close_journalled(data_path, hash_path, path, found.keeper.into_disks())?;
    system.remove(path);
    Ok(found.is_recovered)
}
