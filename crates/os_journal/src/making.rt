//! A journal that is made.
ghost use Rattle.std.specs.Prelude.{◌≡◌, true, IfOk, IfErr};
ghost use Rattle.os_journal.specs.Blamed.{IsNoJournalFault, IsOfDisks};
ghost use Rattle.os_journal.specs.Journals.{IsNew, StartsAnew};

use crate::reading::{first_bytes, gate_in};
use crate::recovering::started;
use cli_faults::{Failure, Fault};
use os_files::{Identity, System, journal_fault};
use verity_journal::{Gate, Keeper};
use verity_store::StoreFault;

/// Makes a journal at a path where there is nothing, and its entry in its folder lasting. S7, where something stands there by now too,
/// which is neither written nor removed; or E6 with the file that failed. What was made is removed again then.
pub fn make_journal<S: System>(
    system: &mut S,
    path: &str,
    image: S::File,
    device: S::File,
) -> Result<Keeper<S::Journalled>, Fault>
    ensures made { IfOk result (λ keeper. IsNew S.System S.Journalled.Disks system.old system.new path.now image device keeper.disks) }
    ensures refused { IfErr result (IsOfDisks (S.refuses system.old ≡ true)) }
{
    let journal = open_new(system, path)?;
    match started_anew(system, path, image, device, journal) {
        Ok(keeper) => Ok(keeper),
        Err(fault) => {
            unmake(system, path);
            Err(fault)
        }
    }
}

/// Opens the file of a journal that this call makes.
fn open_new<S: System>(system: &mut S, path: &str) -> Result<S::File, Fault>
    ensures opened { IfOk result (λ journal. S.opens_to_write system.old path.now journal system.new) }
    ensures same { S.refuses system.new ≡ S.refuses system.old }
    ensures refused { IfErr result IsNoJournalFault }
{
    match system.open_to_write(path, true) {
        Ok((journal, true)) => match system.identity_of(&journal) {
            Identity::File(_, _) => Ok(journal),
            Identity::Device(_) => Err(Fault::Journal),
        },
        Ok((_, false)) => Err(Fault::Journal),
        Err(fault) => Err(journal_fault(fault)),
    }
}

/// The devices of what was opened as DATA, as HASH and as a journal that has no byte: started.
fn started_anew<S: System>(
    system: &S,
    path: &str,
    image: S::File,
    device: S::File,
    journal: S::File,
) -> Result<Keeper<S::Journalled>, Fault>
    ensures started { IfOk result (λ keeper. StartsAnew S.System S.Journalled.Disks system.now image device journal keeper.disks) }
    ensures refused { IfErr result (IsOfDisks (S.refuses system.now ≡ true)) }
{
    if system.sync_folder(path).is_err() || system.len_of(&journal) != 0 {
        return Err(Fault::Journal);
    }
    match first_bytes(system, &journal, 0) {
        Ok(bytes) => started(system, image, device, journal, bytes),
        Err(Failure::NoMemory) => Err(Fault::Store(StoreFault::NoMemory)),
        Err(_) => Err(Fault::Journal),
    }
}

/// Removes a journal that was made, while no more stands there than its head and a closed commit flag.
fn unmake<S: System>(system: &mut S, path: &str) {
    let Ok(journal) = system.open(path) else {
        return;
    };
    if let Identity::Device(_) = system.identity_of(&journal) {
        return;
    }
    if let Ok(Gate::Begun | Gate::Closed) = gate_in(system, &journal) {
        system.remove(path);
    }
}
