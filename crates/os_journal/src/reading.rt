//! The file of a journal, opened and read.
ghost use Rattle.std.specs.Prelude.{◌≡◌, ◌≤◌, true, length, IfOk, IfErr};
ghost use Rattle.cli_faults.specs.Errors.{IsS1For};
ghost use Rattle.cli_faults.specs.Blames.{BlamesNone, IsUnread};
ghost use Rattle.os_journal.specs.Journals.{IsFoundToWrite};
ghost use Rattle.os_journal.specs.Blamed.{IsNoJournalFault};

use cli_faults::{Failure, Fault};
use os_files::{Identity, System, journal_fault};
use verity_journal::{GATE_END, Gate, gate_of};

/// Opens the journal at a path to be read and written; none where there is nothing. S7 where it is no regular file, or can't be opened.
pub(crate) fn open_journal<S: System>(system: &mut S, path: &str) -> Result<Option<S::File>, Fault>
    ensures found { IfOk result (IsFoundToWrite S.System system.old path.now system.new) }
    ensures same { S.refuses system.new ≡ S.refuses system.old }
    ensures refused { IfErr result IsNoJournalFault }
{
    if !system.is_there(path)? {
        return Ok(None);
    }
    match system.open_to_write(path, false) {
        Ok((journal, _)) => match system.identity_of(&journal) {
            Identity::File(_, _) => Ok(Some(journal)),
            Identity::Device(_) => Err(Fault::Journal),
        },
        Err(fault) => Err(journal_fault(fault)),
    }
}

/// That what was opened may be a journal, by its first 13 bytes, before all of it is read. S7.
pub(crate) fn check_first_bytes<S: System>(system: &S, journal: &S::File) -> Result<(), Failure>
    ensures refused { IfErr result BlamesNone }
    ensures system { IfErr result (IsS1For (S.refuses system.now ≡ true)) }
{
    match gate_in(system, journal)? {
        Gate::Foreign => Err(Fault::Journal.into()),
        _ => Ok(()),
    }
}

/// What the first 13 bytes of what was opened say of it, or all where it has fewer. S7 where the system refuses to read them.
pub(crate) fn gate_in<S: System>(system: &S, journal: &S::File) -> Result<Gate, Failure>
    ensures refused { IfErr result (IsUnread (S.refuses system.now ≡ true)) }
{
    let count = system.len_of(journal).min(GATE_END);
    let first = first_bytes(system, journal, count)?;
    Ok(gate_of(&first))
}

/// So many of the first bytes of what was opened. S7 where the system refuses to read them.
pub(crate) fn first_bytes<S: System>(
    system: &S,
    journal: &S::File,
    count: u64,
) -> Result<Vec<u8>, Failure>
    ensures read { IfOk result (λ bytes. S.reads system.now journal.now 0 bytes.items) }
    ensures count { IfOk result (λ bytes. length bytes.items ≡ count) }
    ensures refused { IfErr result (IsUnread (S.refuses system.now ≡ true)) }
{
    let mut bytes = vec![in system.alloc(); 0; count as usize]?;
    match system.read_at(journal, 0, &mut bytes) {
        Ok(()) => Ok(bytes),
        Err(_) => Err(Fault::Journal.into()),
    }
}
