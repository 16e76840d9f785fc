//! Whether the gate of a journal is open, over any system.
ghost use Rattle.std.specs.Prelude.{◌≡◌, ◌⊎◌, true, length, IfOk, IfErr, OnOk};
ghost use Rattle.os_files.specs.Identities.{IsDevice};
ghost use Rattle.os_commit_flag.specs.Refusals.{IsUnopened, IsUnread, IsUnshut};
ghost use Rattle.os_commit_flag.specs.Shut.{HasGateNow, HasNoGateNow, HasOpenGateNow, HasShutGateNow, IsClosedOffNow, IsFoundAt};
ghost use Rattle.os_commit_flag.specs.Shut.{IsOpenBeside, IsOpenNow, IsOtherShutBeside, IsShutBeside, IsShutNow, IsUnusableBeside};
ghost use Rattle.os_commit_flag.specs.Shut.{IsUnusableNow};

use cli_faults::{Failure, Fault};
use os_files::{Identity, System, journal_fault, path_beside};
use verity_journal::{GATE_END, Gate, gate_of};

/// That no commit of a hash device is under way, as the journal beside it says: S6 where its gate is open, S7 where it is no regular file,
/// is no journal, or the system refuses to open or read it. Of a device, which has none beside it, nothing is known. It reads 13 bytes.
pub fn check_gate<S: System>(system: &S, hash_path: &str) -> Result<(), Failure>
    ensures shut { OnOk result (IsShutBeside S.System system.now hash_path.now) }
    ensures refused { IfErr result (IsUnshut (IsOpenBeside S.System system.now hash_path.now)
        (IsUnusableBeside S.System system.now hash_path.now)) }
{
    if system.is_device(hash_path) {
        return Ok(());
    }
    let beside = path_beside(system, hash_path)?;
    check_gate_at(system, &beside)
}

/// The same, where another journal than the one beside the hash device is named, or none.
pub fn check_other_gate<S: System>(system: &S, hash_path: &str, named: &str) -> Result<(), Failure>
    ensures shut { OnOk result (IsOtherShutBeside S.System system.now hash_path.now named.now) }
    ensures refused { IfErr result (IsUnshut (IsOpenBeside S.System system.now hash_path.now)
        (IsUnusableBeside S.System system.now hash_path.now)) }
{
    if system.is_device(hash_path) {
        return Ok(());
    }
    let path = path_beside(system, hash_path)?;
    let named = system.real_path(named)?;
    if path == named {
        Ok(())
    } else {
        check_gate_at(system, &path)
    }
}

/// That the gate of a journal is closed, or there is none. S6, S7.
fn check_gate_at<S: System>(system: &S, path: &str) -> Result<(), Failure>
    ensures shut { OnOk result (IsShutNow S.System system.now path.now) }
    ensures refused { IfErr result (IsUnshut (IsOpenNow S.System system.now path.now) (IsUnusableNow S.System system.now path.now)) }
{
    let Some(journal) = find_journal(system, path)? else {
        return Ok(());
    };
    check_first_bytes(system, journal)
}

/// Opens the journal at a path to be read; none where there is nothing. S7 where it is no regular file, or can't be opened.
fn find_journal<S: System>(system: &S, path: &str) -> Result<Option<S::File>, Fault>
    ensures found { IfOk result (IsFoundAt S.System system.now path.now) }
    ensures refused { IfErr result (IsUnopened (IsClosedOffNow S.System system.now path.now)) }
{
    if !system.is_there(path)? {
        return Ok(None);
    }
    match system.open(path) {
        Ok(journal) => match system.identity_of(&journal) {
            Identity::File(_, _) => Ok(Some(journal)),
            Identity::Device(_) => Err(Fault::Journal),
        },
        Err(fault) => Err(journal_fault(fault)),
    }
}

/// That what was opened is no more than a beginning of a journal's head, or a journal whose gate is closed. S6, S7.
fn check_first_bytes<S: System>(system: &S, journal: S::File) -> Result<(), Failure>
    ensures shut { OnOk result (HasShutGateNow S.System system.now journal) }
    ensures refused { IfErr result (IsUnshut (HasOpenGateNow S.System system.now journal)
        ((S.refuses system.now ≡ true) ⊎ HasNoGateNow S.System system.now journal)) }
{
    match gate_in(system, journal)? {
        Gate::Begun | Gate::Closed => Ok(()),
        Gate::Open => Err(Fault::UnderWay.into()),
        Gate::Foreign => Err(Fault::Journal.into()),
    }
}

/// What the first 13 bytes of what was opened say of it, or all where it has fewer. S7 where the system refuses to read them.
fn gate_in<S: System>(system: &S, journal: S::File) -> Result<Gate, Failure>
    ensures gate { IfOk result (HasGateNow S.System system.now journal) }
    ensures refused { IfErr result (IsUnread (S.refuses system.now ≡ true)) }
{
    let mut journal = journal;
    let count = system.len_of(&journal).min(GATE_END) as usize;
    let mut first = vec![in system.alloc(); 0; count]?;
    match system.read_first(&mut journal, &mut first) {
        Ok(()) => Ok(gate_of(&first)),
        Err(_) => Err(Fault::Journal.into()),
    }
}
