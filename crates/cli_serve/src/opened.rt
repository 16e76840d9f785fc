//! The volume that a table line names, opened to be read.

ghost use Rattle.std.specs.Prelude.{◌≡◌, ◌-◌, ◌^◌, ◌≤◌, ◌⊎◌, [], true, Some, IsOk, IfOk, OnOk, IfErr};
ghost use Rattle.verity_superblock.specs.Line.{Line, line_refusal};
ghost use Rattle.verity_check.specs.Verifier.{IsCacheSize};
ghost use Rattle.cli_faults.specs.Errors.{IsS1For};
ghost use Rattle.os_commit_flag.specs.Shut.{IsShutBeside};
ghost use Rattle.cli_serve.specs.Opening.{LiesAt, IsJustMade, OpensNone, OpensNoHub, offered};

use cli_faults::{Command, Failure, Fault};
use nbd_session::ExportName;
use os_commit_flag::check_gate;
use os_files::{Part, System, open_to_read};
use std::alloc::Global;
use verity_check::Verifier;
use verity_hub::{Hub, Notices};
use verity_store::Which;
use verity_superblock::{Table, TableFault};

/// Opens the two files that a table line names for a command, the data device first. S1 to S4 of either; S5 where another's lock shuts the
/// command's out; S6 where a commit is under way in the journal beside the hash device, S7 where that can't be used.
pub fn open_stores<S: System>(
    system: &S,
    table: &Table,
    command: Command,
) -> Result<(S::Store, S::Store), Failure>
    ensures data { IfOk result (λ stores. LiesAt S.System system.now table.now.dev table.now.data_blocks stores.0) }
    ensures hash { IfOk result (λ stores. LiesAt S.System system.now table.now.hash_dev (2 ^ 64 - 1) stores.1) }
    ensures shut { OnOk result (IsShutBeside S.System system.now table.now.hash_dev) }
    ensures data_size { IfOk result (λ stores. S.Store.size stores.0 ≡ table.now.data_block_size) }
    ensures hash_size { IfOk result (λ stores. S.Store.size stores.1 ≡ table.now.hash_block_size) }
    ensures refused { IfErr result (OpensNone S.System system.now table.now command) }
    ensures system { IfErr result (IsS1For (S.refuses system.now ≡ true)) }
{
    let data = open_to_read(system, table.dev(), command, Which::Data)?;
    check_gate(system, table.hash_dev())?;
    let part = Part::AtMost(table.data_blocks());
    let data_store = system.store(data, part, table.data_block_size())?;
    let hash = open_to_read(system, table.hash_dev(), command, Which::Hash)?;
    let hash_store = system.store(hash, Part::AtMost(u64::MAX), table.hash_block_size())?;
    Ok((data_store, hash_store))
}

/// A hub of no session over the volume that a table line names, under an export's name, and who is notified of the READs that it refuses.
/// The line is read first, then the name. Its verifier may keep so many checked hash blocks and so many checked data blocks, and counts
/// what the stores give from here on.
pub fn open_hub<S: System, N: Notices + Drop>(
    system: &S,
    line: &str,
    name: &str,
    cache: usize,
    data_cache: usize,
    command: Command,
    notices: N,
) -> Result<Hub<S::Store, S::Store, Global, N>, Failure>
    ensures line { IfOk result (λ hub. Line line.now hub.1.table) }
    ensures made { IfOk result (λ hub. IsJustMade S.Store.BlockStore S.Store.BlockStore hub.1) }
    ensures data { IfOk result (λ hub. LiesAt S.System system.now hub.1.table.dev hub.1.table.data_blocks hub.1.data_store) }
    ensures hash { IfOk result (λ hub. LiesAt S.System system.now hub.1.table.hash_dev (2 ^ 64 - 1) hub.1.hash_store) }
    ensures shut { IfOk result (λ hub. IsShutBeside S.System system.now hub.1.table.hash_dev) }
    ensures offer { IfOk result (λ hub. hub.0.offer ≡ offered hub.1.table name.now) }
    ensures none { IfOk result (λ hub. (hub.0.next ≡ 0) × (hub.0.sessions ≡ [])) }
    ensures cache { IsOk result → IsCacheSize cache × (data_cache ≤ 65536) }
    ensures refused { IfErr result (OpensNoHub S.System system.now line.now name.now cache data_cache command) }
    ensures system { IfErr result (IsS1For (S.refuses system.now ≡ true)) }
{
    let table = table_in(system.alloc(), line)?;
    let name = ExportName::new(name.as_bytes())?;
    let (data_store, hash_store) = open_stores(system, &table, command)?;
    let alloc = system.alloc();
    let verifier = Verifier::with_data_cache(
        alloc, table, data_store, hash_store, cache, data_cache,
    )?;
    Ok(Hub::noticed(alloc, verifier, name, notices))
}

/// The table line that a text is.
fn table_in(alloc: Global, line: &str) -> Result<Table, Failure>
    ensures line { IfOk result (λ table. Line line.now table) }
    ensures refused { IfErr result (λ e. (e ≡ Failure.NoMemory)
        ⊎ ((f : TableFault) × (e ≡ Failure.Refused (Fault.Table f)) × (line_refusal line.now ≡ Some f))) }
{
    match Table::parse(alloc, line) {
        Ok(table) => Ok(table),
        Err(TableFault::NoMemory) => Err(Failure::NoMemory),
        Err(fault) => Err(Failure::Refused(Fault::Table(fault))),
    }
}
