//! The source: the two devices that the trusted line names.
ghost use Rattle.std.specs.Prelude.{◌≡◌, ◌-◌, ◌^◌, ◌≤◌, length, IfOk};
ghost use Rattle.cli_pull.specs.Opening.{IsSourceAt};

use cli_faults::{Command, Failure};
use os_commit_flag::check_gate;
use os_files::{Identity, Part, System, open_to_read};
use verity_check::CheckFault;
use verity_store::{BlockStore, Which};
use verity_superblock::Table;

/// The stores of a source, and which files they are.
#[derive(Drop)]
pub struct Source<D: BlockStore + Drop> {
    pub data_store: D,
    pub hash_store: D,
    pub data_file: Identity,
    pub hash_file: Identity,
}

/// Opens the two files that a table line names as `verify` does, the data device first. S1, S2 of either; S5 where another's lock shuts
/// a reader out; S6 where a commit was cut short in the journal beside the hash device, S7 where that can't be used; V1 where either ends
/// before the volume does.
pub fn open_source<S: System>(system: &S, to: &Table, end: u64) -> Result<Source<S::Store>, Failure>
    ensures data { IfOk result (λ source. IsSourceAt S.System system.now to.now.dev to.now.data_blocks source.data_store source.data_file) }
    ensures hash { IfOk result (λ source. IsSourceAt S.System system.now to.now.hash_dev (2 ^ 64 - 1) source.hash_store source.hash_file) }
    ensures data_size { IfOk result (λ source. S.Store.size source.data_store ≡ to.now.data_block_size) }
    ensures hash_size { IfOk result (λ source. S.Store.size source.hash_store ≡ to.now.hash_block_size) }
    ensures data_len { IfOk result (λ source. to.now.data_blocks ≤ length (S.Store.content source.data_store)) }
    ensures hash_len { IfOk result (λ source. end ≤ length (S.Store.content source.hash_store)) }
{
    let opened = open_to_read(system, to.dev(), Command::Verify, Which::Data)?;
    check_gate(system, to.hash_dev())?;
    let data_file = system.identity_of(&opened);
    let part = Part::AtMost(to.data_blocks());
    let data_store = system.store(opened, part, to.data_block_size())?;
    let opened = open_to_read(system, to.hash_dev(), Command::Verify, Which::Hash)?;
    let hash_file = system.identity_of(&opened);
    let hash_store = system.store(opened, Part::AtMost(u64::MAX), to.hash_block_size())?;
    if data_store.len() < to.data_blocks() || hash_store.len() < end {
        return Err(CheckFault::Lengths.into());
    }
    Ok(Source {
        data_store,
        hash_store,
        data_file,
        hash_file,
    })
}
