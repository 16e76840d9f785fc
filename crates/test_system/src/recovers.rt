//! What `recover` leaves in memory.
ghost use Rattle.std.specs.Prelude.{◌≡◌, None, OnOk, codes};
ghost use Rattle.test_system.specs.Files.{AreRecovered};

use crate::memory::MemSystem;
use cli_arguments::RecoverWords;
use cli_faults::Failure;
use cli_recover::recover;
use os_line_file::LineFolders;
use std::io::Write;

/// Recovers `data` and `hash`, whose journal is the one beside `hash`: after Ok both are, byte for byte, what the journal's bytes make of
/// what they were, and the journal is gone. All of it is synced: what isn't is lost here.
pub fn recover_in_memory<L: LineFolders, W: Write>(
    system: &mut MemSystem,
    folders: &mut L,
    words: &RecoverWords<'_>,
    output: &mut W,
) -> Result<(), Failure>
    requires data_path { words.now.data_path.now ≡ codes "data" }
    requires hash_path { words.now.hash_path.now ≡ codes "hash" }
    requires beside { words.now.journal ≡ None }
    ensures recovered { OnOk result (AreRecovered system.old system.new) }
{
    match recover(system, folders, words, output) {
        Ok(()) => Ok(()),
        Err(failure) => Err(failure),
    }
}
