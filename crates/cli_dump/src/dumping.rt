//! The command `dump`.
ghost use Rattle.std.specs.Prelude.{◌≡◌, ◌⊎◌, true, OnOk, IfErr};
ghost use Rattle.cli_faults.specs.Errors.{IsS1For};
ghost use Rattle.cli_dump.specs.Dumped.{DumpBlames, IsDumped, IsReadFailed};

use cli_arguments::DumpWords;
use cli_faults::{Command, Failure, Word, number};
use cli_volume::{SUPERBLOCK_SIZE, print_superblock, superblock_in};
use os_files::{Part, System, open_to_read};
use std::io::Write;
use verity_store::Which;

/// Prints the superblock of HASH, a line for each field, and where the levels of its tree stand.
pub fn dump<S: System, W: Write>(
    system: &S,
    words: &DumpWords<'_>,
    output: &mut W,
) -> Result<(), Failure>
    ensures printed { OnOk result (IsDumped S.System S.Store.BlockStore system.now words.now
        (W.contents output.old) (W.contents output.new)) }
    ensures blames { IfErr result (DumpBlames words.now) }
    ensures system { IfErr result (IsS1For ((S.refuses system.now ≡ true)
        ⊎ IsReadFailed S.System S.Store.BlockStore system.now words.now.hash_path.now)) }
{
    let offset = number(Word::HashOffset, words.hash_offset)?;
    let hash = open_to_read(system, words.hash_path, Command::Dump, Which::Hash)?;
    let mut hash_store = system.store(hash, Part::AtMost(u64::MAX), SUPERBLOCK_SIZE)?;
    let (superblock, start) = superblock_in(system.alloc(), &mut hash_store, offset)?;
    print_superblock(system.alloc(), &superblock, start, output)
}
