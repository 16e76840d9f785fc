//! What `format` leaves in memory.
ghost use Rattle.std.specs.Prelude.{◌≡◌, None, Ok, OnOk, codes};
ghost use Rattle.std.specs.Option.{option_map};
ghost use Rattle.cli_faults.specs.Words.{number_in};
ghost use Rattle.cli_faults.specs.declared.failure.Word.TheVariants as word;
ghost use Rattle.test_system.specs.Formatted.{AreVolume};

use crate::memory::MemSystem;
use cli_arguments::FormatWords;
use cli_faults::Failure;
use cli_format::format;
use std::io::{Eprint, IsTerminal, Write};
use std::time::Clock;

/// Formats `data` in `hash`, whole and from byte 0 on: after Ok the first file is what it was, a table line fits its blocks, and the second
/// is a hash device of these blocks, byte for byte; of which sizes the clause doesn't say.
pub fn format_in_memory<R: Clock + Eprint + AllocGlobal, W: Write, E: IsTerminal>(
    rt: &R,
    system: &mut MemSystem,
    words: &FormatWords<'_>,
    output: &mut W,
    errors: &E,
) -> Result<(), Failure>
    requires data_path { words.now.data_path.now ≡ codes "data" }
    requires hash_path { words.now.hash_path.now ≡ codes "hash" }
    requires whole { words.now.data_blocks ≡ None }
    requires first { number_in word.HashOffset words.now.hash_offset.now ≡ Ok 0 }
    ensures made { OnOk result (AreVolume system.old.image.items system.new.image.items
        (option_map (λ bytes. bytes.items) system.new.device)) }
{
    match format(rt, system, words, output, errors) {
        Ok(()) => Ok(()),
        Err(failure) => Err(failure),
    }
}
