//! The command `talk`: serves a volume to one NBD client, over standard input and output.

ghost use Rattle.std.specs.Prelude.{◌≡◌, true, ◌↔◌, Err, IfOk, IfErr};
ghost use Rattle.nbd_hub.specs.Failures.{FailsToRead, FailsToWrite};
ghost use Rattle.cli_faults.specs.Errors.{IsS1For};
ghost use Rattle.cli_serve.specs.Blamed.{TalkBlames};
ghost use Rattle.cli_serve.specs.Serving.{IsTalked, status_of_session};

use crate::opened::open_hub;
use cli_arguments::TalkWords;
use cli_faults::{Command, DONE, Failure, NO_MEMORY, REFUSED, Word, number};
use os_files::System;
use verity_hub::{HubFault, Input, Output, ServeFault, Silent, serve_stream};

/// How many turns the session may take.
const TURNS: u64 = 1 << 40;

/// Serves the volume that a table line names to the client at the other end of `input` and `output`, for servers that
/// are started for one connection. Nothing but the session's bytes is written once the greeting has begun.
///
/// Faults are found in this order: the words, the line, the name, the two files (data first), the verifier.
pub fn talk<S: System, I: Input, W: Output>(
    system: &S,
    words: &TalkWords<'_>,
    input: &mut I,
    output: &mut W,
) -> Result<u8, Failure>
    ensures ended { IfOk result (λ status. (ended : _) × (status ≡ status_of_session ended)
        × IsTalked S.Store.BlockStore S.Store.BlockStore words.now (record {
          reader = I.remaining input.old;
          reader' = I.remaining input.new;
          writer = W.contents output.old;
          writer' = W.contents output.new;
        }) ended
        × FailsToRead (I.failures input.old) (I.failures input.new) ended
        × FailsToWrite (W.failures output.old) (W.failures output.new) ended) }
    ensures blames { IfErr result (TalkBlames words.now) }
    ensures system { IfErr result (IsS1For (S.refuses system.now ≡ true)) }
{
    let cache = number(Word::Cache, words.cache)? as usize;
    let data_cache = number(Word::DataCache, words.data_cache)? as usize;
    let mut hub = open_hub(
        system,
        words.table,
        words.name,
        cache,
        data_cache,
        Command::Talk,
        Silent,
    )?;
    let served = serve_stream(&mut hub, input, output, TURNS);
    ended(served)
}

/// The status of a session that ended so.
fn ended(served: Result<(), ServeFault>) -> Result<u8, Failure>
    ensures status { IfOk result (λ status. status ≡ status_of_session served) }
    ensures refused { IfErr result (λ e. e ≡ Failure.NoMemory) }
    ensures memory { (result ≡ Err Failure.NoMemory) ↔ (served ≡ Err (ServeFault.Hub HubFault.NoMemory)) }
{
    match served {
        Ok(()) => Ok(DONE),
        Err(ServeFault::Starved) => Ok(NO_MEMORY),
        // The greeting hasn't begun.
        Err(ServeFault::Hub(HubFault::NoMemory)) => Err(Failure::NoMemory),
        Err(_) => Ok(REFUSED),
    }
}
