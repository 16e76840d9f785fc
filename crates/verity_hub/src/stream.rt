//! One session over a stream.

ghost use Rattle.std.specs.Prelude.{◌≡◌, ◌≢◌, ◌↔◌, ◌≤◌, ◌<◌, ◌+◌, length, List, ℕ, None, Err, IsErrOf};
ghost use Rattle.nbd_hub.specs.History.{Step};
ghost use Rattle.nbd_hub.specs.Sessions.{SetsOnly, max_open, max_opened};
ghost use Rattle.nbd_hub.specs.After.{IsAfter};
ghost use Rattle.nbd_hub.specs.Failures.{FailsToRead, FailsToWrite};
ghost use Rattle.nbd_hub.specs.Stream.{Served, ServedBy, ServedAfter};
ghost use Rattle.verity_chain.specs.Right.{Fits};
ghost use Rattle.verity_check.specs.Verifier.{IsOnlyReading};
ghost use Rattle.verity_hub.specs.Verdicts.{facts_of, HoldsFor, SaysRight, SaysExact};

use crate::hub::Hub;
use crate::notices::Notices;
use nbd_hub::{HubFault, Input, Output, ServeFault, serve};
use std::alloc::Allocator;
use verity_store::BlockStore;

/// Serves one client over a stream: opens a session, writes the greeting, then reads at most 28 bytes a turn, feeds them
/// and writes the replies before the next turn. So at most one READ's bytes are held, in one buffer that is kept. At each
/// exit the session is ended.
///
/// It answers Ok at the end of input, and once the session has ended; at most 27 bytes after the ending message are then
/// read and dropped.
///
/// # Errors
///
/// N1 where the reader failed, and nowhere else; N2 where the writer failed or took no byte, and nowhere else, and what went
/// out is a beginning of the output; N3 where `limit` turns gave bytes and the session hasn't ended; N4 where the session
/// starved; N5 where no session could be opened, with the hub's own fault, and nothing was read or written.
pub fn serve_stream<
    D: BlockStore,
    H: BlockStore,
    A: Allocator + Copy + Drop,
    N: Notices,
    R: Input,
    W: Output,
>(hub: &mut Hub<D, H, A, N>, reader: &mut R, writer: &mut W, limit: u64) -> Result<(), ServeFault>
    ensures offer { hub.new.0.offer ≡ hub.old.0.offer }
    ensures verifier { IsOnlyReading D.BlockStore H.BlockStore hub.old.1 hub.new.1 }
    ensures served { Served (facts_of D.BlockStore H.BlockStore hub.old.1) (facts_of D.BlockStore H.BlockStore hub.new.1) hub.old.0.offer
        (record {
          reader = R.remaining reader.old;
          reader' = R.remaining reader.new;
          writer = W.contents writer.old;
          writer' = W.contents writer.new;
        }) limit result }
    // For every image that fits the table line, what was said is right.
    ensures right { (image : List (List ℕ)) → Fits hub.old.1.table image
        → ServedBy (SaysRight D.BlockStore H.BlockStore hub.new.1 image hub.old.0.offer) hub.old.0.offer
        (record {
          reader = R.remaining reader.old;
          reader' = R.remaining reader.new;
          writer = W.contents writer.old;
          writer' = W.contents writer.new;
        }) limit result }
    // Where the stores hold an image, each verdict is exact.
    ensures exact { (image : List (List ℕ)) → HoldsFor D.BlockStore H.BlockStore hub.old.1 image
        → ServedBy (SaysExact D.BlockStore H.BlockStore hub.old.1 hub.new.1 image hub.old.0.offer) hub.old.0.offer
        (record {
          reader = R.remaining reader.old;
          reader' = R.remaining reader.new;
          writer = W.contents writer.old;
          writer' = W.contents writer.new;
        }) limit result }
    // It was left for a failure of an end where that failed, and nowhere else.
    ensures read_failed { FailsToRead (R.failures reader.old) (R.failures reader.new) result }
    ensures write_failed { FailsToWrite (W.failures writer.old) (W.failures writer.new) result }
    // No session came about.
    ensures full { (result ≡ Err (ServeFault.Hub HubFault.Full)) ↔ (max_open ≤ length hub.old.0.sessions) }
    ensures spent { (result ≡ Err (ServeFault.Hub HubFault.Spent))
        ↔ ((length hub.old.0.sessions < max_open) × (max_opened ≤ hub.old.0.next)) }
    ensures known { result ≢ Err (ServeFault.Hub HubFault.Unknown) }
    ensures refused { (fault : HubFault) → IsErrOf result (ServeFault.Hub fault) → hub.new ≡ hub.old }
    // One came about, and it is ended.
    ensures ended { ((fault : HubFault) → IsErrOf result (ServeFault.Hub fault) → ⊥)
        → SetsOnly hub.old.0.sessions hub.new.0.sessions hub.old.0.next None }
    ensures opened { ((fault : HubFault) → IsErrOf result (ServeFault.Hub fault) → ⊥) → hub.new.0.next ≡ hub.old.0.next + 1 }
    ensures count { length hub.new.0.sessions ≡ length hub.old.0.sessions }
    ensures after { ((fault : HubFault) → IsErrOf result (ServeFault.Hub fault) → ⊥) → (history : List Step)
        → IsAfter (facts_of D.BlockStore H.BlockStore hub.old.1) hub.old.0 history
        → ServedAfter (facts_of D.BlockStore H.BlockStore hub.new.1) hub.new.0 history hub.old.0.next }
{
    let result = serve(&mut hub.sessions, reader, writer, limit);
    hub.sessions.export().check();
    result
}
