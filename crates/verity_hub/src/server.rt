//! Many clients over sockets, by the loop of `nbd_serve`, which knows nothing of hashes.

ghost use Rattle.std.specs.Prelude.{◌≡◌, ℕ, List, IfOk};
ghost use Rattle.nbd_hub.specs.History.{Step};
ghost use Rattle.nbd_hub.specs.After.{IsAfter};
ghost use Rattle.nbd_serve.specs.Lines.{IsServed};
ghost use Rattle.nbd_serve.specs.Sockets.{AreGivenBack, IsOfOne};
ghost use Rattle.verity_chain.specs.Right.{Fits};
ghost use Rattle.verity_check.specs.Verifier.{IsOnlyReading};
ghost use Rattle.verity_hub.specs.Verdicts.{facts_of, IsRightFor};

use crate::hub::Hub;
use crate::notices::Notices;
use nbd_connection::Door;
use nbd_serve::Stop;
use std::alloc::Global;
use std::io::Write;
use verity_store::BlockStore;

/// Serves this many connections, up to 64 at a time, prints a line for each, and answers whether none named a fault, as
/// [`nbd_serve::serve_clients`] does. The sessions go on over the same verifier, which only reads, and offer what they offered.
///
/// However it ends, each connection that was accepted was given back; and for every image that fits the table line, what it had been
/// sent is a beginning of what one session said to what had been received, by verdicts that are right, whatever the stores returned.
///
/// # Errors
///
/// Those of [`nbd_serve::serve_clients`].
pub fn serve_clients<D: BlockStore, H: BlockStore, N: Notices, L: Door, W: Write>(
    hub: &mut Hub<D, H, Global, N>,
    door: &mut L,
    sessions: u64,
    output: &mut W,
) -> Result<bool, Stop>
    ensures offer { hub.new.0.offer ≡ hub.old.0.offer }
    ensures verifier { IsOnlyReading D.BlockStore H.BlockStore hub.old.1 hub.new.1 }
    ensures served { IfOk result (IsServed (W.contents output.old) (W.contents output.new) sessions) }
    ensures right { (history : List Step) → IsAfter (facts_of D.BlockStore H.BlockStore hub.old.1) hub.old.0 history
        → (image : List (List ℕ)) → Fits hub.old.1.table image
        → AreGivenBack (IsOfOne (IsRightFor D.BlockStore H.BlockStore hub.new.1 image) hub.new.0.offer)
        (L.visits door.old) (L.visits door.new) }
{
    let served = nbd_serve::serve_clients(&mut hub.sessions, door, sessions, output);
    hub.sessions.export().check();
    served
}
