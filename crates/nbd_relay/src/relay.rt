//! Many clients of one hub, in any order.

ghost use Rattle.std.specs.Prelude.{◌≡◌, ◌≢◌, ◌≤◌, ◌<◌, ◌++◌, List, [], ◌∷◌, length, Some, IfErr, OnOk, OnErr, slice_get};
ghost use Rattle.std.specs.List.{remove};
ghost use Rattle.nbd_session.specs.Handshake.{greeting};
ghost use Rattle.nbd_hub.specs.History.{Step, Opening, Ending};
ghost use Rattle.nbd_hub.specs.After.{IsAfter};
ghost use Rattle.nbd_relay.specs.Clients.{Log, AllServed, RunsOn, TurnsAt};
ghost use Rattle.nbd_relay.specs.Client.{ClientState, fault_in};
ghost use Rattle.nbd_hub.specs.Sessions.{max_open, max_opened};

use crate::client::{Client, Turn};
use crate::stream::Stream;
use nbd_hub::{HubFault, Sessions};
use nbd_session::Export;
use std::alloc::Allocator;

/// One turn of the client at this place. All of them stay served.
pub fn turn_at<S: Stream + Drop, A: Allocator, E: Export, H: Allocator + Copy>(
    clients: &mut [Client<S, A>],
    at: usize,
    hub: &mut Sessions<E, H>,
) -> Turn
    requires { at < length clients.old }
    ensures turns { TurnsAt S.asked clients.old clients.new at result }
    ensures offer { hub.new.0.offer ≡ hub.old.0.offer }
    ensures later { E.later hub.old.1 hub.new.1 }
    ensures serves { (history : List Step) (logs : List Log) → IsAfter (E.facts hub.old.1) hub.old.0 history
        → AllServed hub.old.0.offer history clients.old logs
        → RunsOn S.remaining S.received S.contents (E.facts hub.new.1) hub.new.0 history clients.old clients.new logs }
{
    let client = &mut clients[at];
    client.turn(hub)
}

/// Opens a session for a stream, whose client comes last. All stay served, and so is it.
///
/// # Errors
///
/// Those of [`Sessions::open`], H2 also where memory was refused for the list. A refused call changes nothing, and hands the
/// stream back.
pub fn accept<S: Stream + Drop, A: Allocator, B: Allocator, E: Export, H: Allocator + Copy>(
    clients: &mut Vec<Client<S, A>, B>,
    alloc: A,
    stream: S,
    hub: &mut Sessions<E, H>,
) -> Result<(), (HubFault, S)>
    ensures serves { OnOk result ((history : List Step) (logs : List Log) → IsAfter (E.facts hub.old.1) hub.old.0 history
        → AllServed hub.old.0.offer history clients.old.items logs
        → IsAfter (E.facts hub.new.1) hub.new.0 (history ++ Opening hub.old.0.next greeting ∷ [])
        × AllServed hub.new.0.offer (history ++ Opening hub.old.0.next greeting ∷ []) clients.new.items
        (logs ++ record { read = []; wrote = [] } ∷ [])) }
    ensures offer { hub.new.0.offer ≡ hub.old.0.offer }
    ensures export { hub.new.1 ≡ hub.old.1 }
    ensures added { OnOk result ((client : ClientState × S) × (clients.new.items ≡ clients.old.items ++ client ∷ [])
        × (client.0.id ≡ hub.old.0.next) × (client.1 ≡ stream)) }
    ensures full { fault_in result ≡ Some HubFault.Full → max_open ≤ length hub.old.0.sessions }
    ensures spent { fault_in result ≡ Some HubFault.Spent → max_opened ≤ hub.old.0.next }
    ensures known { fault_in result ≢ Some HubFault.Unknown }
    ensures refused { OnErr result ((hub.new ≡ hub.old) × (clients.new.items ≡ clients.old.items)) }
    ensures handed_back { IfErr result (λ refusal. refusal.1 ≡ stream) }
{
    if clients.reserve(1).is_err() {
        return Err((HubFault::NoMemory, stream));
    }
    match Client::open(alloc, stream, hub) {
        Ok(client) => match clients.push(client) {
            Ok(()) => Ok(()),
            Err(_) => unreachable!(),
        },
        Err(refusal) => Err(refusal),
    }
}

/// Ends the session of the client at this place, which is handed out. The others stay served.
pub fn leave<S: Stream + Drop, A: Allocator, B: Allocator, E: Export, H: Allocator + Copy>(
    clients: &mut Vec<Client<S, A>, B>,
    at: usize,
    hub: &mut Sessions<E, H>,
) -> Client<S, A>
    requires { at < length clients.old.items }
    ensures hands_out { slice_get clients.old.items at ≡ Some result }
    ensures rest { clients.new.items ≡ remove clients.old.items at }
    ensures offer { hub.new.0.offer ≡ hub.old.0.offer }
    ensures export { hub.new.1 ≡ hub.old.1 }
    ensures serves { (history : List Step) (logs : List Log) → IsAfter (E.facts hub.old.1) hub.old.0 history
        → AllServed hub.old.0.offer history clients.old.items logs
        → IsAfter (E.facts hub.new.1) hub.new.0 (history ++ Ending result.0.id ∷ [])
        × AllServed hub.new.0.offer (history ++ Ending result.0.id ∷ []) clients.new.items (remove logs at) }
{
    let client = clients.remove(at);
    match hub.end(client.id()) {
        Ok(()) => client,
        Err(_) => client,
    }
}
