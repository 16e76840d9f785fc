//! What a client does until the next one has its turns.

ghost use Rattle.std.specs.Prelude.{◌≡◌, ◌≢◌, ◌<◌, ◌⊎◌, List, length, IsTrue};
ghost use Rattle.nbd_hub.specs.History.{Step};
ghost use Rattle.nbd_hub.specs.After.{IsAfter};
ghost use Rattle.nbd_hub.specs.declared.fault.ServeFault.{ServeFault};
ghost use Rattle.nbd_relay.specs.Clients.{Log, AllServed, RunsOn};
ghost use Rattle.nbd_serve.specs.Pending.{IsWithin, IsHungry};
ghost use Rattle.nbd_serve.specs.Serving.{GoesOn};

use crate::budget::{Budget, has_room, left};
use nbd_hub::{ServeFault, Sessions};
use nbd_relay::{Client, Stream, Turn, turn_at};
use nbd_session::Export;
use std::alloc::Allocator;

/// The most turns of a client before the next one has its own.
const TURNS: u64 = 256;

/// The bytes of a reply beside the export's.
const REPLY_HEAD: u64 = 16;

/// What a client's turns came to.
#[derive(Clone, Copy, Debug, Drop, PartialEq, Eq)]
pub enum Came {
    /// It goes on at once, after the next ones.
    On,
    /// It isn't ready.
    Waits,
    /// It asks for more than its share, and is fed once there is room for that.
    Hungry,
    /// All was said.
    Done,
    /// It is to be left.
    Failed(ServeFault),
}

/// Turns of the client at this place, up to 256, until it isn't ready, there is no room for its next reply, or it is done. All
/// clients stay served. A client whose next READ is within its share goes on, whatever is pending for others.
///
/// The budget is kept, or the client that went beyond it is to be left: N4.
pub fn go_on<S: Stream + Drop, A: Allocator, E: Export, H: Allocator + Copy>(
    clients: &mut [Client<S, A>],
    at: usize,
    hub: &mut Sessions<E, H>,
    budget: Budget,
) -> Came
    requires { at < length clients.old }
    ensures count { length clients.new ≡ length clients.old }
    ensures goes_on { GoesOn E.later hub.old hub.new }
    ensures budget { IsWithin budget.limit budget.share clients.old
        → IsWithin budget.limit budget.share clients.new ⊎ (result ≡ Came.Failed ServeFault.Starved) }
    ensures hungry { result ≡ Came.Hungry → IsHungry budget.share (E.facts hub.new.1) hub.new.0 clients.new at }
    ensures serves { (history : List Step) (logs : List Log) → IsAfter (E.facts hub.old.1) hub.old.0 history
        → AllServed hub.old.0.offer history clients.old logs
        → RunsOn S.remaining S.received S.contents (E.facts hub.new.1) hub.new.0 history clients.old clients.new logs }
{
    let mut came = Came::On;
    for _ in 0..TURNS {
        match came {
            Came::On => came = take_turn(clients, at, hub, budget),
            _ => break,
        }
    }
    came
}

/// One turn, unless it would feed where there is no room for the reply.
fn take_turn<S: Stream + Drop, A: Allocator, E: Export, H: Allocator + Copy>(
    clients: &mut [Client<S, A>],
    at: usize,
    hub: &mut Sessions<E, H>,
    budget: Budget,
) -> Came
    requires { at < length clients.old }
    ensures count { length clients.new ≡ length clients.old }
    ensures goes_on { GoesOn E.later hub.old hub.new }
    ensures budget { IsWithin budget.limit budget.share clients.old
        → IsWithin budget.limit budget.share clients.new ⊎ (result ≡ Came.Failed ServeFault.Starved) }
    ensures hungry { result ≡ Came.Hungry → IsHungry budget.share (E.facts hub.new.1) hub.new.0 clients.new at }
    ensures serves { (history : List Step) (logs : List Log) → IsAfter (E.facts hub.old.1) hub.old.0 history
        → AllServed hub.old.0.offer history clients.old logs
        → RunsOn S.remaining S.received S.contents (E.facts hub.new.1) hub.new.0 history clients.old clients.new logs }
{
    if waits_for_memory(clients, at, hub, budget) {
        return Came::Hungry;
    }
    let turn = turn_at(clients, at, hub);
    match left(clients, budget) {
        Some(_) => came_to(turn),
        None => Came::Failed(ServeFault::Starved),
    }
}

/// Whether the client at this place waits for memory: its next READ asks for more than its share, and there is no room for the reply.
/// It sends and reads nothing meanwhile.
pub(crate) fn waits_for_memory<S: Stream + Drop, A: Allocator, E: Export, H: Allocator + Copy>(
    clients: &[Client<S, A>],
    at: usize,
    hub: &Sessions<E, H>,
    budget: Budget,
) -> bool
    requires { at < length clients.now }
    ensures { IsTrue result → IsHungry budget.share (E.facts hub.now.1) hub.now.0 clients.now at }
{
    let client = &clients[at];
    if client.is_fed_next() {
        let reply = REPLY_HEAD + u64::from(client.asks(hub));
        if !has_room(clients, reply, budget) {
            return true;
        }
    }
    false
}

fn came_to(turn: Turn) -> Came
    ensures { result ≢ Came.Hungry }
{
    match turn {
        Turn::Again | Turn::Interrupted => Came::On,
        Turn::Blocked => Came::Waits,
        Turn::Done => Came::Done,
        Turn::Failed(fault) => Came::Failed(fault),
    }
}
