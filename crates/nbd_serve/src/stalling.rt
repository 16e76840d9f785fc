//! Which clients have stalled, and which wait for memory.

ghost use Rattle.std.specs.Prelude.{◌≡◌, ◌≢◌, ◌<◌, ℕ, [], length, slice_get, false, Some, IsTrue};
ghost use Rattle.nbd_relay.specs.Client.{ClientState};
ghost use Rattle.nbd_serve.specs.declared.connected.Seat.{Seat};
ghost use Rattle.nbd_serve.specs.Pending.{IsHungry};
ghost use Rattle.nbd_serve.specs.Sockets.{SocketState};
ghost use Rattle.nbd_serve.specs.Stalling.{Begins, HasStalled, IsLulled, IsNoted};

use crate::budget::Budget;
use crate::connected::Connected;
use crate::turns::waits_for_memory;
use nbd_connection::Connection;
use nbd_hub::Sessions;
use nbd_session::Export;
use std::time::Duration;

/// After how many milliseconds a client that takes nothing is asked though the system doesn't say that it may go on.
const ASKED_AGAIN: u64 = 500;

impl<C: Connection + Drop> Connected<C> {
    /// Whether the client at this place has its turns: the system says that it may go on; or it has taken nothing for half a second
    /// while another one waits for memory, and is asked, since the system is late to say that a socket takes bytes again.
    pub fn is_due<E: Export>(
        &mut self,
        hub: &Sessions<E>,
        at: usize,
        budget: Budget,
        stall: Option<Duration>,
        now: Option<Duration>,
    ) -> bool
        requires { at < length self.old.clients.items }
        ensures clients { self.new.clients.items ≡ self.old.clients.items }
        ensures numbers { self.new.numbers.items ≡ self.old.numbers.items }
    {
        let seat = &mut self.seats[at];
        if seat.ready {
            seat.heard = now;
            return true;
        }
        let soon = stall.map(|stall| stall.min(Duration::from_millis(ASKED_AGAIN)));
        self.has_stalled(hub, at, budget, soon, now)
    }

    /// Notes after the turns of the client at this place what its connection has taken, and whether something is pending for it.
    pub fn note(&mut self, at: usize, now: Option<Duration>)
        requires { at < length self.old.clients.items }
        ensures clients { self.new.clients.items ≡ self.old.clients.items }
        ensures numbers { self.new.numbers.items ≡ self.old.numbers.items }
        ensures noted { IsNoted C.log self.new.clients.items self.new.seats.items at }
        ensures begins { (old new : Seat) → slice_get self.old.seats.items at ≡ Some old → slice_get self.new.seats.items at ≡ Some new
            → Begins old.lull new.lull now }
    {
        let client = &self.clients[at];
        let pending = client.held() > 0;
        let taken = client.stream().taken();
        let seat = &mut self.seats[at];
        if seat.lull.note(pending, taken, now) {
            seat.heard = now;
        }
    }

    /// Whether something is pending for the client at this place, of which it has taken nothing for so long, while another client
    /// waits for memory.
    pub fn has_stalled<E: Export>(
        &self,
        hub: &Sessions<E>,
        at: usize,
        budget: Budget,
        stall: Option<Duration>,
        now: Option<Duration>,
    ) -> bool
        requires { at < length self.now.clients.items }
        ensures { IsTrue result → HasStalled C.log budget.share (E.facts hub.now.1) hub.now.0 stall now self.now.clients.items
            self.now.seats.items at }
    {
        self.is_lulled(at, stall, now) && self.another_waits(hub, at, budget)
    }

    /// Whether something is pending for the client at this place, of which it has taken nothing for so long.
    fn is_lulled(&self, at: usize, stall: Option<Duration>, now: Option<Duration>) -> bool
        requires { at < length self.now.clients.items }
        ensures lulled { IsTrue result → (client : ClientState × SocketState C) × (seat : Seat)
            × (slice_get self.now.clients.items at ≡ Some client) × (slice_get self.now.seats.items at ≡ Some seat)
            × IsLulled C.log stall now client seat.lull }
        ensures all { (client : ClientState × SocketState C) (seat : Seat) → slice_get self.now.clients.items at ≡ Some client
            → slice_get self.now.seats.items at ≡ Some seat → IsLulled C.log stall now client seat.lull → IsTrue result }
    {
        let client = &self.clients[at];
        let lull = self.seats[at].lull;
        client.held() > 0 && lull.is_over(client.stream().taken(), stall, now)
    }

    /// Whether another client than that at this place waits for memory.
    fn another_waits<E: Export>(&self, hub: &Sessions<E>, at: usize, budget: Budget) -> bool
        ensures { IsTrue result → (other : ℕ) × (other ≢ at)
            × IsHungry budget.share (E.facts hub.now.1) hub.now.0 self.now.clients.items other }
    {
        for other in 0..self.clients.len() {
            if other != at && waits_for_memory(&self.clients, other, hub, budget) {
                return true;
            }
        }
        false
    }

    /// Whether a client's request is held back, which is so after its turns while it waits for memory.
    pub fn holds_back(&self) -> bool
        ensures { result ≡ false → (at : ℕ) (client : ClientState × SocketState C) → slice_get self.now.clients.items at ≡ Some client
            → client.0.unsent ≡ [] → client.0.over ≡ false → client.0.waiting ≡ [] }
    {
        for client in &self.clients {
            if client.is_fed_next() {
                return true;
            }
        }
        false
    }

    /// Whether there is memory for a request that is held back.
    pub fn may_feed<E: Export>(&self, hub: &Sessions<E>, budget: Budget) -> bool {
        for at in 0..self.clients.len() {
            let client = &self.clients[at];
            if client.is_fed_next() && !waits_for_memory(&self.clients, at, hub, budget) {
                return true;
            }
        }
        false
    }
}
