//! What is pending for all clients, and what may be.

ghost use Rattle.std.specs.Prelude.{◌≡◌, ◌+◌, ◌-◌, ◌*◌, ◌/◌, ◌≤◌, ◌⊎◌, ℕ, List, length, min, true, Some, IfSome};
ghost use Rattle.nbd_session.specs.Protocol.{longest_reply};
ghost use Rattle.nbd_hub.specs.Sessions.{max_open};
ghost use Rattle.nbd_relay.specs.Client.{ClientState};
ghost use Rattle.nbd_serve.specs.Pending.{pending, beyond, IsWithin};

use nbd_relay::{Client, Stream};
use std::alloc::Allocator;

/// How many clients have a share: as many as may be connected.
const SHARES: u64 = 64;

/// The longest reply: a READ's header and 32 MiB.
const LONGEST_REPLY: u64 = 33_554_448;

/// The most that a share is: the reply to a READ of 1 MiB.
const MOST_SHARE: u64 = 1_048_592;

/// How many bytes all pending replies may have. Each client has a share of its own; what its reply takes beyond that comes from
/// what the shares leave of the limit.
#[derive(Clone, Copy, Debug)]
pub struct Budget {
    pub limit: u64,
    pub share: u64,
}

impl Budget {
    /// The shares of a limit: of 1 MiB and a reply's head, or less, so that a longest reply fits beside them.
    pub fn of(limit: u64) -> Budget
        ensures limit { result.limit ≡ limit }
        ensures share { result.share ≡ min ((limit - longest_reply) / max_open) 1048592 }
        ensures longest { longest_reply ≤ limit → longest_reply + max_open * result.share ≤ limit }
    {
        let share = (limit.saturating_sub(LONGEST_REPLY) / SHARES).min(MOST_SHARE);
        Budget { limit, share }
    }
}

/// How much more may be pending beyond the clients' shares, or none where too much is. It counts the memory of a reply until all
/// of it is sent.
pub fn left<S: Stream + Drop, B: Allocator>(clients: &[Client<S, B>], budget: Budget) -> Option<u64>
    ensures left { IfSome result (λ n. beyond budget.share clients.now + max_open * budget.share + n ≤ budget.limit) }
    ensures given_back { pending clients.now ≡ 0 → max_open * budget.share ≤ budget.limit
        → result ≡ Some (budget.limit - max_open * budget.share) }
{
    let mut left = budget.limit.checked_sub(budget.share.checked_mul(SHARES)?)?;
    for client in clients {
        let more = (client.held() as u64).saturating_sub(budget.share);
        if left < more {
            return None;
        }
        left -= more;
    }
    Some(left)
}

/// Whether there is room for one more reply of so many bytes: it is within a client's share, or what it has beyond that is left.
pub fn has_room<S: Stream + Drop, B: Allocator>(
    clients: &[Client<S, B>],
    reply: u64,
    budget: Budget,
) -> bool
    ensures share { reply ≤ budget.share → result ≡ true }
    ensures within { result ≡ true → (reply ≤ budget.share)
        ⊎ (beyond budget.share clients.now + max_open * budget.share + (reply - budget.share) ≤ budget.limit) }
    ensures given_back { pending clients.now ≡ 0 → max_open * budget.share + (reply - budget.share) ≤ budget.limit → result ≡ true }
{
    let more = reply.saturating_sub(budget.share);
    if more == 0 {
        return true;
    }
    match left(clients, budget) {
        Some(left) => more <= left,
        None => false,
    }
}

/// A budget that is kept keeps all that is pending within its limit.
pub fn keeps_the_limit<S: Stream>()
    ensures { (limit share : ℕ) (clients : List (ClientState × S)) → length clients ≤ max_open → IsWithin limit share clients
        → pending clients ≤ limit }
{}
