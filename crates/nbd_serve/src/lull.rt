//! Since when a client takes nothing of what is pending for it.

ghost use Rattle.std.specs.Prelude.{◌≡◌, ◌≢◌, ◌↔◌, ◌⊎◌, true, false, IsTrue};
ghost use Rattle.nbd_serve.specs.Stalling.{HasLasted};

use std::time::Duration;

/// What was noted of a client after its last turns: whether something was pending for it, how many bytes its connection had taken in
/// all, and since when it was so.
#[derive(Clone, Copy, Debug)]
pub struct Lull {
    since: Option<Duration>,
    taken: u64,
    pending: bool,
}

impl Lull {
    /// Nothing is pending, and nothing was taken.
    pub fn new() -> Lull
        ensures taken { result.taken ≡ 0 }
        ensures pending { result.pending ≡ false }
    {
        Lull {
            since: None,
            taken: 0,
            pending: false,
        }
    }

    /// Notes after a client's turns whether something is pending for it, and how many bytes its connection has taken in all. The time
    /// goes on where something was pending before, too, and not a byte was taken; else it begins now. Returns whether bytes were taken.
    pub fn note(&mut self, pending: bool, taken: u64, now: Option<Duration>) -> bool
        ensures took { IsTrue result ↔ (taken ≢ self.old.taken) }
        ensures taken { self.new.taken ≡ taken }
        ensures pending { self.new.pending ≡ pending }
        ensures goes_on { self.old.pending ≡ true → pending ≡ true → taken ≡ self.old.taken → self.new.since ≡ self.old.since }
        ensures begins { (self.old.pending ≡ false) ⊎ (pending ≡ false) ⊎ (taken ≢ self.old.taken) → self.new.since ≡ now }
    {
        let took = taken != self.taken;
        if took || !self.pending || !pending {
            self.since = now;
        }
        self.pending = pending;
        self.taken = taken;
        took
    }

    /// Whether not a byte was taken beyond those that were noted, for as long as `stall`. It isn't so where there is no limit or no
    /// clock.
    pub fn is_over(&self, taken: u64, stall: Option<Duration>, now: Option<Duration>) -> bool
        ensures { IsTrue result ↔ ((self.now.taken ≡ taken) × HasLasted self.now.since stall now) }
    {
        self.taken == taken && has_lasted(self.since, stall, now)
    }
}

/// Whether so much time went by.
fn has_lasted(since: Option<Duration>, stall: Option<Duration>, now: Option<Duration>) -> bool
    ensures { IsTrue result ↔ HasLasted since stall now }
{
    match (since, stall, now) {
        (Some(since), Some(stall), Some(now)) => now
            .saturating_sub(since)
            .checked_sub(stall)
            .is_some(),
        _ => false,
    }
}
