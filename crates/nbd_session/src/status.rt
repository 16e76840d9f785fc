//! How a session stands.

ghost use Rattle.std.specs.Prelude.{◌≡◌, ◌≢◌, ◌↔◌};

use crate::phase::Phase;

/// How a session stands after a feed.
#[derive(Clone, Copy, Debug, Drop, PartialEq, Eq)]
pub enum Status {
    /// More may be said.
    Open,
    /// The conversation has ended. Later feeds answer this again, and append nothing.
    Ended,
    /// Memory was refused for input or for a reply's framing. Later feeds answer this again, and append nothing.
    Starved,
}

impl Status {
    /// How a session in this phase stands that isn't starved.
    pub(crate) fn of(phase: Phase) -> Status
        ensures ended { (result ≡ Status.Ended) ↔ (phase ≡ Phase.Ended) }
        ensures awake { result ≢ Status.Starved }
    {
        match phase {
            Phase::Flags | Phase::Options { .. } | Phase::Transmission => Status::Open,
            Phase::Ended => Status::Ended,
        }
    }
}
