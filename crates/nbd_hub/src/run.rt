//! Lists of events.

ghost use Rattle.std.specs.Prelude.{◌≡◌, ◌≤◌, ◌<◌, ◌+◌, ◌++◌, length, List, [], ◌∷◌, ℕ, OnOk, OnErr};
ghost use Rattle.nbd_session.specs.Export.{Keeps};
ghost use Rattle.nbd_hub.specs.declared.events.HubReply.{HubReply};
ghost use Rattle.nbd_hub.specs.History.{Step, step_of, steps};
ghost use Rattle.nbd_hub.specs.After.{AskedBetween, AsksOn, EachAfter, Given, IsAfter, Replies};

use crate::events::{Event, HubReply};
use crate::sessions::Sessions;
use base_bytes::HeldBytes as Piece;
use nbd_session::Export;
use std::alloc::{AllocError, Allocator};

impl<E: Export, A: Allocator + Copy> Sessions<E, A> {
    /// Does one event, and replies.
    fn answer<B: Allocator>(&mut self, event: &Event<B>) -> HubReply<A>
        ensures offer { self.new.0.offer ≡ self.old.0.offer }
        ensures keeps { Keeps (E.facts self.old.1) (E.facts self.new.1) }
        ensures later { E.later self.old.1 self.new.1 }
        ensures replies { (history : List Step) → IsAfter (E.facts self.old.1) self.old.0 history
            → Replies self.old.0.offer history event.now result }
        ensures asked { (history : List Step) → IsAfter (E.facts self.old.1) self.old.0 history
            → AskedBetween E.facts self.old.1 self.new.1 self.old.0.offer history event.now result }
        ensures after { (history : List Step) → IsAfter (E.facts self.old.1) self.old.0 history
            → IsAfter (E.facts self.new.1) self.new.0 (history ++ step_of event.now result ∷ []) }
    {
        let mut out = Vec::new(self.allocator());
        match event {
            Event::Open => match self.open(&mut out) {
                Ok(id) => HubReply::Opened(id, Piece::new(out)),
                Err(fault) => HubReply::Refused(fault),
            },
            Event::Feed(id, piece) => match self.feed(*id, piece.as_slice(), &mut out) {
                Ok(status) => HubReply::Fed(status, Piece::new(out)),
                Err(fault) => HubReply::Refused(fault),
            },
            Event::End(id) => match self.end(*id) {
                Ok(()) => HubReply::Closed,
                Err(fault) => HubReply::Refused(fault),
            },
        }
    }

    /// Does the events in order, and adds a reply for each that was done: for all of them, unless memory was refused for a reply.
    pub fn run<B: Allocator, C: Allocator>(
        &mut self,
        events: &[Event<B>],
        replies: &mut Vec<HubReply<A>, C>,
    ) -> Result<(), AllocError>
        ensures offer { self.new.0.offer ≡ self.old.0.offer }
        ensures keeps { Keeps (E.facts self.old.1) (E.facts self.new.1) }
        ensures later { E.later self.old.1 self.new.1 }
        ensures all { OnOk result (length replies.new.items ≡ length replies.old.items + length events.now) }
        ensures short { OnErr result (length replies.new.items < length replies.old.items + length events.now) }

        // Whatever was done since it was made: each event that has a reply was done, and no other, and each asked the export between
        // the moment before it and its own.
        ensures ran { (added : List (HubReply A)) × (replies.new.items ≡ replies.old.items ++ added) × (length added ≤ length events.now)
            × ((history : List Step) → IsAfter (E.facts self.old.1) self.old.0 history
            → EachAfter (AsksOn E.later E.facts) (λ e. Given (E.facts e)) self.old.1 self.new.1 self.old.0.offer history events.now added
            × IsAfter (E.facts self.new.1) self.new.0 (history ++ steps events.now added)) }
    {
        for event in events {
            replies.reserve(1)?;
            let reply = self.answer(event);
            match replies.push(reply) {
                Ok(()) => {}
                Err(_) => unreachable!(),
            }
        }
        Ok(())
    }
}
