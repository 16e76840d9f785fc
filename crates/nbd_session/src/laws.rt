//! Laws of the definitions, for the crates above.

ghost use Rattle.std.specs.Prelude.{◌≡◌, ◌++◌, List, [], ℕ};
ghost use Rattle.nbd_session.specs.declared.offer.Offer.{Offer};
ghost use Rattle.nbd_session.specs.Handshake.{greeting};
ghost use Rattle.nbd_session.specs.Talk.{talk};
ghost use Rattle.nbd_session.specs.Export.{Fair, Keeps};
ghost use Rattle.nbd_session.specs.Session.{HearingGoesOn, Talked, TalksOn};
ghost use Rattle.nbd_session.specs.Short.{AsksOnce, RepliesOnce, RepliesWithin};

use crate::export::Export;

/// At first there is the greeting.
pub fn talk_begins()
    ensures { (offer : Offer) → talk offer [] [] ≡ greeting }
{}

/// What is heard of a longer input is what was heard of the input, and then of the piece: whatever is said of its verdicts.
pub fn hearing_goes_on()
    ensures { HearingGoesOn }
{}

/// Feeds add up: what was said for an input, and what a feed adds, is what is said for the longer input.
pub fn talk_goes_on<E: Export>()
    ensures { (a b c : E) (offer : Offer) (input piece said more : List ℕ)
        → Keeps (E.facts a) (E.facts b) → Keeps (E.facts b) (E.facts c)
        → Talked (E.facts a) (E.facts b) offer input said → TalksOn (E.facts b) (E.facts c) offer input piece [] more
        → Talked (E.facts a) (E.facts c) offer (input ++ piece) (said ++ more) }
{}

/// A piece as short as a request's header makes one READ whole at most.
pub fn short_pieces_ask_once()
    ensures { AsksOnce }
{}

/// And in transmission what it adds is one reply at most, of 33,554,448 bytes at most.
pub fn short_pieces_reply_once<E: Export>()
    ensures { (a b : E) → RepliesOnce (Fair (E.facts a) (E.facts b)) }
{}

/// Nor is it longer than what the piece asks for ([`Session::asks`](crate::Session::asks)), and 16 bytes.
pub fn short_pieces_reply_within<E: Export>()
    ensures { (a b : E) → RepliesWithin (Fair (E.facts a) (E.facts b)) }
{}
