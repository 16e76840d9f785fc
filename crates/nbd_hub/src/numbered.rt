//! A session and its number.

ghost use Rattle.std.specs.Prelude.{◌≡◌, ◌≤◌, ℕ, List, length, take, false, All, MatchOption, None};
ghost use Rattle.nbd_session.specs.Protocol.{short};
ghost use Rattle.nbd_session.specs.Export.{IsWithin};
ghost use Rattle.nbd_session.specs.Session.{Feeds, IsAt, added};
ghost use Rattle.nbd_session.specs.Short.{asked};
ghost use Rattle.nbd_session.specs.Conversation.{Grows};
ghost use Rattle.nbd_hub.specs.Sessions.{Place, lookup};

use nbd_session::{Export, Session, Status};
use std::alloc::{Allocator, Global};
use std::marker::Model;

/// An open session and its number. Contracts see the two.
#[derive(Drop)]
pub struct Numbered<A: Allocator = Global> {
    number: u64,
    session: Session<A>,
}

impl<A: Allocator> Model for Numbered<A> {
    ghost use Rattle.nbd_hub.specs.Sessions.{Entry};

    ghost Value = { Entry };

    ghost view = { λ one. record { number = one.number; session = one.session } };
}

impl<A: Allocator> Numbered<A> {
    /// Numbers a session.
    pub fn new(number: u64, session: Session<A>) -> Numbered<A>
        ensures { result ≡ record { number = number; session = session } }
    {
        Numbered { number, session }
    }

    /// The number.
    pub fn number(&self) -> u64
        ensures { result ≡ self.now.number }
    {
        self.number
    }

    /// Feeds the session a piece.
    pub fn feed<E: Export, O: Allocator>(
        &mut self,
        piece: &[u8],
        export: &mut E,
        out: &mut Vec<u8, O>,
    ) -> Status
        requires { self.old.session.offer.size ≡ (E.facts export.old).size }
        ensures number { self.new.number ≡ self.old.number }
        ensures later { E.later export.old export.new }
        ensures feeds { Feeds (E.facts export.old) (E.facts export.new)
            self.old.session self.new.session piece.now out.old.items out.new.items result }
        ensures grows { Grows out.old.items out.new.items }
    {
        self.session.feed(piece, export, out)
    }

    /// How many bytes of the export a piece asks the session for.
    pub fn asks(&self, piece: &[u8]) -> u32
        requires { length piece.now ≤ short }
        ensures { (input : List ℕ) → self.now.session.starved ≡ false → IsAt self.now.session input
            → result ≡ asked (added self.now.session.offer input piece.now) }
    {
        self.session.asks(piece)
    }

    /// Notes what the READs that wait will ask the export for, and returns how many it noted.
    pub fn ahead(&self, waiting: &[u8], ranges: &mut [(u64, u32)]) -> usize
        ensures count { result ≤ length ranges.new }
        ensures within { All (IsWithin self.now.session.offer.size) (take result ranges.new) }
    {
        self.session.ahead(waiting, ranges)
    }
}

/// The place of the session of this number.
pub fn find<A: Allocator>(sessions: &[Numbered<A>], id: u64) -> Option<usize>
    ensures { MatchOption result (lookup id sessions.now ≡ None) (Place id sessions.now) }
{
    for (i, one) in sessions.iter().enumerate() {
        if one.number() == id {
            return Some(i);
        }
    }
    None
}
