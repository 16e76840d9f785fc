//! Many sessions over one export.

ghost use Rattle.std.specs.Prelude.{◌≡◌, ◌≢◌, ◌↔◌, ◌≤◌, ◌<◌, ◌+◌, ◌++◌, length, List, [], ℕ, false, Some, None, IfOk, OnOk, OnErr, Err};
ghost use Rattle.nbd_session.specs.Protocol.{short};
ghost use Rattle.nbd_session.specs.Session.{added};
ghost use Rattle.nbd_session.specs.Short.{asked};
ghost use Rattle.nbd_session.specs.Export.{Keeps};
ghost use Rattle.nbd_session.specs.Handshake.{greeting};
ghost use Rattle.nbd_session.specs.Conversation.{Grows};
ghost use Rattle.nbd_hub.specs.Sessions.{OpensOne, FeedsOne, EndsOne, lookup, max_open, max_opened};
ghost use Rattle.nbd_hub.specs.History.{Step, IsOpen, own, starved};
ghost use Rattle.nbd_hub.specs.After.{IsAfter, OpenedAfter, FedAfter, EndedAfter};

use crate::fault::HubFault;
use crate::numbered::{Numbered, find};
use nbd_session::{Export, ExportName, Offer, Session, Status};
use std::alloc::{Allocator, Global};
use std::marker::Model;

/// How many sessions may be open.
const MAX_OPEN: usize = 64;

/// How many sessions may ever be opened.
const MAX_OPENED: u64 = 1 << 32;

/// How many ranges the export is told beforehand, at most.
pub const MAX_AHEAD: usize = 8;

/// Sessions over one export. Contracts see what they offer, the number of the next, those that are open, and the export.
#[derive(Drop)]
pub struct Sessions<E: Export, A: Allocator = Global> {
    export: E,
    offer: Offer,
    open: Vec<Numbered<A>, A>,
    next: u64,
}

impl<E: Export, A: Allocator> Model for Sessions<E, A> {
    ghost use Rattle.nbd_hub.specs.Sessions.{HubState, IsSound};

    ghost Value = { HubState × E };

    ghost view = { λ s. (record { offer = s.offer; next = s.next; sessions = s.open.items }, s.export) };

    ghost invariant = { λ s. IsSound s.offer (E.facts s.export).size (E.facts s.export).block s.next s.open.items };
}

impl<E: Export, A: Allocator + Copy> Sessions<E, A> {
    /// No session yet. It takes no memory.
    pub fn new(alloc: A, export: E, name: ExportName) -> Sessions<E, A>
        ensures export { result.1 ≡ export }
        ensures offer { result.0.offer ≡ record { name = name; size = (E.facts export).size; block = (E.facts export).block } }
        ensures none { (result.0.next ≡ 0) × (result.0.sessions ≡ []) }
        ensures after { IsAfter (E.facts export) result.0 [] }
    {
        let size = export.size();
        let block = export.block();
        Sessions {
            export,
            offer: Offer { name, size, block },
            open: Vec::new(alloc),
            next: 0,
        }
    }

    /// Where the sessions' memory comes from.
    pub fn allocator(&self) -> A {
        *self.open.allocator()
    }

    /// What the sessions read from.
    pub fn export(&self) -> &E
        ensures { result.now ≡ self.now.1 }
    {
        &self.export
    }

    /// Opens a session, and greets.
    pub fn open<O: Allocator>(&mut self, out: &mut Vec<u8, O>) -> Result<u64, HubFault>
        ensures opens { IfOk result (λ id. OpensOne self.old.0 self.new.0 id) }
        ensures greets { OnOk result (out.new.items ≡ out.old.items ++ greeting) }
        ensures export { self.new.1 ≡ self.old.1 }
        ensures full { (result ≡ Err HubFault.Full) ↔ (max_open ≤ length self.old.0.sessions) }
        ensures spent { (result ≡ Err HubFault.Spent) ↔ ((length self.old.0.sessions < max_open) × (max_opened ≤ self.old.0.next)) }
        ensures known { result ≢ Err HubFault.Unknown }
        ensures refused { OnErr result ((self.new ≡ self.old) × (out.new.items ≡ out.old.items)) }
        ensures after { IfOk result (λ id. (history : List Step) → IsAfter (E.facts self.old.1) self.old.0 history
            → OpenedAfter (E.facts self.new.1) self.new.0 history id) }
    {
        if self.open.len() >= MAX_OPEN {
            return Err(HubFault::Full);
        }
        if self.next >= MAX_OPENED {
            return Err(HubFault::Spent);
        }
        if self.open.reserve(1).is_err() {
            return Err(HubFault::NoMemory);
        }
        let name = self.offer.name.copied();
        match Session::open(
            self.allocator(),
            name,
            self.offer.size,
            self.offer.block,
            out,
        ) {
            Ok(session) => {
                let number = self.next;
                match self.open.push(Numbered::new(number, session)) {
                    Ok(()) => {
                        self.next += 1;
                        Ok(number)
                    }
                    Err(_) => unreachable!(),
                }
            }
            Err(_) => Err(HubFault::NoMemory),
        }
    }

    /// Feeds a piece to a session.
    pub fn feed<O: Allocator>(
        &mut self,
        id: u64,
        piece: &[u8],
        out: &mut Vec<u8, O>,
    ) -> Result<Status, HubFault>
        ensures feeds { IfOk result (λ status. FeedsOne (E.facts self.old.1) (E.facts self.new.1)
            self.old.0 self.new.0 id piece.now out.old.items out.new.items status) }
        ensures later { E.later self.old.1 self.new.1 }
        ensures refused { OnErr result ((result ≡ Err HubFault.Unknown) × (self.new ≡ self.old) × (out.new.items ≡ out.old.items)) }
        ensures unknown { OnErr result (lookup id self.old.0.sessions ≡ None) }
        ensures after { IfOk result (λ status. (history : List Step) → IsAfter (E.facts self.old.1) self.old.0 history
            → FedAfter (E.facts self.new.1) self.new.0 history id piece.now status out.old.items out.new.items) }
        ensures grows { Grows out.old.items out.new.items }
    {
        let Some(at) = find(&self.open, id) else {
            return Err(HubFault::Unknown);
        };
        let one = &mut self.open[at];
        Ok(one.feed(piece, &mut self.export, out))
    }

    /// How many bytes of the export a piece of at most 28 bytes asks a session for, as [`Session::asks`] tells. A session that
    /// isn't open asks for none.
    pub fn asks(&self, id: u64, piece: &[u8]) -> u32
        requires { length piece.now ≤ short }
        ensures asked { (history : List Step) → IsAfter (E.facts self.now.1) self.now.0 history → IsOpen history id
            → starved history id ≡ false → result ≡ asked (added self.now.0.offer (own history id) piece.now) }
        ensures unknown { lookup id self.now.0.sessions ≡ None → result ≡ 0 }
    {
        match find(&self.open, id) {
            Some(at) => self.open[at].asks(piece),
            None => 0,
        }
    }

    /// Tells the export what the READs at the head of these bytes will ask for, which wait to be fed to a session: the first
    /// [`MAX_AHEAD`] at most, as [`Session::ahead`] notes them. Where there are fewer than two, or no session of this number is
    /// open, it tells nothing.
    ///
    /// It is a hint to [`Export::warm`], which may read beforehand: no session changes, and nothing is said to a client.
    pub fn warm(&mut self, id: u64, waiting: &[u8])
        ensures state { self.new.0 ≡ self.old.0 }
        ensures keeps { Keeps (E.facts self.old.1) (E.facts self.new.1) }
        ensures later { E.later self.old.1 self.new.1 }
        ensures unknown { lookup id self.old.0.sessions ≡ None → self.new ≡ self.old }
        ensures after { (history : List Step) → IsAfter (E.facts self.old.1) self.old.0 history
            → IsAfter (E.facts self.new.1) self.new.0 history }
    {
        let Some(at) = find(&self.open, id) else {
            return;
        };
        let mut ranges = [(0u64, 0u32); MAX_AHEAD];
        let noted = self.open[at].ahead(waiting, &mut ranges);
        if noted < 2 {
            return;
        }
        self.export.warm(&ranges[..noted]);
    }

    /// Ends a session.
    pub fn end(&mut self, id: u64) -> Result<(), HubFault>
        ensures ends { OnOk result (EndsOne self.old.0 self.new.0 id) }
        ensures export { self.new.1 ≡ self.old.1 }
        ensures refused { OnErr result ((result ≡ Err HubFault.Unknown) × (self.new ≡ self.old)) }
        ensures unknown { OnErr result (lookup id self.old.0.sessions ≡ None) }
        ensures after { OnOk result ((history : List Step) → IsAfter (E.facts self.old.1) self.old.0 history
            → EndedAfter (E.facts self.new.1) self.new.0 history id) }
    {
        let Some(at) = find(&self.open, id) else {
            return Err(HubFault::Unknown);
        };
        let _ended = self.open.remove(at);
        Ok(())
    }
}
