//! A session.

ghost use Rattle.std.specs.Prelude.{◌≡◌, ◌≤◌, ◌<◌, ◌+◌, ◌++◌, ℕ, List, [], length, take, false, All, IfOk, OnOk, OnErr, IsOk, Err};
ghost use Rattle.std.specs.Prelude.{vec_len, vec_capacity};
ghost use Rattle.nbd_session.specs.Handshake.{greeting};
ghost use Rattle.nbd_session.specs.Protocol.{short};
ghost use Rattle.nbd_session.specs.Session.{Feeds, IsAt, added};
ghost use Rattle.nbd_session.specs.Short.{asked};
ghost use Rattle.nbd_session.specs.Export.{IsWithin};
ghost use Rattle.nbd_session.specs.Announcing.{AsksFirst};
ghost use Rattle.nbd_session.specs.Conversation.{Grows};

use crate::ahead::note;
use crate::conversation::turns;
use crate::export::Export;
use crate::fault::SessionFault;
use crate::handshake::greeting;
use crate::inbox::Inbox;
use crate::offer::{ExportName, Offer};
use crate::phase::Phase;
use crate::status::Status;
use crate::transmission::{HEADER_BYTES, asked};
use std::alloc::{Allocator, Global};
use std::marker::Model;

/// One client's session with a server of one export.
///
/// Contracts see its `offer`, its `phase`, what is kept of an unfinished message (`held` and `missing`) and whether it
/// is `starved`. It holds at most one unfinished message, on its own allocator, and none of its export's bytes.
#[derive(Drop)]
pub struct Session<A: Allocator = Global> {
    offer: Offer,
    inbox: Inbox<A>,
    starved: bool,
}

impl<A: Allocator> Model for Session<A> {
    ghost use Rattle.nbd_session.specs.Session.{State};
    ghost use Rattle.nbd_session.specs.Inbox.{IsInForm};

    ghost Value = { State };

    ghost view = { λ s. record {
      offer = s.offer;
      phase = s.inbox.phase;
      held = s.inbox.held.items;
      missing = s.inbox.missing;
      starved = s.starved;
    } };

    ghost invariant = { λ s. IsInForm s.inbox };
}

impl<A: Allocator> Session<A> {
    /// Opens a session over an export of this name, size and block size in bytes, and appends the greeting to `out`.
    /// It is at the empty input. The session's own memory comes from `alloc`, and none is taken yet.
    ///
    /// # Errors
    ///
    /// P2 [`SessionFault::NoMemory`], only where `out` hadn't the room for 18 bytes; `out` is then as before.
    pub fn open<O: Allocator>(
        alloc: A,
        name: ExportName,
        size: u64,
        block: u32,
        out: &mut Vec<u8, O>,
    ) -> Result<Session<A>, SessionFault>
        ensures offer { IfOk result (λ session. session.offer ≡ record { name = name; size = size; block = block }) }
        ensures at { IfOk result (λ session. IsAt session []) }
        ensures begins { IfOk result (λ session. (session.phase ≡ Phase.Flags) × (session.starved ≡ false)) }
        ensures greets { OnOk result (out.new.items ≡ out.old.items ++ greeting) }
        ensures room { vec_len out.old + 18 ≤ vec_capacity out.old → IsOk result }
        ensures err { OnErr result ((result ≡ Err SessionFault.NoMemory) × (out.new.items ≡ out.old.items)) }
    {
        match out.extend_from_slice(&greeting()) {
            Ok(()) => Ok(Session {
                offer: Offer { name, size, block },
                inbox: Inbox {
                    phase: Phase::Flags,
                    held: Vec::new(alloc),
                    missing: 0,
                },
                starved: false,
            }),
            Err(_) => Err(SessionFault::NoMemory),
        }
    }

    /// Takes in a piece of what the client sends, of any length, and appends to `out` the replies to each message that
    /// it makes whole. The caller owes an export of the size that the session was opened with, and of its block size.
    ///
    /// For every input that the session was at, it is then at that input and the piece, and what it appended is what
    /// the longer talk adds. A READ that is allowed and not empty asks the export once; its bytes go straight into
    /// `out`. Want of memory of the export is answered ENOMEM. Once the negotiation is over, a piece of at most 28 bytes, as
    /// short as a request's header, adds at most 33,554,448.
    ///
    /// [`Status::Ended`] exactly where the talk has ended. [`Status::Starved`] where memory was refused for the input
    /// or for a reply's framing: `out` is then as before the feed. Both answers last, and append nothing further.
    pub fn feed<E: Export, O: Allocator>(
        &mut self,
        piece: &[u8],
        export: &mut E,
        out: &mut Vec<u8, O>,
    ) -> Status
        requires { self.old.offer.size ≡ (E.facts export.old).size }
        ensures feeds { Feeds (E.facts export.old) (E.facts export.new) self.old self.new piece.now out.old.items out.new.items result }
        ensures later { E.later export.old export.new }
        ensures grows { Grows out.old.items out.new.items }
    {
        if self.starved {
            return Status::Starved;
        }
        if let Phase::Ended = self.inbox.phase {
            return Status::Ended;
        }
        let start = out.len();
        match turns(&self.offer, &mut self.inbox, piece, export, out) {
            Ok(()) => Status::of(self.inbox.phase),
            Err(_) => {
                out.truncate(start);
                self.inbox.begin(Phase::Ended);
                self.starved = true;
                Status::Starved
            }
        }
    }

    /// How many bytes of the export a piece of at most 28 bytes asks for: the length of the READ that it makes whole, if
    /// that is allowed, and else none. A feed of it adds at most 16 bytes more, once the negotiation is over
    /// ([`laws::short_pieces_reply_within`](crate::laws::short_pieces_reply_within)).
    pub fn asks(&self, piece: &[u8]) -> u32
        requires { length piece.now ≤ short }
        ensures { (input : List ℕ) → self.now.starved ≡ false → IsAt self.now input
            → result ≡ asked (added self.now.offer input piece.now) }
    {
        match self.inbox.phase {
            Phase::Transmission => {}
            _ => return 0,
        }
        let begun = self.inbox.held.len().min(HEADER_BYTES);
        let more = HEADER_BYTES - begun;
        if piece.len() < more {
            return 0;
        }
        let mut header = [0u8; HEADER_BYTES];
        header[..begun].copy_from_slice(&self.inbox.held[..begun]);
        header[begun..].copy_from_slice(&piece[..more]);
        asked(self.offer.size, &header)
    }

    /// Notes in `ranges`, an offset and a length each, what the READs ask for that the waiting bytes begin with, in order, and
    /// returns how many it noted: the whole headers from the first byte on, up to the first request that isn't a READ of some
    /// bytes that is allowed, and no more than `ranges` has places. None where the session isn't in transmission, or the next
    /// byte doesn't begin a request.
    ///
    /// A feed of the waiting bytes asks the export for these ranges first. It costs a look at each header, and takes no memory.
    pub fn ahead(&self, waiting: &[u8], ranges: &mut [(u64, u32)]) -> usize
        ensures count { result ≤ length ranges.new }
        ensures within { All (IsWithin self.now.offer.size) (take result ranges.new) }
        ensures phase { 0 < result → self.now.phase ≡ Phase.Transmission }
        ensures asks { (input : List ℕ) → self.now.starved ≡ false → IsAt self.now input
            → AsksFirst (take result ranges.new) (added self.now.offer input waiting.now) }
    {
        match self.inbox.phase {
            Phase::Transmission => {}
            _ => return 0,
        }
        if !self.inbox.held.is_empty() {
            return 0;
        }
        note(&self.offer, waiting, ranges)
    }
}
