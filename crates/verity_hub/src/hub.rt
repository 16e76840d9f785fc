//! Many sessions over one verifier.

ghost use Rattle.std.specs.Prelude.{◌≡◌, ◌≢◌, ◌↔◌, ◌≤◌, ◌<◌, ◌+◌, ◌*◌, ◌++◌, length, List, [], ℕ, Some, None, IfOk, OnOk, OnErr, Err};
ghost use Rattle.nbd_session.specs.Conversation.{Grows};
ghost use Rattle.nbd_session.specs.Handshake.{greeting};
ghost use Rattle.verity_chain.specs.Right.{Fits};
ghost use Rattle.verity_check.specs.Verifier.{IsOnlyReading, IsVerifier};
ghost use Rattle.nbd_hub.specs.declared.events.HubReply.{HubReply};
ghost use Rattle.nbd_hub.specs.Sessions.{OpensOne, FeedsOne, EndsOne, lookup, max_open, max_opened};
ghost use Rattle.nbd_hub.specs.History.{Step, steps};
ghost use Rattle.nbd_hub.specs.After.{AsksOn, EachAfter, Given, IsAfter, OpenedAfter, FedAfter, EndedAfter};
ghost use Rattle.verity_hub.specs.Verdicts.{facts_of, IsRightFor};

use crate::checked_image::CheckedImage;
use crate::notices::{Notices, Silent};
use nbd_hub::{Event, HubFault, HubReply, Sessions};
use nbd_session::{ExportName, Status};
use std::alloc::{AllocError, Allocator, Global};
use std::marker::Model;
use verity_check::Verifier;
use verity_store::BlockStore;

/// Many NBD sessions over one verifier and its one cache, whose refusals are notified. Contracts see what the sessions offer, the
/// number of the next, those that are open, and the verifier.
#[derive(Drop)]
pub struct Hub<
    D: BlockStore,
    H: BlockStore,
    A: Allocator + Copy + Drop = Global,
    N: Notices = Silent,
> {
    pub(crate) sessions: Sessions<CheckedImage<D, H, A, N>, A>,
}

impl<D: BlockStore, H: BlockStore, A: Allocator + Copy + Drop, N: Notices> Model
    for Hub<D, H, A, N> {
    ghost use Rattle.verity_check.specs.Verifier.{Verifying};
    ghost use Rattle.nbd_hub.specs.Sessions.{HubState};

    ghost Value = { HubState × Verifying D H };

    ghost view = { λ h. h.sessions };
}

impl<D: BlockStore, H: BlockStore, A: Allocator + Copy + Drop> Hub<D, H, A> {
    /// A hub with no session, over an export of this name, of whose refusals nobody is notified. It takes no memory.
    pub fn new(alloc: A, verifier: Verifier<D, H, A>, name: ExportName) -> Hub<D, H, A>
        ensures verifier { result.1 ≡ verifier }
        ensures offer { result.0.offer ≡ record {
          name = name;
          size = verifier.table.data_blocks * verifier.table.data_block_size;
          block = verifier.table.data_block_size;
        } }
        ensures none { (result.0.next ≡ 0) × (result.0.sessions ≡ []) }
        ensures after { IsAfter (facts_of D.BlockStore H.BlockStore verifier) result.0 [] }
    {
        Hub::noticed(alloc, verifier, name, Silent)
    }
}

impl<D: BlockStore, H: BlockStore, A: Allocator + Copy + Drop, N: Notices> Hub<D, H, A, N> {
    /// A hub with no session, over an export of this name, and who is notified of the READs that its verifier refuses with V2 or V3. It
    /// takes no memory.
    pub fn noticed(
        alloc: A,
        verifier: Verifier<D, H, A>,
        name: ExportName,
        notices: N,
    ) -> Hub<D, H, A, N>
        ensures verifier { result.1 ≡ verifier }
        ensures offer { result.0.offer ≡ record {
          name = name;
          size = verifier.table.data_blocks * verifier.table.data_block_size;
          block = verifier.table.data_block_size;
        } }
        ensures none { (result.0.next ≡ 0) × (result.0.sessions ≡ []) }
        ensures after { IsAfter (facts_of D.BlockStore H.BlockStore verifier) result.0 [] }
    {
        Hub {
            sessions: Sessions::new(alloc, CheckedImage::new(verifier, notices), name),
        }
    }

    /// Opens a session, appends the greeting to `out`, and tells the session's number: 0 for the first, and for each one
    /// more than for the one before, whichever have ended.
    ///
    /// # Errors
    ///
    /// The first that applies: H1 where 64 sessions are open, H4 where 2^32 were opened, H2 where memory was refused. A
    /// refused call changes nothing.
    pub fn open<O: Allocator>(&mut self, out: &mut Vec<u8, O>) -> Result<u64, HubFault>
        ensures opens { IfOk result (λ id. OpensOne self.old.0 self.new.0 id) }
        ensures greets { OnOk result (out.new.items ≡ out.old.items ++ greeting) }
        ensures verifier { self.new.1 ≡ self.old.1 }
        ensures full { (result ≡ Err HubFault.Full) ↔ (max_open ≤ length self.old.0.sessions) }
        ensures spent { (result ≡ Err HubFault.Spent) ↔ ((length self.old.0.sessions < max_open) × (max_opened ≤ self.old.0.next)) }
        ensures known { result ≢ Err HubFault.Unknown }
        ensures refused { OnErr result ((self.new ≡ self.old) × (out.new.items ≡ out.old.items)) }
        ensures after { IfOk result (λ id. (history : List Step)
            → IsAfter (facts_of D.BlockStore H.BlockStore self.old.1) self.old.0 history
            → OpenedAfter (facts_of D.BlockStore H.BlockStore self.new.1) self.new.0 history id) }
    {
        self.sessions.open(out)
    }

    /// Feeds a piece of what its client sends to a session, and appends what it says to `out`. It reads blocks for the
    /// READs that the piece makes whole, and no others.
    ///
    /// A session that answers [`Status::Ended`] or [`Status::Starved`] stays open until [`Hub::end`], and answers the same
    /// again.
    ///
    /// # Errors
    ///
    /// H3 where no session of this number is open. A refused call changes nothing.
    pub fn feed<O: Allocator>(
        &mut self,
        id: u64,
        piece: &[u8],
        out: &mut Vec<u8, O>,
    ) -> Result<Status, HubFault>
        ensures feeds { IfOk result (λ status. FeedsOne
            (facts_of D.BlockStore H.BlockStore self.old.1) (facts_of D.BlockStore H.BlockStore self.new.1)
            self.old.0 self.new.0 id piece.now out.old.items out.new.items status) }
        ensures verifier { IsOnlyReading D.BlockStore H.BlockStore self.old.1 self.new.1 }
        ensures refused { OnErr result ((result ≡ Err HubFault.Unknown) × (self.new ≡ self.old) × (out.new.items ≡ out.old.items)) }
        ensures unknown { OnErr result (lookup id self.old.0.sessions ≡ None) }
        ensures after { IfOk result (λ status. (history : List Step)
            → IsAfter (facts_of D.BlockStore H.BlockStore self.old.1) self.old.0 history
            → FedAfter (facts_of D.BlockStore H.BlockStore self.new.1) self.new.0 history id piece.now status out.old.items out.new.items) }
        ensures grows { Grows out.old.items out.new.items }
    {
        self.sessions.feed(id, piece, out)
    }

    /// Ends a session, and drops what it holds.
    ///
    /// # Errors
    ///
    /// H3 where no session of this number is open. A refused call changes nothing.
    pub fn end(&mut self, id: u64) -> Result<(), HubFault>
        ensures ends { OnOk result (EndsOne self.old.0 self.new.0 id) }
        ensures verifier { self.new.1 ≡ self.old.1 }
        ensures refused { OnErr result ((result ≡ Err HubFault.Unknown) × (self.new ≡ self.old)) }
        ensures unknown { OnErr result (lookup id self.old.0.sessions ≡ None) }
        ensures after { OnOk result ((history : List Step) → IsAfter (facts_of D.BlockStore H.BlockStore self.old.1) self.old.0 history
            → EndedAfter (facts_of D.BlockStore H.BlockStore self.new.1) self.new.0 history id) }
    {
        self.sessions.end(id)
    }

    /// Does the events in order, and adds a reply for each. What a session says stands in its `Opened` and `Fed` replies.
    ///
    /// # Errors
    ///
    /// `AllocError` where memory was refused for a reply, and then not all of them have one. Room for a reply is made before its
    /// event, so the events with a reply were done and no other. Every other want of memory is a reply.
    pub fn run<B: Allocator, C: Allocator>(
        &mut self,
        events: &[Event<B>],
        replies: &mut Vec<HubReply<A>, C>,
    ) -> Result<(), AllocError>
        ensures offer { self.new.0.offer ≡ self.old.0.offer }
        ensures verifier { IsOnlyReading D.BlockStore H.BlockStore self.old.1 self.new.1 }
        ensures all { OnOk result (length replies.new.items ≡ length replies.old.items + length events.now) }
        ensures short { OnErr result (length replies.new.items < length replies.old.items + length events.now) }

        // Whatever was done since it was made, and for every image that fits the table line: at the moment of each event, and what it
        // asked the verifier lies between the moment before it and its own.
        ensures ran { (added : List (HubReply A)) × (replies.new.items ≡ replies.old.items ++ added) × (length added ≤ length events.now)
            × ((history : List Step) → IsAfter (facts_of D.BlockStore H.BlockStore self.old.1) self.old.0 history
            → EachAfter (AsksOn (IsOnlyReading D.BlockStore H.BlockStore) (facts_of D.BlockStore H.BlockStore))
            (λ v. Given (facts_of D.BlockStore H.BlockStore v)) self.old.1 self.new.1 self.old.0.offer history events.now added
            × ((image : List (List ℕ)) → Fits self.old.1.table image
            → EachAfter (AsksOn (IsOnlyReading D.BlockStore H.BlockStore) (facts_of D.BlockStore H.BlockStore))
            (λ v. IsRightFor D.BlockStore H.BlockStore v image) self.old.1 self.new.1 self.old.0.offer history events.now added)
            × IsAfter (facts_of D.BlockStore H.BlockStore self.new.1) self.new.0 (history ++ steps events.now added)) }
    {
        self.sessions.export().check();
        self.sessions.run(events, replies)
    }
}
