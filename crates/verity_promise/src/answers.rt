//! Any list of events, over any stores.

ghost use Rattle.std.specs.Prelude.{◌≡◌, ◌+◌, ◌↔◌, length, Err, OnOk, IfErr, IsErrOf};
ghost use Rattle.verity_check.specs.Verifier.{AreStoresOf, IsCacheSize};
ghost use Rattle.verity_promise.specs.Answers.{AreRightAnswers, ExplainsUnanswered};

use nbd_hub::{Event, HubReply};
use nbd_session::ExportName;
use std::alloc::Allocator;
use verity_check::{CheckFault, Verifier};
use verity_hub::Hub;
use verity_store::BlockStore;
use verity_superblock::Table;

/// Why events weren't answered, or not all.
#[derive(Clone, Copy, Debug, PartialEq, Eq)]
pub enum AnswerFault {
    /// No verifier could be made, and no event was done.
    Check(CheckFault),
    /// Memory for a reply was refused; the events with a reply were done and no other.
    Memory,
}

/// Makes a verifier of the volume that the table line describes, over these very stores, and a hub, and does the events in
/// order with one reply each: many sessions over one cache.
///
/// # Errors
///
/// The first that applies: V1, V5, V4, as [`Verifier::new`]; `Memory`. The stores are dropped in the end.
pub fn answer_events<D: BlockStore + Drop, H: BlockStore + Drop, A: Allocator + Copy + Drop>(
    alloc: A,
    table: Table<A>,
    data_store: D,
    hash_store: H,
    cache: usize,
    name: ExportName,
    events: &[Event<A>],
    replies: &mut Vec<HubReply<A>, A>,
) -> Result<(), AnswerFault>
    ensures right { OnOk result (AreRightAnswers D.BlockStore H.BlockStore table data_store hash_store name events.now
        replies.old.items replies.new.items) }
    ensures all { OnOk result (length replies.new.items ≡ length replies.old.items + length events.now) }
    ensures lengths { IsErrOf result (AnswerFault.Check CheckFault.Lengths) ↔ ¬ (AreStoresOf D.BlockStore H.BlockStore table
        data_store hash_store) }
    ensures cache_size { IsErrOf result (AnswerFault.Check CheckFault.CacheSize) ↔ (AreStoresOf D.BlockStore H.BlockStore table
        data_store hash_store × ¬ IsCacheSize cache) }
    ensures refused { IfErr result (ExplainsUnanswered D.BlockStore H.BlockStore table data_store hash_store name events.now
        replies.old.items replies.new.items) }
{
    let verifier = match Verifier::new(alloc, table, data_store, hash_store, cache) {
        Ok(verifier) => verifier,
        Err(fault) => return Err(AnswerFault::Check(fault)),
    };
    let mut hub = Hub::new(alloc, verifier, name);
    match hub.run(events, replies) {
        Ok(()) => Ok(()),
        Err(_) => Err(AnswerFault::Memory),
    }
}
