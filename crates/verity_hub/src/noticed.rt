//! A verifier each refusal of which is notified.

ghost use Rattle.std.specs.Prelude.{◌≡◌, ◌≢◌, ◌+◌, ◌-◌, ◌*◌, ◌/◌, ◌<◌, ◌≤◌, ◌++◌, ℕ, List, OnOk, OnErr, IfErr, vec_len, vec_capacity};
ghost use Rattle.verity_chain.specs.Table.{height};
ghost use Rattle.verity_check.specs.Range.{touched, ServesBytes};
ghost use Rattle.verity_check.specs.Refusal.{Refuses};
ghost use Rattle.verity_check.specs.Verifier.{given_to, IsOnlyReading, DataFailed, HashFailed, MayRefuse};
ghost use Rattle.verity_hub.specs.Noticed.{IsNoticed};

use crate::notices::Notices;
use std::alloc::Allocator;
use verity_check::{CheckFault, Verifier};
use verity_store::BlockStore;

/// A verifier, and who is notified of its refusals. Nothing is served of it but by [`Noticed::read_at`].
#[derive(Drop)]
pub(crate) struct Noticed<D: BlockStore, H: BlockStore, A: Allocator, N: Notices> {
    verifier: Verifier<D, H, A>,
    notices: N,
}

impl<D: BlockStore, H: BlockStore, A: Allocator, N: Notices> Noticed<D, H, A, N> {
    /// Takes over a verifier.
    pub(crate) fn new(verifier: Verifier<D, H, A>, notices: N) -> Noticed<D, H, A, N>
        ensures { result ≡ record { verifier = verifier; notices = notices } }
    {
        Noticed { verifier, notices }
    }

    /// The verifier, to be looked at.
    pub(crate) fn verifier(&self) -> &Verifier<D, H, A>
        ensures { result.now ≡ self.now.verifier }
    {
        &self.verifier
    }
}

impl<D: BlockStore, H: BlockStore, A: Allocator + Copy + Drop, N: Notices> Noticed<D, H, A, N> {
    /// The verifier's own [`Verifier::read_at`], with its faults and its costs. A refusal with V2 or V3 is notified once, with the data
    /// blocks that the range touches, and nothing else is.
    pub(crate) fn read_at<B: Allocator>(
        &mut self,
        offset: u64,
        len: usize,
        out: &mut Vec<u8, B>,
    ) -> Result<(), CheckFault>
        requires { offset + len ≤ self.old.verifier.table.data_blocks * self.old.verifier.table.data_block_size }
        ensures ok { OnOk result ((bytes : List ℕ) × (out.new.items ≡ out.old.items ++ bytes)
            × ServesBytes self.new.verifier.table (given_to D.BlockStore H.BlockStore self.new.verifier) offset len bytes) }
        ensures refused { IfErr result (Refuses self.new.verifier.table (given_to D.BlockStore H.BlockStore self.new.verifier)
            (DataFailed D.BlockStore H.BlockStore self.old.verifier self.new.verifier)
            (HashFailed D.BlockStore H.BlockStore self.old.verifier self.new.verifier) offset len) }
        ensures may_refuse { IfErr result (λ fault. fault ≢ CheckFault.NoMemory
            → MayRefuse D.BlockStore H.BlockStore self.new.verifier offset len) }
        ensures memory { IfErr result (λ fault. fault ≡ CheckFault.NoMemory → vec_capacity out.old < vec_len out.old + len) }
        ensures unread { IfErr result (λ fault. fault ≡ CheckFault.NoMemory
            → (D.reads self.new.verifier.data_store ≡ D.reads self.old.verifier.data_store)
            × (H.reads self.new.verifier.hash_store ≡ H.reads self.old.verifier.hash_store)) }
        ensures unchanged { OnErr result (out.new.items ≡ out.old.items) }
        ensures keeps { IsOnlyReading D.BlockStore H.BlockStore self.old.verifier self.new.verifier }
        ensures data_reads { D.reads self.new.verifier.data_store
            ≤ D.reads self.old.verifier.data_store + touched self.old.verifier.table offset len }
        ensures hash_reads { H.reads self.new.verifier.hash_store ≤ H.reads self.old.verifier.hash_store
            + touched self.old.verifier.table offset len * height self.old.verifier.table }
        ensures noticed { IsNoticed N.Notices self.old.notices self.new.notices
            (offset / self.old.verifier.table.data_block_size) ((offset + len - 1) / self.old.verifier.table.data_block_size) result }
    {
        let _end = self.verifier.size();
        let size = self.verifier.table().data_block_size() as u64;
        let first = offset / size;
        let last = (offset + len as u64).saturating_sub(1) / size;
        let answer = self.verifier.read_at(offset, len, out);
        notice(&mut self.notices, answer, first, last);
        answer
    }

    /// The verifier's own [`Verifier::warm`]. Nobody is notified: a block that isn't right is refused to the READ that asks for it.
    pub(crate) fn warm(&mut self, ranges: &[(u64, u32)])
        ensures keeps { IsOnlyReading D.BlockStore H.BlockStore self.old.verifier self.new.verifier }
        ensures silent { self.new.notices ≡ self.old.notices }
    {
        self.verifier.warm(ranges);
    }
}

/// Notifies of a refusal for a block.
fn notice<N: Notices>(notices: &mut N, answer: Result<(), CheckFault>, first: u64, last: u64)
    ensures { IsNoticed N.Notices notices.old notices.new first last answer }
{
    match answer {
        Err(CheckFault::Mismatch(place)) => {
            notices.refused(CheckFault::Mismatch(place), first, last);
        }
        Err(CheckFault::Store(which)) => notices.refused(CheckFault::Store(which), first, last),
        Ok(()) | Err(CheckFault::NoMemory | CheckFault::Lengths | CheckFault::CacheSize) => {}
    }
}
