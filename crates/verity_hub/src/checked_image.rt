//! A verifier as what sessions read from.

ghost use Rattle.std.specs.Prelude.{◌≡◌};
ghost use Rattle.verity_check.specs.Verifier.{IsOnlyReading, IsVerifier};
ghost use Rattle.verity_hub.specs.Verdicts.{answer_of, facts_of};

use crate::noticed::Noticed;
use crate::notices::{Notices, Silent};
use nbd_session::{Export, ExportFault};
use std::alloc::{Allocator, Global};
use std::marker::Model;
use verity_check::{CheckFault, Verifier};
use verity_store::BlockStore;

/// A verifier as an export, which notifies of its refusals. Contracts see the verifier.
#[derive(Drop)]
pub struct CheckedImage<D: BlockStore, H: BlockStore, A: Allocator = Global, N: Notices = Silent> {
    image: Noticed<D, H, A, N>,
}

impl<D: BlockStore, H: BlockStore, A: Allocator, N: Notices> Model for CheckedImage<D, H, A, N> {
    ghost use Rattle.verity_check.specs.Verifier.{Verifying};

    ghost Value = { Verifying D H };

    ghost view = { λ v. v.image.verifier };
}

impl<D: BlockStore, H: BlockStore, A: Allocator, N: Notices> CheckedImage<D, H, A, N> {
    /// Takes over a verifier, and who is notified of its refusals.
    pub fn new(verifier: Verifier<D, H, A>, notices: N) -> CheckedImage<D, H, A, N>
        ensures { result ≡ verifier }
    {
        CheckedImage {
            image: Noticed::new(verifier, notices),
        }
    }

    /// What is true of every verifier.
    pub fn check(&self)
        ensures { IsVerifier D.BlockStore H.BlockStore self.now }
    {
        let _size = self.image.verifier().size();
    }
}

/// An answer as a session takes it: a refusal is want of memory, or else Io.
fn export_answer(answer: Result<(), CheckFault>) -> Result<(), ExportFault>
    ensures { result ≡ answer_of answer }
{
    match answer {
        Ok(()) => Ok(()),
        Err(CheckFault::NoMemory) => Err(ExportFault::NoMemory),
        Err(
            CheckFault::Mismatch(_)
            | CheckFault::Store(_)
            | CheckFault::Lengths
            | CheckFault::CacheSize,
        ) => Err(ExportFault::Io),
    }
}

impl<D, H, A, N> Export for CheckedImage<D, H, A, N>
where
    D: BlockStore,
    H: BlockStore,
    A: Allocator + Copy + Drop,
    N: Notices,
{
    ghost facts = { λ v. facts_of D.BlockStore H.BlockStore v };

    ghost later = { λ old new. IsOnlyReading D.BlockStore H.BlockStore old new };

    fn size(&self) -> u64 {
        self.image.verifier().size()
    }

    fn block(&self) -> u32 {
        self.check();
        self.image.verifier().table().data_block_size() as u32
    }

    fn read_at<B: Allocator>(
        &mut self,
        offset: u64,
        len: usize,
        out: &mut Vec<u8, B>,
    ) -> Result<(), ExportFault> {
        self.check();
        let answer = self.image.read_at(offset, len, out);
        export_answer(answer)
    }

    fn warm(&mut self, ranges: &[(u64, u32)]) {
        self.image.warm(ranges);
    }

    ghost use Rattle.verity_hub.specs.Reading.{reading_same, reading_on};

    ghost later_same = { λ v. reading_same
        (record {
          size = D.size;
          content = D.content;
          tells = D.tells;
          given = D.given;
          failures = D.failures;
          reads = D.reads;
          changes = D.changes;
          room = D.room;
          synced = D.synced;
          fixed = D.fixed;
        })
        (record {
          size = H.size;
          content = H.content;
          tells = H.tells;
          given = H.given;
          failures = H.failures;
          reads = H.reads;
          changes = H.changes;
          room = H.room;
          synced = H.synced;
          fixed = H.fixed;
        }) v };

    ghost later_on = { λ u v w. reading_on
        (record {
          size = D.size;
          content = D.content;
          tells = D.tells;
          given = D.given;
          failures = D.failures;
          reads = D.reads;
          changes = D.changes;
          room = D.room;
          synced = D.synced;
          fixed = D.fixed;
        })
        (record {
          size = H.size;
          content = H.content;
          tells = H.tells;
          given = H.given;
          failures = H.failures;
          reads = H.reads;
          changes = H.changes;
          room = H.room;
          synced = H.synced;
          fixed = H.fixed;
        }) u v w };
}
