//! The blocks below the hash blocks of a level that is made again, of which many may have one digest.
ghost use Rattle.std.specs.Prelude.{◌≡◌, ℕ, ◌+◌, ◌-◌, ◌<◌, ◌≤◌, ◌^◌, nat_lt, true, false, [], ◌∷◌, ◌++◌, length, take, IfOk, OnOk};
ghost use Rattle.std.specs.List.Sorted.{IsNonDecreasingBy, IsPartitionPoint};
ghost use Rattle.verity_pending.specs.Slots.{child_at};
ghost use Rattle.verity_pending.specs.Children.{digest_among, spread};

use crate::child::Child;
use std::alloc::{AllocError, Allocator};
use std::marker::Model;
use verity_digest::Digest;

/// The blocks below the hash blocks of a level. A contract sees the list of all. Those of a run that have one digest take no
/// memory of their own.
#[derive(Drop)]
pub struct Children<A: Allocator> {
    named: Vec<Child, A>,
    before: usize,
    from: u64,
    to: u64,
    common: Digest,
    behind: Vec<Child, A>,
}

impl<A: Allocator> Model for Children<A> {
    ghost use Rattle.verity_pending.specs.Children.{Listed};

    ghost Value = { Listed };

    ghost use Rattle.verity_pending.specs.Spread.{listed, IsSpread};

    ghost view = { listed };

    ghost invariant = { IsSpread };
}

/// The digest of block `number`: that of the one of these that has its number, or else the common one.
fn digest_among(named: &[Child], common: Digest, number: u64) -> Digest
    requires rising { IsNonDecreasingBy (λ child. child.number) named.now }
    ensures { result ≡ digest_among named.now common number }
{
    let at = named.partition_point(|child| child.number < number);
    if at < named.len() && named[at].number == number {
        return named[at].digest;
    }
    common
}

impl<A: Allocator + Copy> Children<A> {
    /// None yet, and room for this many.
    pub fn with_room(alloc: A, count: usize) -> Result<Self, AllocError>
        ensures { IfOk result (λ children. children.items ≡ []) }
    {
        let behind = Vec::with_capacity(alloc, count)?;
        Ok(Children {
            named: Vec::new(alloc),
            before: 0,
            from: 0,
            to: 0,
            common: Digest::from_bytes([0; 32]),
            behind,
        })
    }

    /// The first `before` of these, whose numbers rise, and all blocks from `from` to before `to`: with the digest of the one of
    /// these that has its number, or else the common one. Those that are added behind them take the room of `behind`.
    pub fn spread(
        named: Vec<Child, A>,
        before: usize,
        from: u64,
        to: u64,
        common: Digest,
        behind: Vec<Child, A>,
    ) -> Self
        requires none_behind { behind.items ≡ [] }
        requires before { before ≤ length named.items }
        requires order { from ≤ to }
        requires few { before + to < 2 ^ 63 }
        requires rising { IsNonDecreasingBy (λ child. child.number) named.items }
        ensures { result.items ≡ take before named.items ++ spread named.items common from to }
    {
        Children {
            named,
            before,
            from,
            to,
            common,
            behind,
        }
    }

    /// How many they are.
    pub fn len(&self) -> usize
        ensures { result ≡ length self.now.items }
    {
        self.before + (self.to - self.from) as usize + self.behind.len()
    }

    /// Child `c`. Its time grows with the logarithm of how many were named.
    pub fn at(&self, c: usize) -> Child
        requires { c < length self.now.items }
        ensures { result ≡ child_at self.now.items c }
    {
        if c < self.before {
            return self.named[c];
        }
        let place = c - self.before;
        let run = (self.to - self.from) as usize;
        if place < run {
            let number = self.from + place as u64;
            return Child {
                number,
                digest: digest_among(&self.named, self.common, number),
            };
        }
        self.behind[place - run]
    }

    /// Adds a child behind all others.
    pub fn push(&mut self, child: Child) -> Result<(), AllocError>
        ensures { OnOk result (self.new.items ≡ self.old.items ++ child ∷ []) }
    {
        self.behind.push(child)?;
        Ok(())
    }

    /// The first child whose number isn't below this one, where the numbers rise.
    pub fn first_from(&self, number: u64) -> usize
        ensures most { result ≤ length self.now.items }
        ensures parted { IsNonDecreasingBy (λ child. child.number) self.now.items
            → IsPartitionPoint (λ child. nat_lt child.number number ≡ true) (λ child. nat_lt child.number number ≡ false) self.now.items
            result }
    {
        let mut least = 0;
        let mut most = self.len();
        while least < most {
            let middle = least + (most - least) / 2;
            if self.at(middle).number < number {
                least = middle + 1;
            } else {
                most = middle;
            }
        }
        least
    }
}
