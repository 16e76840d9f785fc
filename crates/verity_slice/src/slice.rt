//! The K-th of N.
ghost use Rattle.std.specs.Prelude.{◌≡◌, ℕ, ◌^◌, ◌≤◌, ◌↔◌, IfSome, None};
ghost use Rattle.verity_slice.specs.Slices.{IsSlice, run_of};

use crate::Run;
use std::marker::Model;

/// How many slices there are at most.
pub const MOST_SLICES: u64 = 65_536;

/// The K-th of N slices, K from 1 to N, and N at most 65,536. A contract sees these two numbers.
#[derive(Clone, Copy, Debug, PartialEq, Eq)]
pub struct Slice {
    index: u64,
    count: u64,
}

impl Model for Slice {
    ghost use Rattle.verity_slice.specs.Slices.{Sliced};

    ghost Value = { Sliced };

    ghost use Rattle.verity_slice.specs.Kept.{sliced, kept, IsKept};

    ghost view = { sliced };

    ghost invariant = { IsKept };

    ghost inverse = { kept };
}

impl Slice {
    /// The slice `index` of `count`, or none where there is no such slice.
    pub fn new(index: u64, count: u64) -> Option<Slice>
        ensures slice { IfSome result (λ slice. slice ≡ record { index = index; count = count }) }
        ensures none { (result ≡ None) ↔ ¬ (IsSlice index count) }
    {
        if index < 1 || count < index || MOST_SLICES < count {
            return None;
        }
        Some(Slice { index, count })
    }

    /// Its number, from 1 on.
    pub fn index(&self) -> u64
        ensures { result ≡ self.now.index }
    {
        self.index
    }

    /// How many slices there are.
    pub fn count(&self) -> u64
        ensures { result ≡ self.now.count }
    {
        self.count
    }

    /// The run of this slice, where so many things are cut.
    pub fn run(&self, len: u64) -> Run
        requires { len ≤ 2 ^ 40 }
        ensures run { result ≡ run_of self.now len }
        ensures order { result.first ≤ result.end }
        ensures within { result.end ≤ len }
    {
        Run {
            first: len * (self.index - 1) / self.count,
            end: len * self.index / self.count,
        }
    }
}
