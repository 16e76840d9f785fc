//! Who is notified of what a verifier refuses.

ghost use Rattle.std.specs.Prelude.{ℕ};
ghost use Rattle.verity_check.specs.declared.fault.CheckFault.{CheckFault};

use verity_check::CheckFault;

/// Who is notified of each READ that a verifier refused for a block of its stores.
pub trait Notices {
    /// What lies between the values before and after one notice: of this fault, for a READ that touches the data blocks from this first to
    /// this last one.
    ghost notified: { Self → Self → CheckFault → ℕ → ℕ → Type 0 };

    /// A READ that touches the data blocks from `first` to `last` was refused with this fault: V2, a block that isn't the one that was
    /// built, or V3, one that can't be read.
    fn refused(&mut self, fault: CheckFault, first: u64, last: u64)
        ensures { notified self.old self.new fault first last };
}

/// Nobody is notified.
#[derive(Clone, Copy, Debug, Drop)]
pub struct Silent;

impl Notices for Silent {
    ghost notified = { λ old new fault first last. Unit {0} };

    fn refused(&mut self, _fault: CheckFault, _first: u64, _last: u64) {}
}
