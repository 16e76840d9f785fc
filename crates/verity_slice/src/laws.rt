//! How runs are cut. The function does nothing but hold a law as its contract.
ghost use Rattle.std.specs.Prelude.{ℕ, ◌<◌};
ghost use Rattle.verity_slice.specs.Slices.{CutsEvenly};

/// The runs of all slices follow one another from the first thing to the last, and none is longer than another by more than one.
pub fn cuts_evenly()
    ensures { (len count : ℕ) → 0 < count → CutsEvenly len count }
{}
