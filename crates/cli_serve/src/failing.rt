//! What the program prints where a command stopped, and the status for it.
ghost use Rattle.std.specs.Prelude.{◌≡◌, ◌⊎◌};
ghost use Rattle.cli_faults.specs.Faults.{status_for};

use cli_faults::{Failure, print_failure, status_after};
use std::io::Write;

/// Prints why a command stopped, and answers the status for it; 1, where it can't be printed.
pub fn fail<W: Write>(failure: Failure, output: &mut W) -> u8
    ensures { (result ≡ status_for failure) ⊎ (result ≡ 1) }
{
    let printed = print_failure(failure, output);
    status_after(failure, printed)
}
