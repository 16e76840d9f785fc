//! The bad places of a volume that is served, on standard error.

ghost use Rattle.cli_serve.specs.BadPlaces.{AreMet, bad_of};

use crate::bad::Bad;
use crate::named::{Met, Named};
use std::alloc::AllocError;
use std::io;
use std::io::Eprint;
use verity_check::CheckFault;
use verity_hub::Notices;

/// What is printed after the last place that is named.
const NO_MORE: &str =
    "dalgovuun: 1,000 bad places were named; those that are met from here on aren't";

/// Prints the place for which a READ was refused on standard error, the first time that it is met: at most 1,000, and then once that no
/// more are named. What can't be printed is passed over.
#[derive(Drop)]
pub struct BadPlaces<'a, R: Eprint> {
    rt: &'a R,
    named: Named,
}

impl<'a, R: Eprint + AllocGlobal> BadPlaces<'a, R> {
    /// None was met. `AllocError` where there is no memory for 1,000 places.
    pub fn new(rt: &'a R) -> Result<BadPlaces<'a, R>, AllocError> {
        Ok(BadPlaces {
            rt,
            named: Named::new(rt.alloc())?,
        })
    }
}

impl<'a, R: Eprint> Notices for BadPlaces<'a, R> {
    ghost notified = { λ old new fault first last. AreMet old.named new.named (bad_of fault first last) };

    fn refused(&mut self, fault: CheckFault, first: u64, last: u64) {
        if let Some(bad) = Bad::of(fault, first, last) {
            let met = self.named.meet(bad);
            let _ = print(self.rt, bad, met);
        }
    }
}

/// Prints what is to be of a place that was met so.
fn print<R: Eprint>(rt: &R, bad: Bad, met: Met) -> io::Result<()> {
    match met {
        Met::New => eprintln!(rt; "dalgovuun: {bad}"),
        Met::TooMany => rt.eprintln(NO_MORE),
        Met::Known | Met::Silent => Ok(()),
    }
}
