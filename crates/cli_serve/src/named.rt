//! Which bad places were named.
ghost use Rattle.std.specs.Prelude.{◌≡◌, ◌↔◌, [], false, Contains, IsTrue, IfOk};
ghost use Rattle.cli_serve.specs.BadPlaces.{IsMet};

use crate::bad::Bad;
use std::alloc::{AllocError, Global};
use std::marker::Model;

/// How many places are named at most.
const MOST: usize = 1000;

/// What is printed of a bad place that is met.
#[derive(Clone, Copy, Debug, PartialEq, Eq)]
pub enum Met {
    /// The place, which wasn't met before.
    New,
    /// Nothing: it was named.
    Known,
    /// That no more are named, of which it is the first.
    TooMany,
    /// Nothing: that was printed.
    Silent,
}

/// The bad places that were named, at most 1,000, and whether it was printed that no more are. It has memory for 1,000 from the start.
#[derive(Drop)]
pub struct Named {
    places: Vec<Bad>,
    is_over: bool,
}

impl Model for Named {
    ghost use Rattle.std.specs.Prelude.{◌≤◌, vec_capacity};
    ghost use Rattle.cli_serve.specs.Naming.{Naming};

    ghost Value = { Naming };

    ghost view = { λ named. record { places = named.places.items; is_over = named.is_over } };

    ghost invariant = { λ named. 1000 ≤ vec_capacity named.places };
}

impl Named {
    /// None was named. `AllocError` where there is no memory for 1,000 places.
    pub fn new(alloc: Global) -> Result<Named, AllocError>
        ensures { IfOk result (λ named. named ≡ record { places = []; is_over = false }) }
    {
        Ok(Named {
            places: Vec::with_capacity(alloc, MOST)?,
            is_over: false,
        })
    }

    /// What is printed of a bad place that is met now. It compares the place with each that was named.
    pub fn meet(&mut self, bad: Bad) -> Met
        ensures { IsMet self.old self.new bad result }
    {
        if has(self.places.as_slice(), bad) {
            return Met::Known;
        }
        if self.places.len() < MOST {
            self.places.push_reserved(bad);
            return Met::New;
        }
        if self.is_over {
            return Met::Silent;
        }
        self.is_over = true;
        Met::TooMany
    }
}

/// Whether a place is among these.
fn has(places: &[Bad], bad: Bad) -> bool
    ensures { IsTrue result ↔ Contains places.now bad }
{
    places.contains(&bad)
}
