//! The moments that were, which contracts see and which have no bytes when the program runs.
ghost use Rattle.std.specs.Prelude.{◌≡◌, List, [], ◌∷◌};
ghost use Rattle.std.specs.Borrow.{ftrue};
ghost use Rattle.verity_disks.specs.Tearing.{Three};

use crate::file_device::ThreeFiles;
use crate::three::ThreeDevices;
use std::alloc::Allocator;
use std::marker::Model;
use verity_store::RawFile;

/// How three devices stood at each earlier moment, the last one first. No code can read it.
#[derive(Drop)]
pub struct Past {
    pub ghost moments: { List Three },
}

impl Model for Past {
    ghost also_owns = { λ _. ftrue };
}

impl Past {
    /// No moment was before.
    pub fn new() -> Past
        ensures { result.moments ≡ [] }
    {
        past_of()
    }

    /// Keeps how three devices stand.
    pub fn note<A: Allocator>(&mut self, devices: &ThreeDevices<A>)
        ensures { self.new.moments ≡ devices.now ∷ self.old.moments }
    {
        *self = self.next(devices);
    }

    /// Keeps how three files stand.
    pub fn note_files<F: RawFile>(&mut self, files: &ThreeFiles<F>)
        ensures { self.new.moments ≡ files.now ∷ self.old.moments }
    {
        *self = self.next_of_files(files);
    }

    // A past with one moment more than this one.
    fn next_of_files<F: RawFile>(&self, files: &ThreeFiles<F>) -> Past
        ensures { result.moments ≡ files.now ∷ self.now.moments }
    {
        next_after_files(self, files)
    }

    // A past with one moment more than this one.
    fn next<A: Allocator>(&self, devices: &ThreeDevices<A>) -> Past
        ensures { result.moments ≡ devices.now ∷ self.now.moments }
    {
        next_after(self, devices)
    }
}

// A past of these moments.
fn next_after<A: Allocator>(_past: &Past, _devices: &ThreeDevices<A>) -> Past
    ghost moments: { List Three }
    ensures { result.moments ≡ moments }
{
    past_of()
}

// A past of these moments.
fn next_after_files<F: RawFile>(_past: &Past, _files: &ThreeFiles<F>) -> Past
    ghost moments: { List Three }
    ensures { result.moments ≡ moments }
{
    past_of()
}

// A past of these moments. Only `new`, `next` and `next_of_files` reach it.
fn past_of() -> Past
    ghost moments: { List Three }
    ensures { result.moments ≡ moments }
{
    Past {}
}
