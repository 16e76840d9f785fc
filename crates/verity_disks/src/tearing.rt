//! One device in memory that tears: its bytes, and what was done since its last sync.
ghost use Rattle.std.specs.Prelude.{◌≡◌, ◌≤◌, [], length, IfOk, OnOk, OnErr};
ghost use Rattle.verity_store.specs.RawFile.{overwritten};
ghost use Rattle.verity_disks.specs.Tearing.{written, resized, read_of, stepped, kept_whole};

use std::alloc::{AllocError, Allocator, Global};
use std::marker::Model;

/// What was done to a device and isn't synced: a change of its length to `at`, or bytes that were written at `at`.
#[derive(Drop)]
pub struct Step<A: Allocator = Global> {
    resizes: bool,
    at: u64,
    bytes: Vec<u8, A>,
}

impl<A: Allocator> Model for Step<A> {
    ghost use Rattle.verity_disks.specs.Tearing.{Step};

    ghost Value = { Step };

    ghost view = { λ step. record { resizes = step.resizes; at = step.at; bytes = step.bytes.items } };
}

impl<A: Allocator> Step<A> {
    // A step.
    fn new(resizes: bool, at: u64, bytes: Vec<u8, A>) -> Step<A>
        ensures { result ≡ record { resizes = resizes; at = at; bytes = bytes.items } }
    {
        Step { resizes, at, bytes }
    }

    /// Whether it changes the length.
    pub fn resizes(&self) -> bool
        ensures { result ≡ self.now.resizes }
    {
        self.resizes
    }

    /// Where it writes, or the length that it gives.
    pub fn at(&self) -> u64
        ensures { result ≡ self.now.at }
    {
        self.at
    }

    /// The bytes that it writes.
    pub fn bytes(&self) -> &[u8]
        ensures { result.now ≡ self.now.bytes }
    {
        &self.bytes
    }
}

/// A device in memory that tears.
#[derive(Drop)]
pub struct TearingDevice<A: Allocator = Global> {
    durable: Vec<u8, A>,
    seen: Vec<u8, A>,
    log: Vec<Step<A>, A>,
}

impl<A: Allocator> Model for TearingDevice<A> {
    ghost use Rattle.std.specs.Prelude.{◌≡◌};
    ghost use Rattle.verity_disks.specs.Tearing.{Kept, replay};

    ghost Value = { Kept };

    ghost view = { λ device. record { durable = device.durable.items; log = device.log.items } };

    ghost invariant = { λ device. device.seen.items ≡ replay device.durable.items device.log.items };
}

// The bytes with these written over them.
#[tactic(auto, using(crate::proofs::Tears::over_end, crate::proofs::Tears::over_inside))]
fn with_written<A: Allocator + Copy>(
    alloc: A,
    seen: &[u8],
    at: usize,
    bytes: &[u8],
) -> Result<Vec<u8, A>, AllocError>
    requires { at ≤ length seen.now }
    ensures { IfOk result (λ next. next.items ≡ overwritten at bytes.now seen.now) }
{
    let mut next = seen[..at].to_vec(alloc)?;
    next.extend_from_slice(bytes)?;
    if seen.len() - at <= bytes.len() {
        return Ok(next);
    }
    next.extend_from_slice(&seen[at + bytes.len()..])?;
    Ok(next)
}

impl<A: Allocator + Copy> TearingDevice<A> {
    /// A device of these bytes, all of them on it. It takes as much memory again.
    pub fn new(alloc: A, bytes: Vec<u8, A>) -> Result<TearingDevice<A>, AllocError>
        ensures { IfOk result (λ device. device ≡ record { durable = bytes.items; log = [] }) }
    {
        Ok(TearingDevice {
            durable: bytes.to_vec(alloc)?,
            seen: bytes,
            log: Vec::new(alloc),
        })
    }

    /// Writes over what is there, and past the end. An error changes nothing.
    pub fn write(&mut self, alloc: A, at: u64, bytes: &[u8]) -> Result<(), AllocError>
        requires { at ≤ length (read_of self.old) }
        ensures ok { OnOk result (self.new ≡ stepped (written at bytes.now) self.old) }
        ensures err { OnErr result (self.new ≡ self.old) }
    {
        let next = with_written(alloc, &self.seen, at as usize, bytes)?;
        self.log.push(Step::new(false, at, bytes.to_vec(alloc)?))?;
        self.seen = next;
        Ok(())
    }

    /// Cuts it, or fills it up with zeros. An error changes nothing.
    pub fn resize(&mut self, alloc: A, len: u64) -> Result<(), AllocError>
        ensures ok { OnOk result (self.new ≡ stepped (resized len) self.old) }
        ensures err { OnErr result (self.new ≡ self.old) }
    {
        let mut next = self.seen.to_vec(alloc)?;
        next.resize(len as usize, 0)?;
        self.log.push(Step::new(true, len, Vec::new(alloc)))?;
        self.seen = next;
        Ok(())
    }

    /// Brings all of it onto the device. An error changes nothing.
    pub fn sync(&mut self, alloc: A) -> Result<(), AllocError>
        ensures ok { OnOk result (self.new ≡ kept_whole self.old) }
        ensures err { OnErr result (self.new ≡ self.old) }
    {
        self.durable = self.seen.to_vec(alloc)?;
        self.log.clear();
        Ok(())
    }

    /// The bytes that are on the device.
    pub fn durable(&self) -> &[u8]
        ensures { result.now ≡ self.now.durable }
    {
        &self.durable
    }

    /// What was done since the last sync, the first step first.
    pub fn unsynced(&self) -> &[Step<A>]
        ensures { result.now ≡ self.now.log }
    {
        &self.log
    }

    /// What is read.
    pub fn seen(&self) -> &[u8]
        ensures { result.now ≡ read_of self.now }
    {
        &self.seen
    }
}
