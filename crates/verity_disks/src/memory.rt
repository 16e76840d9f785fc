//! Three devices in memory that tear, under one clock.
ghost use Rattle.std.specs.Prelude.{◌≡◌, ◌⊎◌, [], ◌∷◌, length, IfOk};
ghost use Rattle.std.proofs.Common.{inl};
ghost use Rattle.verity_disks.specs.Tearing.{kept_of, all_read, AllMayLeave, MightHaveLeft};
ghost use Rattle.verity_disks.specs.Past.{no_later};

use crate::past::Past;
use crate::three::ThreeDevices;
use crate::{Device, DiskFault, Disks, TearingDevice};
use base_count::Count;
use std::alloc::{AllocError, Allocator, Global};

/// Three devices in memory that tear: of what isn't synced a stop may leave anything, as the clauses of [`Disks`] have it. They
/// end after a number of calls: from then on each call that may fail fails, as when a process is killed. A call fails too where
/// memory is refused. They keep all that was done since each device's last sync, so that a test can list what a stop leaves.
#[derive(Drop)]
pub struct TearingDisks<A: Allocator = Global> {
    alloc: A,
    devices: ThreeDevices<A>,
    calls_left: u64,
    failed: Count,
    past: Past,
}

impl<A: Allocator + Copy> TearingDisks<A> {
    /// Three devices of these bytes, all of them on the devices, that end after `calls` calls. It takes as much memory again.
    pub fn new(
        alloc: A,
        on_data: Vec<u8, A>,
        on_hash: Vec<u8, A>,
        on_journal: Vec<u8, A>,
        calls: u64,
    ) -> Result<TearingDisks<A>, AllocError>
        ensures devices { IfOk result (λ d. d.devices ≡ record {
          on_data = record { durable = on_data.items; log = [] };
          on_hash = record { durable = on_hash.items; log = [] };
          on_journal = record { durable = on_journal.items; log = [] };
        }) }
        ensures calls { IfOk result (λ d. d.calls_left ≡ calls) }
        ensures failed { IfOk result (λ d. d.failed.steps ≡ 0) }
    {
        let data_device = TearingDevice::new(alloc, on_data)?;
        let hash_device = TearingDevice::new(alloc, on_hash)?;
        let journal_device = TearingDevice::new(alloc, on_journal)?;
        Ok(TearingDisks {
            alloc,
            devices: ThreeDevices::new(data_device, hash_device, journal_device),
            calls_left: calls,
            failed: Count::new(),
            past: Past::new(),
        })
    }

    /// One of the devices.
    pub fn device(&self, device: Device) -> &TearingDevice<A>
        ensures { result.now ≡ kept_of self.now.devices device }
    {
        self.devices.device(device)
    }

    // Counts a call, and keeps the moment before it; false where no call is left.
    fn goes_on(&mut self) -> bool
        ensures devices { self.new.devices ≡ self.old.devices }
        ensures failed { self.new.failed.steps ≡ self.old.failed.steps }
        ensures past { self.new.past.moments ≡ self.old.devices ∷ self.old.past.moments }
    {
        self.past.note(&self.devices);
        if self.calls_left == 0 {
            return false;
        }
        self.calls_left -= 1;
        true
    }
}

impl<A: Allocator + Copy> Disks for TearingDisks<A> {
    ghost seen = { λ d. all_read d.devices };

    ghost may_leave = { λ d c. AllMayLeave d.devices c };

    ghost moment = { λ d. length d.past.moments };

    ghost left_since = { λ d t c. AllMayLeave d.devices c ⊎ MightHaveLeft t d.past.moments c };

    ghost faults = { λ d. d.failed.steps };

    ghost counts_now = { λ d t c le now. inl now };

    ghost only_now = { λ d c left. no_later d.past.moments (AllMayLeave d.devices c) c left };

    fn write_at(&mut self, device: Device, at: u64, bytes: &[u8]) -> Result<(), DiskFault> {
        let goes_on = self.goes_on();
        if goes_on && self.devices.write(self.alloc, device, at, bytes).is_ok() {
            return Ok(());
        }
        self.failed.step();
        Err(DiskFault::Device)
    }

    fn set_len(&mut self, device: Device, len: u64) -> Result<(), DiskFault> {
        let goes_on = self.goes_on();
        if goes_on && self.devices.resize(self.alloc, device, len).is_ok() {
            return Ok(());
        }
        self.failed.step();
        Err(DiskFault::Device)
    }

    fn sync(&mut self, device: Device) -> Result<(), DiskFault> {
        let goes_on = self.goes_on();
        if goes_on && self.devices.sync(self.alloc, device).is_ok() {
            return Ok(());
        }
        self.failed.step();
        Err(DiskFault::Device)
    }

    fn len(&self, device: Device) -> u64 {
        self.devices.device(device).seen().len() as u64
    }

    fn read_at(&mut self, device: Device, at: u64, out: &mut [u8]) -> Result<(), DiskFault> {
        if !self.goes_on() {
            self.failed.step();
            return Err(DiskFault::Device);
        }
        let seen = self.devices.device(device).seen();
        let end = at as usize + out.len();
        out.copy_from_slice(&seen[at as usize..end]);
        Ok(())
    }
}
