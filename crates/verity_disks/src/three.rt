//! Three devices in memory that tear.
ghost use Rattle.std.specs.Prelude.{◌≡◌, ◌≤◌, length, OnOk, OnErr};
ghost use Rattle.verity_disks.specs.Tearing.{written, resized, read_of, kept_of, with_kept, stepped, kept_whole};

use crate::{Device, TearingDevice};
use std::alloc::{AllocError, Allocator, Global};
use std::marker::Model;

/// Three devices in memory that tear.
#[derive(Drop)]
pub struct ThreeDevices<A: Allocator = Global> {
    data_device: TearingDevice<A>,
    hash_device: TearingDevice<A>,
    journal_device: TearingDevice<A>,
}

impl<A: Allocator> Model for ThreeDevices<A> {
    ghost use Rattle.verity_disks.specs.Tearing.{Three};

    ghost Value = { Three };

    ghost view = { λ three. record { on_data = three.data_device; on_hash = three.hash_device; on_journal = three.journal_device } };
}

impl<A: Allocator + Copy> ThreeDevices<A> {
    /// These three.
    pub fn new(
        data_device: TearingDevice<A>,
        hash_device: TearingDevice<A>,
        journal_device: TearingDevice<A>,
    ) -> ThreeDevices<A>
        ensures { result ≡ record { on_data = data_device; on_hash = hash_device; on_journal = journal_device } }
    {
        ThreeDevices {
            data_device,
            hash_device,
            journal_device,
        }
    }

    /// One of them.
    pub fn device(&self, device: Device) -> &TearingDevice<A>
        ensures { result.now ≡ kept_of self.now device }
    {
        match device {
            Device::Data => &self.data_device,
            Device::Hash => &self.hash_device,
            Device::Journal => &self.journal_device,
        }
    }

    /// Writes to one of them. An error changes nothing.
    pub fn write(
        &mut self,
        alloc: A,
        device: Device,
        at: u64,
        bytes: &[u8],
    ) -> Result<(), AllocError>
        requires { at ≤ length (read_of (kept_of self.old device)) }
        ensures ok { OnOk result (self.new ≡ with_kept device (stepped (written at bytes.now) (kept_of self.old device)) self.old) }
        ensures err { OnErr result (self.new ≡ self.old) }
    {
        match device {
            Device::Data => self.data_device.write(alloc, at, bytes),
            Device::Hash => self.hash_device.write(alloc, at, bytes),
            Device::Journal => self.journal_device.write(alloc, at, bytes),
        }
    }

    /// Cuts or fills up one of them. An error changes nothing.
    pub fn resize(&mut self, alloc: A, device: Device, len: u64) -> Result<(), AllocError>
        ensures ok { OnOk result (self.new ≡ with_kept device (stepped (resized len) (kept_of self.old device)) self.old) }
        ensures err { OnErr result (self.new ≡ self.old) }
    {
        match device {
            Device::Data => self.data_device.resize(alloc, len),
            Device::Hash => self.hash_device.resize(alloc, len),
            Device::Journal => self.journal_device.resize(alloc, len),
        }
    }

    /// Brings all of one of them onto the device. An error changes nothing.
    pub fn sync(&mut self, alloc: A, device: Device) -> Result<(), AllocError>
        ensures ok { OnOk result (self.new ≡ with_kept device (kept_whole (kept_of self.old device)) self.old) }
        ensures err { OnErr result (self.new ≡ self.old) }
    {
        match device {
            Device::Data => self.data_device.sync(alloc),
            Device::Hash => self.hash_device.sync(alloc),
            Device::Journal => self.journal_device.sync(alloc),
        }
    }
}
