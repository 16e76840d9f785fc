//! Three devices under one clock, and what a stop may leave of them.
ghost use Rattle.std.specs.Prelude.{◌≡◌, ◌⊎◌, ◌≤◌, ◌<◌, ◌+◌, List, ℕ, length, take, drop, OnOk, OnErr, IfErr};
ghost use Rattle.verity_store.specs.RawFile.{overwritten, with_length};
ghost use Rattle.verity_disks.specs.Disks.{Contents, put, Torn, Stretched, Follows, Stays, Only, Elapses};

use thiserror::Error;

/// One of three devices: those of a volume, and its journal.
#[derive(Clone, Copy, Debug, PartialEq, Eq)]
pub enum Device {
    Data,
    Hash,
    Journal,
}

/// Why a call failed.
#[derive(Clone, Copy, Debug, PartialEq, Eq, Error, Drop)]
pub enum DiskFault {
    #[error("the device failed")]
    Device,
    #[error("there is too little memory")]
    NoMemory,
    #[error("it is no journal, or not of this volume")]
    Foreign,
}

/// Three devices under one clock. They lose at a stop what wasn't synced, in whole or in part, and they may fail.
///
/// There is one clock, since what a stop leaves of all three is of one moment.
pub trait Disks {
    /// What a read returns of each device.
    ghost seen: { Self → Contents };

    /// What a stop at this moment may leave of all three.
    ghost may_leave: { Self → Contents → Type 0 };

    /// The moment, as a number that doesn't fall.
    ghost moment: { Self → ℕ };

    /// What a stop at some moment from that one on might have left, during a call or between two.
    ghost left_since: { Self → ℕ → Contents → Type 0 };

    /// How often a device has failed.
    ghost faults: { Self → ℕ };

    /// Writes over what is there, and past the end. Until a sync, a stop may leave any bytes in the range. After an error
    /// nothing is known of what is read; what a stop leaves is as after an answer.
    fn write_at(&mut self, device: Device, at: u64, bytes: &[u8]) -> Result<(), DiskFault>
        requires { at ≤ length (seen self.old device) }
        ensures written { OnOk result (seen self.new ≡ put device (overwritten at bytes.now (seen self.old device)) (seen self.old)) }
        ensures crash { Follows device (Torn at (length bytes.now)) (may_leave self.old) (may_leave self.new) }
        ensures time { Elapses (moment self.old) (moment self.new) (left_since self.old) (left_since self.new) (may_leave self.new) }
        ensures error { IfErr result (λ e. e ≡ DiskFault.Device) }
        ensures failed { OnErr result (faults self.old < faults self.new) }
        ensures faults { faults self.old ≤ faults self.new };

    /// Cuts a device, or fills it up with zeros. Until a sync, a stop may leave any length between, and any bytes past the
    /// shorter of both. After an error likewise.
    fn set_len(&mut self, device: Device, len: u64) -> Result<(), DiskFault>
        ensures resized { OnOk result (seen self.new ≡ put device (with_length len (seen self.old device)) (seen self.old)) }
        ensures crash { Follows device (Stretched len) (may_leave self.old) (may_leave self.new) }
        ensures time { Elapses (moment self.old) (moment self.new) (left_since self.old) (left_since self.new) (may_leave self.new) }
        ensures error { IfErr result (λ e. e ≡ DiskFault.Device) }
        ensures failed { OnErr result (faults self.old < faults self.new) }
        ensures faults { faults self.old ≤ faults self.new };

    /// After it, a stop leaves of this device what a read returns. An error changes nothing.
    fn sync(&mut self, device: Device) -> Result<(), DiskFault>
        ensures durable { OnOk result (Only device (seen self.old) (may_leave self.new)) }
        ensures seen { seen self.new ≡ seen self.old }
        ensures crash { Stays (may_leave self.old) (may_leave self.new) }
        ensures time { Elapses (moment self.old) (moment self.new) (left_since self.old) (left_since self.new) (may_leave self.new) }
        ensures error { IfErr result (λ e. e ≡ DiskFault.Device) }
        ensures failed { OnErr result (faults self.old < faults self.new) }
        ensures faults { faults self.old ≤ faults self.new };

    /// How many bytes a device has.
    fn len(&self, device: Device) -> u64
        ensures { result ≡ length (seen self.now device) };

    /// Reads as many bytes as `out` has. It changes nothing.
    fn read_at(&mut self, device: Device, at: u64, out: &mut [u8]) -> Result<(), DiskFault>
        requires { at + length out.old ≤ length (seen self.old device) }
        ensures given { OnOk result (out.new ≡ take (length out.old) (drop at (seen self.old device))) }
        ensures seen { seen self.new ≡ seen self.old }
        ensures crash { Stays (may_leave self.old) (may_leave self.new) }
        ensures time { Elapses (moment self.old) (moment self.new) (left_since self.old) (left_since self.new) (may_leave self.new) }
        ensures error { IfErr result (λ e. e ≡ DiskFault.Device) }
        ensures failed { OnErr result (faults self.old < faults self.new) }
        ensures faults { faults self.old ≤ faults self.new };

    /// This moment is one of those since an earlier one.
    ghost counts_now: { (disks : Self) (t : ℕ) (c : Contents) → t ≤ moment disks → may_leave disks c → left_since disks t c };

    /// Since this moment there is no other.
    ghost only_now: { (disks : Self) (c : Contents) → left_since disks (moment disks) c → may_leave disks c };
}
