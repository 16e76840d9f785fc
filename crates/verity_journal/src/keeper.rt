//! Commits of one volume, one after the other.
ghost use Rattle.std.specs.Prelude.{◌≡◌, ◌⊎◌, ◌≤◌, ◌<◌, ◌↔◌, ◌++◌, [], ◌∷◌, true, false, take, Err, OnOk, IsOk};
ghost use Rattle.verity_disks.specs.declared.disks.Device.TheVariants.{Journal};
ghost use Rattle.verity_disks.specs.Disks.{IsDurable, LeavesOnly, Stays};
ghost use Rattle.verity_journal.specs.Journal.{head, IsJournal, IsOldOrNew, IsForeign, Suits, pair_of, made_pair, recovered_pair};

use crate::Plan;
use crate::journal::commit_through;
use crate::recovering::start;
use std::alloc::Allocator;
use verity_disks::{Device, DiskFault, Disks};

/// Three devices, and whether they are settled: all is on them and the gate is closed. So it is from a start to the first
/// commit that fails.
#[derive(Drop)]
pub struct Keeper<K: Disks> {
    disks: K,
    is_settled: bool,
    ghost durable: { is_settled ≡ true → IsDurable (K.seen disks) (K.may_leave disks) },
    ghost closed: { is_settled ≡ true → take 13 (K.seen disks Journal) ≡ head ++ 0 ∷ [] },
}

impl<K: Disks> Keeper<K> {
    /// Three devices that a stop may have left in any way.
    pub fn new(disks: K) -> Keeper<K>
        ensures disks { result.disks ≡ disks }
        ensures settled { result.is_settled ≡ false }
    {
        Keeper {
            disks,
            is_settled: false,
        }
    }

    /// The devices.
    pub fn disks(&self) -> &K
        ensures { result.now ≡ self.now.disks }
    {
        &self.disks
    }

    /// The devices, to be kept no more.
    pub fn into_disks(self) -> K
        ensures { result ≡ self.disks }
    {
        self.disks
    }

    /// Makes the volume that the devices stand for, as [`start`] does, with its errors.
    pub fn start<A: Allocator + Copy>(&mut self, alloc: A) -> Result<(), DiskFault>
        ensures volume { OnOk result (pair_of (K.seen self.new.disks) ≡ recovered_pair (K.seen self.old.disks)) }
        ensures settled { IsOk result ↔ (self.new.is_settled ≡ true) }
        ensures any_moment { LeavesOnly K.moment K.left_since self.old.disks self.new.disks
            (λ c. K.may_leave self.old.disks c ⊎ (recovered_pair c ≡ recovered_pair (K.seen self.old.disks))) }
        ensures memory { result ≡ Err DiskFault.NoMemory → K.seen self.new.disks ≡ K.seen self.old.disks }
        ensures journal { OnOk result (IsJournal (K.seen self.old.disks Journal)) }
        ensures foreign { result ≡ Err DiskFault.Foreign → IsForeign (K.seen self.old.disks) }
        ensures foreign_stays { result ≡ Err DiskFault.Foreign → K.seen self.new.disks ≡ K.seen self.old.disks }
        ensures untouched { ¬ IsJournal (K.seen self.old.disks Journal) → K.seen self.new.disks ≡ K.seen self.old.disks }
        ensures untouched_crash { ¬ IsJournal (K.seen self.old.disks Journal)
            → Stays (K.may_leave self.old.disks) (K.may_leave self.new.disks) }
        ensures failed { result ≡ Err DiskFault.Device → K.faults self.old.disks < K.faults self.new.disks }
    {
        self.is_settled = false;
        start(alloc, &mut self.disks)?;
        self.is_settled = true;
        Ok(())
    }

    /// Makes the changes of a plan, as [`commit_through`] does. After an error [`Keeper::start`] comes next: until then each
    /// commit is the fault of a device, and nothing is changed.
    ///
    /// Foreign where the plan isn't one for these devices. NoMemory where there is too little for it. In both cases nothing was
    /// changed.
    pub fn commit<A: Allocator + Copy>(&mut self, alloc: A, plan: &Plan<A>) -> Result<(), DiskFault>
        ensures made { OnOk result (pair_of (K.seen self.new.disks) ≡ made_pair plan.now (pair_of (K.seen self.old.disks))) }
        ensures settled { IsOk result ↔ (self.new.is_settled ≡ true) }
        ensures any_moment { self.old.is_settled ≡ true → Suits plan.now (pair_of (K.seen self.old.disks))
            → LeavesOnly K.moment K.left_since self.old.disks self.new.disks (IsOldOrNew plan.now (pair_of (K.seen self.old.disks))) }
        ensures failed { result ≡ Err DiskFault.Device → self.old.is_settled ≡ true → K.faults self.old.disks < K.faults self.new.disks }
        ensures memory { result ≡ Err DiskFault.NoMemory → K.seen self.new.disks ≡ K.seen self.old.disks }
        ensures foreign { result ≡ Err DiskFault.Foreign → self.new.disks ≡ self.old.disks }
        ensures unfit { result ≡ Err DiskFault.Foreign → ¬ Suits plan.now (pair_of (K.seen self.old.disks)) }
        ensures stopped { self.old.is_settled ≡ false → self.new ≡ self.old }
        ensures faults { K.faults self.old.disks ≤ K.faults self.new.disks }
    {
        if !self.is_settled {
            return Err(DiskFault::Device);
        }
        self.is_settled = false;
        let data_len = self.disks.len(Device::Data);
        let hash_len = self.disks.len(Device::Hash);
        if !plan.suits(data_len, hash_len) {
            return Err(DiskFault::Foreign);
        }
        commit_through(alloc, &mut self.disks, plan)?;
        self.is_settled = true;
        Ok(())
    }
}
