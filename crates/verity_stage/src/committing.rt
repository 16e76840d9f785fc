//! A commit of what is staged.
ghost use Rattle.std.specs.Prelude.{◌≡◌, ◌≤◌, ◌<◌, true, false, ◌↔◌, Err, OnOk, IsOk};
ghost use Rattle.std.specs.List.{concat};
ghost use Rattle.verity_disks.specs.Disks.{LeavesOnly};
ghost use Rattle.verity_journal.specs.Journal.{IsOldOrNew, Suits, pair_of, made_pair};
ghost use Rattle.verity_stage.specs.Stage.{bytes_below, plan_of};

use crate::StagedStore;
use std::alloc::Allocator;
use verity_disks::{DiskFault, Disks};
use verity_journal::{Keeper, Plan};

/// Makes of two devices, by one commit through their journal, what is staged over two stores. The journal has these names of them.
///
/// Where the devices hold the stores below, they hold afterwards what the staged stores do (`staged`); a stop at any moment leaves
/// devices from which a start makes the one or the other. It takes memory for the blocks twice more.
///
/// Foreign where the devices are shorter than what is kept of the stores. NoMemory where there is too little. In both cases nothing was
/// changed. After an error a start comes next.
pub fn commit_staged<K: Disks, D: StagedStore<A>, H: StagedStore<A>, A: Allocator + Copy>(
    alloc: A,
    keeper: &mut Keeper<K>,
    names: &[u8],
    on_data: &D,
    on_hash: &H,
) -> Result<(), DiskFault>
    ensures made { OnOk result (pair_of (K.seen keeper.new.disks)
        ≡ made_pair (plan_of names.now (D.stage on_data.now) (H.stage on_hash.now)) (pair_of (K.seen keeper.old.disks))) }
    ensures settled { OnOk result (keeper.new.is_settled ≡ true) }
    ensures any_moment { keeper.old.is_settled ≡ true
        → Suits (plan_of names.now (D.stage on_data.now) (H.stage on_hash.now)) (pair_of (K.seen keeper.old.disks))
        → LeavesOnly K.moment K.left_since keeper.old.disks keeper.new.disks
        (IsOldOrNew (plan_of names.now (D.stage on_data.now) (H.stage on_hash.now)) (pair_of (K.seen keeper.old.disks))) }
    ensures staged { made_pair (plan_of names.now (D.stage on_data.now) (H.stage on_hash.now))
        (bytes_below (D.fixed on_data.now), bytes_below (H.fixed on_hash.now))
        ≡ (concat (D.content on_data.now), concat (H.content on_hash.now)) }
    ensures suits { Suits (plan_of names.now (D.stage on_data.now) (H.stage on_hash.now))
        (bytes_below (D.fixed on_data.now), bytes_below (H.fixed on_hash.now)) }
    ensures failed { result ≡ Err DiskFault.Device → keeper.old.is_settled ≡ true
        → K.faults keeper.old.disks < K.faults keeper.new.disks }
    ensures memory { result ≡ Err DiskFault.NoMemory → K.seen keeper.new.disks ≡ K.seen keeper.old.disks }
    ensures foreign { result ≡ Err DiskFault.Foreign → keeper.new.disks ≡ keeper.old.disks }
    ensures unfit { result ≡ Err DiskFault.Foreign
        → ¬ Suits (plan_of names.now (D.stage on_data.now) (H.stage on_hash.now)) (pair_of (K.seen keeper.old.disks)) }
{
    on_data.facts();
    on_hash.facts();
    let (Ok(data_side), Ok(hash_side)) = (on_data.side(), on_hash.side()) else {
        return Err(DiskFault::NoMemory);
    };
    let Ok(names) = names.to_vec(alloc) else {
        return Err(DiskFault::NoMemory);
    };
    let plan = Plan::new(names, data_side, hash_side);
    keeper.commit(alloc, &plan)
}
