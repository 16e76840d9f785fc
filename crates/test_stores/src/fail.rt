//! A store that fails where it is told to.
ghost use Rattle.std.specs.Prelude.{◌≡◌, ℕ, ◌+◌, Bool, Option, None, Some, ◌==◌};
ghost use Rattle.test_stores.specs.Failing.{is_past};

use base_count::Count;
use std::marker::Model;
use verity_store::{BlockStore, StoreFault};

/// A store over another, some of whose calls fail with S1 and are not passed on. All other calls are passed on.
///
/// The calls that are counted are reads, writes, `set_len` and `sync`, from 1 on; a run is read block by block, so each of its
/// blocks is a read. Its content, whether it tells, what it gave, what it is bound to and its room are those of the store below.
/// It takes no memory.
#[derive(Drop)]
pub struct FailStore<S: BlockStore> {
    store: S,
    due: u64,
    allowed: Option<u64>,
    calls: u64,
    reads: u64,
    failed: Count,
    refused: Count,
    changed: Count,
}

impl<S: BlockStore> Model for FailStore<S> {
    ghost use Rattle.test_stores.specs.Failing.{Failing};

    ghost Value = { Failing S };

    ghost view = { λ s. record {
      store = s.store;
      due = s.due;
      allowed = s.allowed;
      calls = s.calls;
      reads = s.reads;
      failed = s.failed.steps;
      refused = s.refused.steps;
      changes = s.changed.steps;
    } };
}

// Whether the call after so many is the due one.
fn is_next(calls: u64, due: u64) -> bool
    ensures { result ≡ (calls + 1 == due) }
{
    0 < due && calls == due - 1
}

// Whether so many reads are all that are allowed.
fn is_past(allowed: Option<u64>, reads: u64) -> bool
    ensures { result ≡ is_past allowed reads }
{
    match allowed {
        Some(most) => most <= reads,
        None => false,
    }
}

impl<S: BlockStore> FailStore<S> {
    ghost use Rattle.std.specs.Prelude.{◌≡◌, None, Some, true, false};
    ghost use Rattle.test_stores.specs.Failing.{failing_at, is_call_due, is_read_due};
    ghost use Rattle.test_stores.specs.Failing.{after_call, after_read, after_failed_call, after_failed_read};

    /// A store whose call number `k` fails and no other; with `k` of 0, none.
    pub fn at(store: S, k: u64) -> FailStore<S>
        ensures { result ≡ failing_at store k None }
    {
        FailStore {
            store,
            due: k,
            allowed: None,
            calls: 0,
            reads: 0,
            failed: Count::new(),
            refused: Count::new(),
            changed: Count::new(),
        }
    }

    /// A store each of whose reads after the first `k` fails. No other call does.
    pub fn reads_after(store: S, k: u64) -> FailStore<S>
        ensures { result ≡ failing_at store 0 (Some k) }
    {
        FailStore {
            store,
            due: 0,
            allowed: Some(k),
            calls: 0,
            reads: 0,
            failed: Count::new(),
            refused: Count::new(),
            changed: Count::new(),
        }
    }

    /// How many calls were counted so far. At the greatest u64 it stays.
    pub fn calls(&self) -> u64
        ensures { result ≡ self.now.calls }
    {
        self.calls
    }

    /// The store below.
    pub fn store(&self) -> &S
        ensures { result.now ≡ self.now.store }
    {
        &self.store
    }

    /// Gives the store below back.
    pub fn into_inner(self) -> S
        ensures { result ≡ self.store }
    {
        let FailStore { store, .. } = self;
        store
    }

    // Counts a call that is no read, and says whether it fails.
    fn fails_call(&mut self) -> bool
        ensures due { result ≡ is_call_due self.old }
        ensures failed { is_call_due self.old ≡ true → self.new ≡ after_failed_call self.old }
        ensures passed { is_call_due self.old ≡ false → self.new ≡ after_call self.old self.old.store }
    {
        let due = is_next(self.calls, self.due);
        self.calls = self.calls.saturating_add(1);
        if due {
            self.failed.step();
        }
        due
    }

    // Counts a read, and says whether it fails.
    fn fails_read(&mut self) -> bool
        ensures due { result ≡ is_read_due self.old }
        ensures failed { is_read_due self.old ≡ true → self.new ≡ after_failed_read self.old }
        ensures passed { is_read_due self.old ≡ false → self.new ≡ after_read self.old self.old.store }
    {
        let due = is_next(self.calls, self.due) || is_past(self.allowed, self.reads);
        self.calls = self.calls.saturating_add(1);
        self.reads = self.reads.saturating_add(1);
        if due {
            self.failed.step();
            self.refused.step();
        }
        due
    }
}

impl<S: BlockStore> BlockStore for FailStore<S> {
    ghost use Rattle.std.specs.Prelude.{◌≡◌, ◌≢◌, ℕ, ◌+◌, ◌^◌, ◌<◌, ◌≤◌, true, false, OnOk, OnErr, IfErr};
    ghost use Rattle.std.specs.Prelude.{List, [], ◌∷◌, ◌++◌, length, slice_index_or, slice_set};
    ghost use Rattle.verity_profile.specs.Profile.{AllSized};
    ghost use Rattle.verity_store.specs.Given.{GoesOn};
    ghost use Rattle.verity_store.specs.Blocks.{resized, ResizedToward, ChangesAt};
    ghost use Rattle.test_stores.specs.Failing.{is_call_due, is_read_due, after_call, after_read, after_failed_call, after_failed_read};
    ghost use Rattle.test_stores.specs.Failing.{asked_change};

    ghost size = { λ s. S.size s.store };

    ghost content = { λ s. S.content s.store };

    ghost tells = { λ s. S.tells s.store };

    ghost given = { λ s. S.given s.store };

    ghost failures = { λ s. S.failures s.store + s.failed };

    ghost reads = { λ s. S.reads s.store + s.refused };

    ghost changes = { λ s. s.changes };

    ghost room = { λ s. S.room s.store };

    ghost synced = { λ s. S.synced s.store };

    ghost fixed = { λ s. S.fixed s.store };

    fn block_size(&self) -> usize {
        self.store.block_size()
    }

    fn len(&self) -> u64 {
        self.store.len()
    }

    fn read(&mut self, n: u64, out: &mut [u8]) -> Result<(), StoreFault>
        requires within { n < length (S.content self.old.store) }
        requires sized { length out.old ≡ S.size self.old.store }
        ensures due { is_read_due self.old ≡ true → (result ≡ Err StoreFault.Device) × (self.new ≡ after_failed_read self.old) }
        ensures passed { is_read_due self.old ≡ false → self.new ≡ after_read self.old self.new.store }
        ensures given { OnOk result (S.given self.new.store ≡ S.given self.old.store ++ (n, out.new) ∷ []) }
        ensures ungiven { OnErr result (S.given self.new.store ≡ S.given self.old.store) }
        ensures right { OnOk result (S.tells self.old.store ≡ true → slice_index_or (S.content self.old.store) n [] ≡ out.new) }
        ensures error { IfErr result (λ e. e ≡ StoreFault.Device) }
        ensures failed { OnErr result (S.failures self.old.store + self.old.failed < S.failures self.new.store + self.new.failed) }
        ensures unfailed { OnOk result (S.failures self.new.store + self.new.failed ≡ S.failures self.old.store + self.old.failed) }
        ensures failures { S.failures self.old.store + self.old.failed ≤ S.failures self.new.store + self.new.failed }
        ensures counted { S.reads self.new.store + self.new.refused ≡ S.reads self.old.store + self.old.refused + 1 }
        ensures changes { self.new.changes ≡ self.old.changes }
        ensures content { S.content self.new.store ≡ S.content self.old.store }
        ensures gave { GoesOn (S.given self.old.store) (S.given self.new.store) }
        ensures tells { S.tells self.new.store ≡ S.tells self.old.store }
        ensures size { S.size self.new.store ≡ S.size self.old.store }
        ensures fixed { S.fixed self.new.store ≡ S.fixed self.old.store }
        ensures room { S.room self.new.store ≡ S.room self.old.store }
    {
        if self.fails_read() {
            return Err(StoreFault::Device);
        }
        self.store.read(n, out)
    }

    fn write(&mut self, n: u64, block: &[u8]) -> Result<(), StoreFault>
        requires within { n < length (S.content self.old.store) }
        requires sized { length block.now ≡ S.size self.old.store }
        ensures due { is_call_due self.old ≡ true
            → (result ≡ Err StoreFault.Device) × (self.new ≡ after_failed_call (asked_change self.old)) }
        ensures passed { is_call_due self.old ≡ false → self.new ≡ after_call (asked_change self.old) self.new.store }
        ensures written { OnOk result (S.tells self.old.store ≡ true
            → S.content self.new.store ≡ slice_set (S.content self.old.store) n block.now) }
        ensures others { ChangesAt n (S.content self.old.store) (S.content self.new.store) }
        ensures blocks { AllSized (S.size self.old.store) (S.content self.old.store)
            → AllSized (S.size self.old.store) (S.content self.new.store) }
        ensures error { IfErr result (λ e. e ≡ StoreFault.Device) }
        ensures failed { OnErr result (S.failures self.old.store + self.old.failed < S.failures self.new.store + self.new.failed) }
        ensures unfailed { OnOk result (S.failures self.new.store + self.new.failed ≡ S.failures self.old.store + self.old.failed) }
        ensures failures { S.failures self.old.store + self.old.failed ≤ S.failures self.new.store + self.new.failed }
        ensures reads { S.reads self.new.store + self.new.refused ≡ S.reads self.old.store + self.old.refused }
        ensures counted { self.new.changes ≡ self.old.changes + 1 }
        ensures given { S.given self.new.store ≡ S.given self.old.store }
        ensures gave { GoesOn (S.given self.old.store) (S.given self.new.store) }
        ensures tells { S.tells self.new.store ≡ S.tells self.old.store }
        ensures size { S.size self.new.store ≡ S.size self.old.store }
        ensures fixed { S.fixed self.new.store ≡ S.fixed self.old.store }
        ensures room { S.room self.new.store ≡ S.room self.old.store }
    {
        self.changed.step();
        if self.fails_call() {
            return Err(StoreFault::Device);
        }
        self.store.write(n, block)
    }

    fn reserve(&mut self, blocks: u64) -> Result<(), StoreFault>
        requires { blocks ≤ 2 ^ 41 }
        ensures passed { self.new ≡ record self.old { store = self.new.store } }
        ensures reserved { OnOk result (blocks ≤ S.room self.new.store) }
        ensures needed { OnErr result (S.room self.old.store < blocks) }
        ensures error { IfErr result (λ e. e ≡ StoreFault.NoMemory) }
        ensures failures { S.failures self.new.store + self.new.failed ≡ S.failures self.old.store + self.old.failed }
        ensures reads { S.reads self.new.store + self.new.refused ≡ S.reads self.old.store + self.old.refused }
        ensures changes { self.new.changes ≡ self.old.changes }
        ensures content { S.content self.new.store ≡ S.content self.old.store }
        ensures given { S.given self.new.store ≡ S.given self.old.store }
        ensures gave { GoesOn (S.given self.old.store) (S.given self.new.store) }
        ensures tells { S.tells self.new.store ≡ S.tells self.old.store }
        ensures size { S.size self.new.store ≡ S.size self.old.store }
        ensures fixed { S.fixed self.new.store ≡ S.fixed self.old.store }
        ensures room { S.room self.old.store ≤ S.room self.new.store }
    {
        self.store.reserve(blocks)
    }

    fn set_len(&mut self, blocks: u64) -> Result<(), StoreFault>
        requires { blocks ≤ 2 ^ 41 }
        ensures due { is_call_due self.old ≡ true
            → (result ≡ Err StoreFault.Device) × (self.new ≡ after_failed_call (asked_change self.old)) }
        ensures passed { is_call_due self.old ≡ false → self.new ≡ after_call (asked_change self.old) self.new.store }
        ensures done { OnOk result (S.content self.new.store ≡ resized (S.size self.old.store) blocks (S.content self.old.store)) }
        ensures partly { ResizedToward (S.size self.old.store) blocks (S.content self.old.store) (S.content self.new.store) }
        ensures blocks { AllSized (S.size self.old.store) (S.content self.old.store)
            → AllSized (S.size self.old.store) (S.content self.new.store) }
        ensures error { IfErr result (λ e. e ≢ StoreFault.Device → (e ≡ StoreFault.NoMemory) × (S.room self.old.store < blocks)) }
        ensures failed { result ≡ Err StoreFault.Device
            → S.failures self.old.store + self.old.failed < S.failures self.new.store + self.new.failed }
        ensures refused { result ≡ Err StoreFault.NoMemory
            → S.failures self.new.store + self.new.failed ≡ S.failures self.old.store + self.old.failed }
        ensures unfailed { OnOk result (S.failures self.new.store + self.new.failed ≡ S.failures self.old.store + self.old.failed) }
        ensures failures { S.failures self.old.store + self.old.failed ≤ S.failures self.new.store + self.new.failed }
        ensures reads { S.reads self.new.store + self.new.refused ≡ S.reads self.old.store + self.old.refused }
        ensures counted { self.new.changes ≡ self.old.changes + 1 }
        ensures given { S.given self.new.store ≡ S.given self.old.store }
        ensures gave { GoesOn (S.given self.old.store) (S.given self.new.store) }
        ensures tells { S.tells self.new.store ≡ S.tells self.old.store }
        ensures size { S.size self.new.store ≡ S.size self.old.store }
        ensures fixed { S.fixed self.new.store ≡ S.fixed self.old.store }
        ensures room { S.room self.old.store ≤ S.room self.new.store }
    {
        self.changed.step();
        if self.fails_call() {
            return Err(StoreFault::Device);
        }
        self.store.set_len(blocks)
    }

    fn sync(&mut self) -> Result<(), StoreFault>
        ensures due { is_call_due self.old ≡ true → (result ≡ Err StoreFault.Device) × (self.new ≡ after_failed_call self.old) }
        ensures passed { is_call_due self.old ≡ false → self.new ≡ after_call self.old self.new.store }
        ensures synced { OnOk result (S.synced self.new.store ≡ true) }
        ensures error { IfErr result (λ e. e ≡ StoreFault.Device) }
        ensures failed { OnErr result (S.failures self.old.store + self.old.failed < S.failures self.new.store + self.new.failed) }
        ensures unfailed { OnOk result (S.failures self.new.store + self.new.failed ≡ S.failures self.old.store + self.old.failed) }
        ensures failures { S.failures self.old.store + self.old.failed ≤ S.failures self.new.store + self.new.failed }
        ensures reads { S.reads self.new.store + self.new.refused ≡ S.reads self.old.store + self.old.refused }
        ensures changes { self.new.changes ≡ self.old.changes }
        ensures content { S.content self.new.store ≡ S.content self.old.store }
        ensures given { S.given self.new.store ≡ S.given self.old.store }
        ensures gave { GoesOn (S.given self.old.store) (S.given self.new.store) }
        ensures tells { S.tells self.new.store ≡ S.tells self.old.store }
        ensures size { S.size self.new.store ≡ S.size self.old.store }
        ensures fixed { S.fixed self.new.store ≡ S.fixed self.old.store }
        ensures room { S.room self.new.store ≡ S.room self.old.store }
    {
        if self.fails_call() {
            return Err(StoreFault::Device);
        }
        self.store.sync()
    }
}
