//! Stores in memory that fail, for the tests of stores and of runs.
use test_stores::FailStore;
use verity_store::MemStore;

// A store whose call of this number fails, with 0 none.
pub fn failing_at(store: MemStore, call: u64) -> FailStore<MemStore> {
    FailStore::at(store, call)
}

// How many calls of it were counted.
pub fn calls_of(store: &FailStore<MemStore>) -> u64 {
    store.calls()
}
