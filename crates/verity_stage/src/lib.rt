//! A store whose changes are staged: kept beside another store.
//!
//! A [`Staged`] reads what was written to it, and what wasn't written from the store below. What it holds is, byte for byte,
//! what its `side` makes of the store below: so whoever changes a volume over two staged stores has the plan of a
//! commit, which goes through a journal.
//!
//! # The contract
//!
//! It meets all that is asked of a `BlockStore`: it tells where the store below does, and its content is `staged` of the
//! store's (`specs/Stage.antt`). `sync` asks no device for anything. No call changes the content of the store below, to which a
//! staged store is bound (`fixed`). A commit asks for no more than a [`StagedStore`] says: [`commit_staged`] brings what is staged
//! over two stores to the devices that hold them.
//!
//! # Errors
//!
//! S1 where the store below fails to be read, and where memory for a block that is written was refused.
#![tactic(auto)]

mod committing;
mod stage;
mod staged;
mod staged_store;

pub use committing::commit_staged;
pub use stage::Stage;
pub use staged::Staged;
pub use staged_store::StagedStore;
