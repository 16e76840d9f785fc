//! Stores for the tests of the layers: what a layer above makes of a store that fails or lies is seen over these.
//!
//! `FailStore` is a store over another, some of whose calls fail; `ScriptStore` gives what it was told to give (`Answer`); a
//! `MemFile` is a file in memory, whose bytes are known, for a `FileStore`. Each meets the clauses of `BlockStore` or of `RawFile`,
//! and says besides what it does: which call fails, what was handed out for which number, which bytes there are.
//!
//! Definitions: `specs/Failing.antt` and `specs/Script.antt` (those two stores), `specs/ScriptStore.antt` (the second as contracts
//! see it).
#![tactic(auto)]

mod answer;
mod fail;
mod mem_file;
mod script;

pub use answer::Answer;
pub use fail::FailStore;
pub use mem_file::MemFile;
pub use script::ScriptStore;
