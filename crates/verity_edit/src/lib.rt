//! Edits and commits of a volume: a data store, and the hash store with its superblock and hash tree.
//!
//! An [`Editor`] is opened over two stores whose hash store holds the data store's tree. Edits are pending (`Pending` of
//! `verity_pending`). A commit plans first (`plan_commit`): it makes the new tree's touched hash blocks and its root, without changing
//! anything and without reading a data block. Then it makes room in both stores, and only then changes them (`committing`): the
//! data blocks, the levels that stand elsewhere in the new tree, the blocks of the plan, the superblock. It syncs both last.
//!
//! The one contract that the layers above rely on: over stores that tell, after a commit the hash store is `hash_blocks` of
//! `verity_superblock` for the working image, all of it, and after any list of commands editor and replies are those of
//! `After`. A commit hashes at most `bound` blocks, and where the count of blocks stays it reads at most as many hash blocks
//! as are touched; what is answered is synced.
//!
//! Over any stores each reply of `answer` says what it means (`IsAnswered`), and `run` is the chain of such records.
//!
//! What an editor under a trusted table line (`verity_trusted`) shares with this one is public for it alone: how a superblock is read
//! and fits its stores (`opening`), how room is made and a plan carried out (`committing`), commands and their replies.
//!
//! The errors are E1 to E12 of [`EditFault`]. A refused call changes nothing, but for a commit of which a store failed
//! after its first change: the editor is then broken, and all but the getters and `close` answers E7.
//!
//! The definitions stand in `specs/`: `After` (commands and replies), `Editing` (what a contract sees of an editor, and what a
//! commit leaves), `Opening` (when a volume is opened), `Faults` (what a failure of a store is answered by), `Running` (commands and
//! lists of them), `Exchange` (stores that are put in the place of an editor's); `Committing` (what is changed) is of the way to them.
//! Images and edits are defined in `verity_pending` (`Edits`, `Touched`, `Draft`), and the plan of a commit in `verity_plan`. What
//! calls leave of a store is said once, by the records of `verity_store` `Stores`.
#![tactic(auto)]

mod command;
mod committing;
mod editor;
mod opening;
mod running;

pub use command::{Command, Committed, Reply};
pub use committing::{carry_out, reserve_both};
pub use editor::{Editor, OpenRefused};
pub use opening::{check_stores, hasher_of, read_superblock};
pub use running::reply_of;
pub use verity_plan::{EditFault, geometry_over};
