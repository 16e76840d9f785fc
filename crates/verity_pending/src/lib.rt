//! The edits of a volume that are pending, and what they carry out on the data store.
//!
//! [`Pending`] holds the edits since the last commit: blocks that were written, in an ordered map, beside three counts. It tells
//! whoever plans a commit which blocks changed, each with its digest: it hashes those that were written, up to eight side by side
//! (`leaves`), and one block of zeros for all others that were added, which are kept as a run with that digest ([`Children`]).
//! [`Pending::apply`] changes the data store. [`Made`] is a hash block that a plan makes, and [`write_made`] writes it. Nothing here
//! makes room in a store or syncs one.
//!
//! The one contract that the layer above relies on: a contract sees what is pending (`Draft`), and by it the edits of each committed
//! image (`edits_of`); an edit is refused by its rule, or with E5, and then changes nothing; and carried out over a store that tells,
//! the data store is the working image.
//!
//! The errors are those of [`EditFault`], which is that of a plan and of an editor too: an edit is refused with E1 to E5. Where a store
//! fails while edits are carried out ([`StoreFailed`]), it may have been changed.
//!
//! The definitions stand in `specs/`: `Edits` (images, edits and what refuses them), `Touched` (the touched hash blocks and their
//! bound), `Draft` (pending edits), `Applied` and `Written` (what is changed), `Texts`; of the way to them: `Leaves`, `Children` and
//! `Spread` (the blocks below a level), `Parents`, `Slots`, `Digests`, `Plan` (blocks by their index), `Kept` (what stays),
//! `Pend` (the fields).
#![tactic(auto)]

mod child;
mod children;
mod fault;
mod leaves;
mod made;
mod pending;
mod writes;

pub use child::Child;
pub use children::Children;
pub use fault::{EditFault, StoreFailed};
pub use made::Made;
pub use pending::Pending;
pub use writes::write_made;
