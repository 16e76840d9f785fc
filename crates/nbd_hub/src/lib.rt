//! Many NBD sessions over one export, and the loop that serves a stream.
//!
//! [`Sessions`] have one export and up to 64 open sessions. Every call is one step: a session is opened, fed one piece of
//! bytes, or ended; [`Sessions::run`] makes a list of such steps, and [`serve`] makes them for one client over a reader and
//! a writer. There are no threads.
//!
//! # The contract
//!
//! `specs/History.antt` says what a history of steps is: each session's own input (the pieces that it was fed, joined,
//! up to the one that starved it), its own output, and which sessions are open. `specs/After.antt` says what it is for
//! sessions to be after a history (`IsAfter`): each session's output is the talk of its own input, by verdicts of its own
//! that the export gave. [`Sessions::new`] is after no step; for every history that they were after, each call leaves them
//! after the longer one. `EachAfter` says the same of each event of a run, by what was given when it was done. The moments of
//! the events follow one another: what a piece's answers had of the export, what failed then and what they cost lie between the
//! moment before it and its own, no other event asked the export for anything (`AskedBetween`), and nothing did after the last.
//!
//! `specs/Stream.antt` says what [`serve`] has read and written at each of its exits (`Served`), where the reader and the
//! writer tell their bytes; `specs/Failures.antt`, that it answers N1 where a read failed in this call, N2 where a write did, and
//! neither elsewhere. So it reads from an [`Input`] and writes to an [`Output`], which count their failures: [`CountedReader`]
//! and [`CountedWriter`] are such, over any reader and writer.
//!
//! What an export says of its own value (its `later`) holds between any two moments of its sessions, so the layer above
//! knows its export again.
//!
//! [`Sessions::warm`] is no step: it tells the export what waiting bytes will ask for, changes no session, and leaves them after
//! every history that they were after. The export may then have been read by more than its sessions asked for. Neither
//! [`Sessions::run`] nor [`serve`] calls it.
//!
//! # Errors
//!
//! [`HubFault`], H1 to H4: a refused call changes nothing. [`ServeFault`], N1 to N5. `AllocError` of [`Sessions::run`].
#![tactic(auto)]

mod ends;
mod events;
mod fault;
mod numbered;
mod run;
mod sessions;
mod stream;

pub use base_bytes::HeldBytes as Piece;
pub use ends::{CountedReader, CountedWriter, Input, Output};
pub use events::{Event, HubReply};
pub use fault::{HubFault, ServeFault};
pub use sessions::{MAX_AHEAD, Sessions};
pub use stream::serve;
