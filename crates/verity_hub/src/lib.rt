//! Many NBD sessions over one verifier, and the loop that serves a stream.
//!
//! A [`Hub`] has one verifier, with its one cache, and up to 64 open sessions. Every call is one step on the hub: a session
//! is opened, fed one piece of bytes, or ended; [`Hub::run`] makes a list of such steps, [`serve_stream`] makes them for one
//! client over a reader and a writer, and [`serve_clients`] for many over sockets. There are no threads. The steps themselves are
//! those of `nbd_hub` and `nbd_relay`, which know nothing of hashes; here their export is a verifier.
//!
//! # The contract
//!
//! `specs/Verdicts.antt` says what a session sees of a verifier (`facts_of`), and which verdicts are right for an image. What
//! a history of steps is, and what it is for a hub to be after it (`IsAfter`), is said in the specs of `nbd_hub`: each
//! session's output is the talk of its own input, by verdicts of its own that the verifier gave. [`Hub::new`] is after no
//! step; for every history that a hub was after, each call leaves it after the longer one. The bytes of a verdict are right
//! for every image that fits the table line, whatever the stores return, and a refusal with EIO has the verifier's leave:
//! [`Hub::run`] says so of each event, by what the stores had given when it was done, and [`laws::outputs_are_right`] of every
//! hub. The moments of the events follow one another: what a piece's answers had of the verifier, what failed then and what they
//! cost lie between the moment before it and its own, and no other event asked the verifier for anything.
//!
//! [`serve_stream`] says what was read and written at each of its exits, where the reader and the writer tell their bytes, and that
//! it answers N1 where a read failed in this call, N2 where a write did, and neither elsewhere.
//! Where the stores hold an image, each verdict is the image's exact bytes, or ENOMEM, or EIO for which a store's failures
//! rose. [`laws::serves_what_was_built`] says that stores hold the image that a hash device was made of.
//!
//! [`serve_clients`] says of each connection that a listener accepted, however the server ended: it was given back, and what it had
//! been sent is a beginning of what its session said to what it had sent, right for every image that fits the table line.
//! [`laws::clients_are_told_right`] says the same of the clients of `nbd_relay` over such a hub.
//!
//! [`Hub::noticed`] makes a hub that notifies someone ([`Notices`]) of each READ that its verifier refuses for a block: V2, a block that
//! isn't the one that the table line names, or V3, one that can't be read. A client is told EIO for either. That each such refusal is
//! notified once, and nothing else, is said of a read of the verifier (`specs/Noticed.antt`); the contracts above don't see it.
//!
//! # Errors
//!
//! [`HubFault`], H1 to H4: a refused call changes nothing. [`ServeFault`], N1 to N5. `AllocError` of [`Hub::run`].
#![tactic(auto)]

mod checked_image;
mod hub;
pub mod laws;
mod noticed;
mod notices;
mod server;
mod stream;

pub use hub::Hub;
pub use nbd_hub::{
    CountedReader, CountedWriter, Event, HubFault, HubReply, Input, Output, Piece, ServeFault,
};
pub use notices::{Notices, Silent};
pub use server::serve_clients;
pub use stream::serve_stream;
