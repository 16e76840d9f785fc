//! Many NBD clients of one verifier over sockets, none of which is waited for.
//!
//! [`serve_clients`], which the program's `serve` calls, is a loop over one poll. Up to 64 clients are connected; others wait in
//! the listener's queue. Each client that may be ready has at most 256 turns, which are those of `nbd_relay`; then the next
//! one has its own.
//!
//! Each of the 64 has a share of the limit of memory for replies, of 1 MiB where the limit is 97 MiB or more. A READ whose reply is
//! within the share is fed whatever is pending for others; of a longer one, what is beyond the share has to fit what the shares
//! leave of the limit. So clients that ask and never read keep nobody from short READs. A client's fault ends that client alone.
//!
//! Nor do they keep anybody from long READs for ever: while a client waits for memory, another one is left (N2) if something is pending
//! for it and its socket has taken not a byte for `Limits::stall`, usually 30 seconds. The time begins when a reply becomes pending,
//! and anew with each byte that is taken; before a client is left, its socket is asked once more. Without a client that waits, or
//! without a clock, none is left so.
//!
//! # The contract
//!
//! [`go_on`] is what a client does until the next one has its turns. It keeps what `nbd_relay` says of all clients, for every
//! order of turns: each is served as its own talk asks for. The budget is kept, or the client that went beyond it is to be left;
//! and a budget that is kept keeps what is pending within its limit ([`keeps_the_limit`]). Where a client has to wait for room,
//! its next READ asks for more than its share.
//!
//! Who is left for taking nothing has stalled (`HasStalled`, `specs/Stalling.antt`): something is pending for that client; its connection
//! has taken not a byte since a moment that was noted, and that lies as long before now as the limit says; and the next READ of another
//! client asks for more than that one's share.
//!
//! [`serve_clients`] says what it has printed once all are served: `listening`, then one line for each connection; and that it
//! answers whether no line named a fault. At most 64 are there at a time, those who take their leave among them, and no more are
//! accepted than are to be.
//!
//! However it ends, each connection that was accepted was given back to the listener, and what it had been sent is a beginning of
//! what one session said to a beginning of what had been received from it, by verdicts that the export gave (`IsTold`,
//! `specs/Sockets.antt`). What a connection carries and a listener accepts is seen by their logs, which take no bytes (`nbd_connection`).
//!
//! What the system's sockets do with the bytes, the clock and the system's poll are outside what contracts can say. Nothing is proved
//! of which client is ready, who is idle, who is next and when a connection is accepted, but that the loop's steps are safe; nor that
//! each client that has stalled is left, and that the memory which another one waits for is then wanting.
//!
//! # Errors
//!
//! [`Stop`], for which the server ends; a client's own fault is its line.
#![tactic(auto)]

mod budget;
mod connected;
mod entry;
mod line;
mod lull;
mod parting;
mod partings;
mod room;
mod server;
mod silence;
mod socket;
mod stalling;
mod stop;
mod turns;

pub use budget::{Budget, has_room, keeps_the_limit, left};
pub use server::serve_clients;
pub use stop::Stop;
pub use turns::{Came, go_on};
