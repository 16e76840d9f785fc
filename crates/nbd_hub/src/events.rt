//! What happens to a hub, and what it replies.

use crate::fault::HubFault;
use base_bytes::HeldBytes as Piece;
use nbd_session::Status;
use std::alloc::{Allocator, Global};

/// One step of a hub.
#[derive(Drop)]
pub enum Event<A: Allocator = Global> {
    /// A session is opened.
    Open,
    /// The session of this number is fed a piece.
    Feed(u64, Piece<A>),
    /// The session of this number is ended.
    End(u64),
}

/// What came of an event.
#[derive(Drop)]
pub enum HubReply<A: Allocator = Global> {
    /// A session of this number was opened, and said this.
    Opened(u64, Piece<A>),
    /// The session took in the piece, stands so, and said this.
    Fed(Status, Piece<A>),
    /// The session was ended.
    Closed,
    /// The event was refused, and changed nothing.
    Refused(HubFault),
}
