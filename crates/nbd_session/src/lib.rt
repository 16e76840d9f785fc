//! One NBD session over any export: fixed newstyle negotiation, simple replies, read-only.
//!
//! A session takes in what a client sends, in pieces of any size, and appends to an output what the server says.
//! The protocol is that of the NBD project's `doc/proto.md`; its section names stand at each item. What a client
//! may ask for is in the table of each file: `handshake` (the greeting and the client's flags), `options` and `info`
//! ("Option haggling"), `transmission` (requests).
//!
//! # The contract
//!
//! The output is a function of the input and of the export's verdicts, however the input was cut. What is said to a
//! whole input is the definition `talk` of `specs/Talk.antt`. [`Session::open`] is at the empty input and has said the
//! greeting. For every input that a session was at, [`Session::feed`] leaves it at that input and the piece, and
//! appends what the longer talk adds: that is the record `Feeds` of `specs/Session.antt`. Its verdicts are the
//! export's own, one for each READ that is allowed and not empty: the bytes that it gave, EIO where it answered
//! [`ExportFault::Io`], ENOMEM where it answered [`ExportFault::NoMemory`]. The module [`laws`] has the law by which
//! feeds add up to a conversation.
//!
//! [`Session::ahead`] tells beforehand what READs that wait will ask the export for, and [`Export::warm`] takes that as a hint.
//!
//! A session holds at most one unfinished message: 4 bytes of flags, an option of at most 16 + 65,536 bytes, or a
//! request's header of 28 bytes. A WRITE's payload is counted off and never kept.
//!
//! # Errors
//!
//! [`SessionFault`]: P1 for a name's length, P2 for want of memory when a session is opened. A feed has no error but a
//! [`Status`]: `Ended` once the talk has ended, `Starved` once memory was refused for input or for a reply's framing.
//! Both last.
//!
//! # Definitions
//!
//! In `specs/`, in reading order: `Protocol` (the numbers), `Messages` (how some bytes begin), `Handshake`, `Options`,
//! `Transmission` (what is said to each message), `Answers`, `Talk` (the whole conversation), `Export` (what contracts
//! see of an export), `Session` (what a feed ensures), `Announcing` (what waiting requests ask for). `Vectors`, `Rows` and
//! `Borders` check them by computation.
#![tactic(auto)]

mod ahead;
mod conversation;
mod export;
mod fault;
mod handshake;
mod inbox;
mod info;
pub mod laws;
mod offer;
mod options;
mod phase;
mod session;
mod status;
mod transmission;
mod wire;

pub use export::{Export, ExportFault};
pub use fault::SessionFault;
pub use offer::{ExportName, Offer};
pub use phase::Phase;
pub use session::Session;
pub use status::Status;
