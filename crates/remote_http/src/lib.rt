//! A client of an HTTP/1.1 server that nobody vouches for: ranges of a resource over a connection (`remote_wire::Wire`).
//!
//! What it takes is a response with the status 206 whose one Content-Range is the range that was asked for and whose one Content-Length
//! is its length, and then its body, and not a byte more. A response in chunks or coded, one of several ranges, and any redirection are
//! refused, by a fault that says which it was. What the bytes are worth is said by whoever checks them.
//!
//! Definitions: `specs/Requests.antt` (the text of a request), `specs/Ranges.antt` (what is taken for a response), `specs/Fields.antt`
//! and `specs/Found.antt` (the fields of a head).
#![tactic(auto)]

mod body;
mod checks;
mod fault;
mod fields;
mod head;
mod range;
mod texts;

pub use fault::RangeFault;
pub use range::{Given, Place, Scratch, get_range};
