//! Arguments that may be URLs of devices at servers, and what was seen of these devices, for standard error.
//!
//! Whether a text is a URL is `remote_url`'s to say ([`is_url`]); DATA and HASH of a command that writes are none ([`check_here`]). Why a
//! server's device couldn't be opened, and how long it was, is kept in [`Notes`], which no contract speaks of.
#![tactic(auto)]

mod arguments;
mod notes;

pub use arguments::{check_here, is_url, patience};
pub use notes::Notes;
