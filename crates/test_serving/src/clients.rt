//! NBD clients and hubs over volumes.

mod scripts;
mod talking;
mod two_sessions;
mod volumes;

pub use scripts::{Reads, Script, are_told, events_of, other_image, scripted};
pub use talking::{
    EIO, ENOMEM, GO, GO_REPLY, GREETING, HELLO, WELCOME_17, add_read, add_reply, client, kind,
    read, reply, run_by, run_once, serve_by, serve_once, words,
};
pub use two_sessions::{Want, events, is_wanted, wants};
pub use volumes::{ROOT_17, data_17, hash_17, hub_17, hub_within, noticed_17, store, tree};
