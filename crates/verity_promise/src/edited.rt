//! What is left of an edited volume.

use std::alloc::{AllocError, Allocator, Global};
use verity_digest::Digest;
use verity_superblock::Table;

/// Two stores that were edited and closed.
#[derive(Drop)]
pub struct Edited<D, H, A: Allocator = Global> {
    /// The data store.
    pub data_store: D,
    /// The hash store.
    pub hash_store: H,
    /// The root hash of the committed image.
    pub root: Digest,
    /// The table line of the committed image; none where memory for it was refused, or a commit was cut short.
    pub table: Option<Table<A>>,
    /// Whether each command was done; else memory for a reply was refused, and the commands with a reply were done.
    pub done: Result<(), AllocError>,
}
