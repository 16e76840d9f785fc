//! How far a pull has come.

use os_progress::{Meter, Progress};
use std::alloc::Global;
use std::io::Eprint;
use std::time::Clock;
use verity_chain::Tree;

/// A meter that is told of the source's hash blocks, and takes each for as many bytes of the image as one is above, on the average.
#[derive(Drop)]
pub struct Pace<'a, R: Clock + Eprint> {
    progress: Option<Progress<'a, R>>,
    bytes: u64,
}

impl<'a, R: Clock + Eprint + AllocGlobal> Pace<'a, R> {
    /// A meter of a pull of this tree, where someone looks on. Of a volume of one block, which has no tree, nothing is shown.
    pub fn new(rt: &'a R, is_watched: bool, tree: &Tree<Global>) -> Pace<'a, R> {
        let hash_blocks = tree.end().saturating_sub(tree.table().hash_start_block());
        let size = tree.table().data_block_size() as u64;
        let all = tree.table().data_blocks().saturating_mul(size);
        if !is_watched || hash_blocks == 0 {
            return Pace {
                progress: None,
                bytes: 0,
            };
        }
        let bytes = all / hash_blocks;
        Pace {
            progress: Some(Progress::new(rt, bytes.saturating_mul(hash_blocks))),
            bytes,
        }
    }

    /// Clears the line, if one is there, and prints no more.
    pub fn end(&self) {
        if let Some(progress) = &self.progress {
            progress.end();
        }
    }
}

impl<'a, R: Clock + Eprint + AllocGlobal> Meter for &Pace<'a, R> {
    fn note(&self, _bytes: u64) {
        if let Some(progress) = &self.progress {
            progress.note(self.bytes);
        }
    }
}
