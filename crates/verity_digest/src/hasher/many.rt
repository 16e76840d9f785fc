//! The digests of many blocks of one size.
ghost use Rattle.std.specs.Prelude.{◌≡◌, ℕ, ◌+◌, ◌*◌, ◌<◌, ◌≤◌, [], length, slice_index_or};
ghost use Rattle.std.specs.Fork.{slice_chunk};
ghost use Rattle.verity_digest.specs.Hash.{salted_digest};
ghost use Rattle.verity_digest.specs.declared.algorithm.Algorithm.TheVariants.{Sha256, Sha512};

use super::Hasher;
use crate::{Algorithm, Digest};
use std::alloc::Allocator;
use verity_digest_lanes::{digest_eight, digest_four};

impl<A: Allocator> Hasher<A> {
    /// Writes the digests of blocks of `size` bytes, which stand one after the other: each is that of the salt followed by the
    /// block. Each is counted. It takes no memory.
    ///
    /// SHA-256 is made of eight blocks at a time, SHA-512 of four, and what is left one by one.
    pub fn digest_many(&mut self, blocks: &[u8], size: usize, out: &mut [Digest])
        requires { length blocks.now ≡ length out.old * size }
        ensures digests { (j : ℕ) → j < length out.old
            → slice_index_or out.new j [] ≡ salted_digest self.old.salted (slice_chunk blocks.now size j) }
        ensures salted { self.new.salted ≡ self.old.salted }
        ensures counted { self.new.hashed ≡ self.old.hashed + length out.old }
    {
        let grouped = match self.algorithm {
            Algorithm::Sha256 => self.digest_eights(blocks, size, out),
            Algorithm::Sha512 => self.digest_fours(blocks, size, out),
        };
        'rest: for j in grouped..out.len() {
            let digest = self.digest(&blocks[j * size..j * size + size]);
            out[j] = digest;
        }
    }

    // The digests of the first blocks, of as many whole eights as there are, and how many blocks these are.
    fn digest_eights(&mut self, blocks: &[u8], size: usize, out: &mut [Digest]) -> usize
        requires algorithm { self.old.salted.algorithm ≡ Sha256 }
        requires blocks { length blocks.now ≡ length out.old * size }
        ensures most { result ≤ length out.old }
        ensures len { length out.new ≡ length out.old }
        ensures digests { (j : ℕ) → j < result
            → slice_index_or out.new j [] ≡ salted_digest self.old.salted (slice_chunk blocks.now size j) }
        ensures salted { self.new.salted ≡ self.old.salted }
        ensures counted { self.new.hashed ≡ self.old.hashed + result }
    {
        let groups = out.len() / 8;
        'groups: for g in 0..groups {
            let at = 8 * g * size;
            let group = digest_eight(self.salt.bytes(), &blocks[at..at + 8 * size], size);
            'lanes: for j in 0..8 {
                self.count.step();
                out[8 * g + j] = Digest::from_bytes(group[j]);
            }
        }
        8 * groups
    }

    // The same, of fours.
    fn digest_fours(&mut self, blocks: &[u8], size: usize, out: &mut [Digest]) -> usize
        requires algorithm { self.old.salted.algorithm ≡ Sha512 }
        requires blocks { length blocks.now ≡ length out.old * size }
        ensures most { result ≤ length out.old }
        ensures len { length out.new ≡ length out.old }
        ensures digests { (j : ℕ) → j < result
            → slice_index_or out.new j [] ≡ salted_digest self.old.salted (slice_chunk blocks.now size j) }
        ensures salted { self.new.salted ≡ self.old.salted }
        ensures counted { self.new.hashed ≡ self.old.hashed + result }
    {
        let groups = out.len() / 4;
        'groups: for g in 0..groups {
            let at = 4 * g * size;
            let group = digest_four(self.salt.bytes(), &blocks[at..at + 4 * size], size);
            'lanes: for j in 0..4 {
                self.count.step();
                out[4 * g + j] = Digest::from_wide(group[j]);
            }
        }
        4 * groups
    }
}
