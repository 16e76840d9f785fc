//! The geometry of a volume's hash tree: how many levels it has, how many hash blocks each, where they stand on the
//! hash device, and which block and slot hold the digest of a block ("Verity hash table format" of the Linux
//! dm-verity documentation).
//!
//! A [`Geometry`] is made of the two block sizes, the count of data blocks and the size of a digest. Its one contract:
//! each number that it gives is the one of `specs/Shape` of `verity_digest`, and [`laws`] says that these are the
//! lengths, places, blocks and slots of the tree of every image of this shape. The errors are those of
//! [`GeometryFault`], by the makers alone. Nothing takes memory, and nothing overflows up to the largest volume.
//!
//! The definitions stand in `specs/`: `Geometry` (what a contract sees of a geometry, and the images of its shape),
//! `Faults` (when there is none), `Laws`. The tree in numbers is `Shape` of `verity_digest`.
#![tactic(auto)]

mod fault;
mod geometry;
pub mod laws;

pub use fault::GeometryFault;
pub use geometry::Geometry;
