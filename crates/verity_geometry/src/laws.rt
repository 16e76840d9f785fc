//! How a geometry describes the hash tree of every image of its shape. Each function does nothing but hold a law as its
//! contract, in the words of `specs/Laws.antt`. Proofs cite the lemmas of `proofs/OfShape.antt`.
ghost use Rattle.std.specs.Prelude.{ℕ, List};
ghost use Rattle.verity_digest.specs.Tree.{Hashing};
ghost use Rattle.verity_geometry.specs.Geometry.{IsOfShape};
ghost use Rattle.verity_geometry.specs.Laws.{ShapesImages, CountsLevels, PlacesBlocks, NamesParents, Grows, StartsRise, ClimbsFrom};

use crate::Geometry;

/// Every image of the geometry's count of blocks, hashed with its sizes, is one of its shape.
pub fn shapes_images(geometry: &Geometry)
    ensures { ShapesImages geometry.now }
{
    let _ = geometry.levels();
}

/// The numbers of levels and of their blocks are those of an image's tree.
pub fn counts_levels(geometry: &Geometry)
    ensures { (h : Hashing) (image : List (List ℕ)) → IsOfShape geometry.now h image → CountsLevels geometry.now h image }
{
    let _ = geometry.levels();
}

/// The blocks of an image's tree stand where the geometry places them.
pub fn places_blocks(geometry: &Geometry)
    ensures { (h : Hashing) (image : List (List ℕ)) → IsOfShape geometry.now h image → PlacesBlocks geometry.now h image }
{
    let _ = geometry.levels();
}

/// A block's digest stands in the block and the slot that the geometry names.
pub fn names_parents(geometry: &Geometry)
    ensures { (h : Hashing) (image : List (List ℕ)) → IsOfShape geometry.now h image → NamesParents geometry.now h image }
{
    let _ = geometry.levels();
}

/// A larger count with the same sizes never has a smaller start of a level that both have, nor fewer levels, nor a
/// shorter level.
pub fn starts_rise(small: &Geometry, large: &Geometry)
    ensures { Grows small.now large.now → StartsRise small.now large.now }
{
    let _ = small.levels();
}

/// The blocks above a data block, level by level.
pub fn climbs_from(geometry: &Geometry)
    ensures { ClimbsFrom geometry.now }
{
    let _ = geometry.levels();
}
