//! Slices and a join are a build. The function does nothing but hold a law as its contract.
ghost use Rattle.verity_slices.specs.Laws.{SlicesBuild};

/// Over stores that tell, slices of an image in any order and any cut, made once or several times, and then a join that is told of
/// some which cover level 0, leave the image's hash device, as a build does, and the join answers the image's root.
pub fn slices_build()
    ensures { SlicesBuild }
{}
