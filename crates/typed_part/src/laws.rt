//! What holds of every module of the part.

ghost use Rattle.typed_part.specs.Laws.{PartHasCode};

/// All that stands in the functions of a module of the part has code.
pub fn part_has_code()
    ensures coded { PartHasCode }
{}
