//! What holds of the references of values.

ghost use Rattle.value_extents.specs.Laws.{PartsMakeWholes};

/// The parts of a type with a layout have together the references of the whole, each of which takes 4 bytes: so `Extents::part` answers
/// of each part of a type that fits.
pub fn parts_make_wholes()
    ensures { PartsMakeWholes }
{}
