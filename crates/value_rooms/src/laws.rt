//! What holds of the references of values.

ghost use Rattle.value_rooms.specs.Laws.{NamesLieInside};

/// The references of a value that has a layout stand in it: so `Rooms::names_at` answers of each type that fits.
pub fn names_lie_inside()
    ensures { NamesLieInside }
{}
