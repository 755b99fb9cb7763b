//! What holds of rows that put values together.

ghost use Rattle.rows_forming.specs.Rows.{FirstPlacesGo, LaterPlacesGo, GathersGo, EmptyGathersGo};

/// The first operand moves to what is put together.
pub fn first_places_go()
    ensures { FirstPlacesGo }
{}

/// So does an operand behind it.
pub fn later_places_go()
    ensures { LaterPlacesGo }
{}

/// A value is there whose operands are.
pub fn gathers_go()
    ensures { GathersGo }
{}

/// So is one without operands.
pub fn empty_gathers_go()
    ensures { EmptyGathersGo }
{}
