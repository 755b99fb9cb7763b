//! What holds of rows that drop references, and of those that take parts.

ghost use Rattle.rows_dropping.specs.Rows.{DropsGo, PicksGo};

/// A reference of a slot's value goes.
pub fn drops_go()
    ensures { DropsGo }
{}

/// A part of a slot's value moves into another slot.
pub fn picks_go()
    ensures { PicksGo }
{}
