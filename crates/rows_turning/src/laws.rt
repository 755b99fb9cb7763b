//! What holds of rows of loops.

ghost use Rattle.rows_turning.specs.Rows.{NextsGo, TakesEnd};

/// A loop goes on to the next index that isn't named, or ends.
pub fn named_nexts_go()
    ensures { NextsGo }
{}

/// What a loop's turns held has come to its end.
pub fn takes_end()
    ensures { TakesEnd }
{}
