//! What holds of rows of chains.

ghost use Rattle.rows_chaining.specs.Rows.{KeepsGo, TakesGo};

/// A region of slots comes back from a loop's chain, or the turn is passed.
pub fn takes_go()
    ensures { TakesGo }
{}

/// A region becomes the last of a loop's chain, where nothing is put together in its slots and no chain is there.
pub fn keeps_go()
    ensures { KeepsGo }
{}
