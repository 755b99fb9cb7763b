//! What holds of the definitions.

ghost use Rattle.limbo_updating.specs.Laws.{OneUpdate};

/// A place and a value are put together to one expression at most.
pub fn one_update()
    ensures { OneUpdate }
{}
