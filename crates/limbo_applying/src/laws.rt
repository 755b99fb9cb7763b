//! What holds of the definitions.

ghost use Rattle.limbo_applying.specs.Laws.{OneApplied};

/// What is applied to arguments is one expression at most.
pub fn one_applied()
    ensures { OneApplied }
{}
