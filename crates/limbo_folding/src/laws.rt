//! What holds of constants.

ghost use Rattle.limbo_folding.specs.Laws.{InItsRange};

/// The constant that an expression is, where its type fits its form, is one of its type.
pub fn in_range()
    ensures { InItsRange }
{}
