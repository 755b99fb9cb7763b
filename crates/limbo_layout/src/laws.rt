//! What holds of layouts.

ghost use Rattle.limbo_layout.specs.Laws.{OneLayout, HoldsNotItself, PartsLieApart, AreAligned};

/// A type takes one room at most.
pub fn one_layout()
    ensures { OneLayout }
{}

/// An adt that has a layout doesn't hold itself as a value, through adts and tuples.
pub fn holds_not_itself()
    ensures { HoldsNotItself }
{}

/// The parts of a tuple or an adt don't overlap, and lie inside the whole.
pub fn parts_lie_apart()
    ensures { PartsLieApart }
{}

/// A part stands at a multiple of its alignment, and a whole takes a multiple of its own.
pub fn are_aligned()
    ensures { AreAligned }
{}
