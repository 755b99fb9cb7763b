//! What holds of written types.

ghost use Rattle.limbo_body_types.specs.Laws.{OneType, FailsOrMeans};

/// A written type means at most one type.
pub fn one_type()
    ensures { OneType }
{}

/// What fails, by another cause than want of memory, means nothing.
pub fn fails_or_means()
    ensures { FailsOrMeans }
{}
