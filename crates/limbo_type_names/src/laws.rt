//! What holds of types.

ghost use Rattle.limbo_type_names.specs.Laws.{OneType, NoTypeStands, NoneCircular, FailsOrMeans, ByTypeStands};

/// A written type means at most one type.
pub fn one_type()
    ensures { OneType }
{}

/// A declaration that is no type stands for none.
pub fn no_type_stands_for_none()
    ensures { NoTypeStands }
{}

/// A declaration that goes in a circle stands for nothing.
pub fn circles_stand_for_nothing()
    ensures { NoneCircular }
{}

/// A written type that fails means nothing.
pub fn fails_or_means()
    ensures { FailsOrMeans }
{}

/// Where there are types, each name by `type` stands for one.
pub fn by_type_stands()
    ensures { ByTypeStands }
{}
