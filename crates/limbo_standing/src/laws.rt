//! What holds of the definitions.

ghost use Rattle.limbo_standing.specs.Laws.{OneType, OneSettled, SettledStands, SettledAsItIs};

/// The elements of a literal have one type at most.
pub fn one_type()
    ensures { OneType }
{}

/// Where a type is asked for, a value is one tree at most, whose type stands there; a value of the very type is itself.
pub fn settled_values()
    ensures once { OneSettled }
    ensures stands { SettledStands }
    ensures as_it_is { SettledAsItIs }
{}
