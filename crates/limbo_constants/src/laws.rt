//! What holds of constant expressions.

ghost use Rattle.limbo_constants.specs.Laws.{DependsOnAsked, HasItsSort, StaysInRange};

/// What an expression comes to depends on nothing but what its asked parts mean.
pub fn depends_on_asked()
    ensures { DependsOnAsked }
{}

/// The sort of what an expression comes to, also where it raises, is the one that the table gives by the sorts of the asked
/// parts; where the table gives none, it comes to nothing.
pub fn has_its_sort()
    ensures { HasItsSort }
{}

/// Where the asked parts mean constants in range, and the strings that are written are in range, the constant that an
/// expression is is in range: a number of its kind, or a string of at most 16,777,216 characters.
pub fn stays_in_range()
    ensures { StaysInRange }
{}
