//! What holds of the typed trees of expressions.

ghost use Rattle.limbo_typed_sound.specs.Laws.{TypedAreSound, ValuesAreSound, TypedAreSoundAs, ValuesAreSoundAs, PatternsAreSound};
ghost use Rattle.limbo_typed_sound.specs.Laws.{SpelledInRange, TokensInRange};
ghost use Rattle.limbo_typed_sound.specs.Laws.{TypedGrow, ValuesGrow, PatternsGrow, TypedStayWell, ValuesStayWell, PatternsStayWell};

/// Typed trees are sound, as they are and where types are asked for.
pub fn typed_trees_are_sound()
    ensures typed { TypedAreSound }
    ensures value { ValuesAreSound }
    ensures typed_as { TypedAreSoundAs }
    ensures value_as { ValuesAreSoundAs }
{}

/// Left sides are sound for the values that they take.
pub fn patterns_are_sound()
    ensures { PatternsAreSound }
{}

/// The numbers of an expression that is read from a text are in the ranges of their types.
pub fn numbers_are_in_range()
    ensures spelled { SpelledInRange }
    ensures token { TokensInRange }
{}

/// A body has as many variables behind an expression as before it, or more.
pub fn variables_only_grow()
    ensures typed { TypedGrow }
    ensures value { ValuesGrow }
    ensures pattern { PatternsGrow }
{}

/// A body that is well stays so.
pub fn bodies_stay_well()
    ensures typed { TypedStayWell }
    ensures value { ValuesStayWell }
    ensures pattern { PatternsStayWell }
{}
