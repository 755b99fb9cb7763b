//! What holds of scopes and meanings.

ghost use Rattle.limbo_meanings.specs.Laws.{NamesInside, NamesOutermost};

/// In the scope of what stands inside a declaration a name means what the declaration of the name there means.
pub fn names_of_a_scope()
    ensures { NamesInside }
{}

/// Where a body begins a name means what the declaration means that the name finds at the top level.
pub fn names_of_the_top_level()
    ensures { NamesOutermost }
{}
