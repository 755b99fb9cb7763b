//! What holds of the definitions.

ghost use Rattle.limbo_local.specs.Laws.{FailsOrDeclares, OneDeclared};

/// A declaration is one statement at most, and leads to one point.
pub fn one_declared()
    ensures { OneDeclared }
{
    limbo_typing::one_typed();
    limbo_standing::settled_values();
}

/// What fails, by whatever cause, declares nothing.
pub fn fails_or_declares()
    ensures { FailsOrDeclares }
{
    limbo_typing::one_typed();
    limbo_typing::fails_or_types();
    limbo_standing::settled_values();
}
