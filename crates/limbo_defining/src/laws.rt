//! What holds of the definitions.

ghost use Rattle.limbo_defining.specs.Laws.{OneDefinition, FailsOrDefines};

/// A left side is one pattern at most, and leads to one body.
pub fn one_definition()
    ensures { OneDefinition }
{}

/// What fails declares no variables.
pub fn fails_or_defines()
    ensures { FailsOrDefines }
{}
