//! What holds of the definitions.

ghost use Rattle.limbo_permits.specs.Laws.{ForbiddenOrPermitted};

/// Nothing may stand of which a refusal holds: no type, and no expression.
pub fn forbidden_or_permitted()
    ensures { ForbiddenOrPermitted }
{}
