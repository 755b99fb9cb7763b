//! What holds of the definitions.

ghost use Rattle.limbo_declared_types.specs.Laws.{ForbiddenOrAllPermitted};

/// Where all that declarations write is permitted, no declaration is forbidden.
pub fn forbidden_or_all_permitted()
    ensures { ForbiddenOrAllPermitted }
{}
