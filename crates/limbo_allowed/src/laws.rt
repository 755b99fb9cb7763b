//! What holds of the definitions.

ghost use Rattle.limbo_allowed.specs.Allowed.{RefusedOrAllowed};

/// No type is allowed of which a refusal holds.
pub fn refused_or_allowed()
    ensures { RefusedOrAllowed }
{}
