//! What holds of what a source declares.

ghost use Rattle.limbo_declare.specs.Laws.{OneScope, RefusedDeclaresNothing};

/// A source declares one thing at most.
pub fn one_scope()
    ensures { OneScope }
{}

/// A source of which a refusal holds declares nothing.
pub fn refused_declares_nothing()
    ensures { RefusedDeclaresNothing }
{}
