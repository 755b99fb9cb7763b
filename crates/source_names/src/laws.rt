//! What holds of what a source declares, where files are told.

ghost use Rattle.source_names.specs.Laws.{OneScope, RefusedDeclaresNothing, NoTextDeclaresNothing};

/// A source declares one thing at most.
pub fn one_scope()
    ensures { OneScope }
{}

/// A source of which a refusal holds declares nothing.
pub fn refused_declares_nothing()
    ensures { RefusedDeclaresNothing }
{}

/// A source declares nothing that includes what is no included text.
pub fn no_text_declares_nothing()
    ensures { NoTextDeclaresNothing }
{}
