//! What holds of the context that a source gives.

ghost use Rattle.limbo_source_context.specs.Laws.{OneContext, OneBeginnings, FailsOrContext};

/// A source gives one context at most.
pub fn one_context()
    ensures { OneContext }
{}

/// The variables of a source's module begin with one list of constants at most.
pub fn one_beginnings()
    ensures { OneBeginnings }
{}

/// A source that is refused, by another cause than want of memory, has no context with which all is right.
pub fn fails_or_context()
    ensures { FailsOrContext }
{}
