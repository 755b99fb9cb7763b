//! What holds of scopes.

ghost use Rattle.limbo_scope.specs.Laws.{GivesBack, InnermostCounts};

/// Who enters a scope, declares anything in it and leaves it has the scopes that there were.
pub fn gives_back()
    ensures { GivesBack }
{}

/// The innermost declaration of a name counts, and hides no other name. A scope without declarations hides none.
pub fn innermost_counts()
    ensures { InnermostCounts }
{}
