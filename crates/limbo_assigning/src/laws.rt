//! What holds of the definitions.

ghost use Rattle.limbo_assigning.specs.Laws.{OneAssigned, OneCopied};

/// An assignment and a copy give one expression at most.
pub fn one_expression()
    ensures assigned { OneAssigned }
    ensures copied { OneCopied }
{}
