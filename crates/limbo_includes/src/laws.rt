//! What holds of included texts.

ghost use Rattle.limbo_includes.specs.Laws.{OneRow, WholeHasRow};

/// A text flattens to one row at most.
pub fn one_row()
    ensures { OneRow }
{}

/// A source whose includes aren't too deep and lack nothing flattens to a row.
pub fn whole_has_row()
    ensures { WholeHasRow }
{}
