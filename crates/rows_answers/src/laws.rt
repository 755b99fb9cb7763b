//! What holds of these rows: the machine's code of one leads from where two processes stand alike to where they do again.

ghost use Rattle.rows_answers.specs.Rows.{StartsGo, SkipsGo, ReferenceReturns, BoxReturns, ZeroReturns};

/// A loop begins.
pub fn starts_go()
    ensures { StartsGo }
{}

/// A connective is decided by its left operand, or isn't.
pub fn skips_go()
    ensures { SkipsGo }
{}

/// A return gives a reference.
pub fn reference_returns()
    ensures { ReferenceReturns }
{}

/// A return gives a value that has a box.
pub fn box_returns()
    ensures { BoxReturns }
{}

/// A return without a slot gives the zero of a type whose values have a box.
pub fn zero_returns()
    ensures { ZeroReturns }
{}
