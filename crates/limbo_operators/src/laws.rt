//! What holds of the definitions.

ghost use Rattle.limbo_operators.specs.Laws.{OneBinaryRow, BinaryGives};

/// For an operator and operands of given types the table has one row at most.
pub fn one_row()
    ensures { OneBinaryRow }
{}

/// Operands of the types that a row asks fit its operation, which gives a value of the row's type, once that isn't open.
pub fn rows_give()
    ensures { BinaryGives }
{}
