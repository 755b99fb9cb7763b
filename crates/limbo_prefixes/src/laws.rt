//! What holds of the definitions.

ghost use Rattle.limbo_prefixes.specs.Laws.{OneUnaryRow, UnaryGives, BytesGive};

/// For an operator and an operand of a given type the table has one row at most.
pub fn one_row()
    ensures { OneUnaryRow }
{}

/// An operand of the type that a row asks fits its operation, which gives a value of the row's type.
pub fn rows_give()
    ensures unary { UnaryGives }
    ensures bytes { BytesGive }
{}
