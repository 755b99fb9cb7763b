//! What the signs of operators between two operands mean.

ghost use Rattle.std.specs.Prelude.{◌≡◌};
ghost use Rattle.limbo_operators.specs.Rows as rows;

use limbo_tree::{AssignOp, BinaryOp};
use limbo_typed::Connective;
use limbo_values::{Comparison, Operator, Shift};

/// What an operator does between two operands, whatever their types.
#[derive(Clone, Copy)]
pub enum Binary {
    /// `+ - * / % & ^ |`
    Arithmetic(Operator),
    /// `<<` and `>>`
    Shift(Shift),
    /// `== != < <= > >=`
    Compare(Comparison),
    /// `::`
    Cons,
    /// `&&` and `||`
    Lazy(Connective),
}

/// What an operator between two operands does.
pub fn binary_of(op: BinaryOp) -> Binary
    ensures { result ≡ rows.binary_of op }
{
    match op {
        BinaryOp::Add => Binary::Arithmetic(Operator::Add),
        BinaryOp::Sub => Binary::Arithmetic(Operator::Subtract),
        BinaryOp::Mul => Binary::Arithmetic(Operator::Multiply),
        BinaryOp::Div => Binary::Arithmetic(Operator::Divide),
        BinaryOp::Rem => Binary::Arithmetic(Operator::Remainder),
        BinaryOp::And => Binary::Arithmetic(Operator::And),
        BinaryOp::Or => Binary::Arithmetic(Operator::Or),
        BinaryOp::Xor => Binary::Arithmetic(Operator::Xor),
        BinaryOp::Shl => Binary::Shift(Shift::Left),
        BinaryOp::Shr => Binary::Shift(Shift::Right),
        BinaryOp::Equal => Binary::Compare(Comparison::Equal),
        BinaryOp::NotEqual => Binary::Compare(Comparison::Unequal),
        BinaryOp::Less => Binary::Compare(Comparison::Less),
        BinaryOp::LessEqual => Binary::Compare(Comparison::AtMost),
        BinaryOp::Greater => Binary::Compare(Comparison::Greater),
        BinaryOp::GreaterEqual => Binary::Compare(Comparison::AtLeast),
        BinaryOp::Cons => Binary::Cons,
        BinaryOp::AndAnd => Binary::Lazy(Connective::And),
        BinaryOp::OrOr => Binary::Lazy(Connective::Or),
    }
}

/// What an assignment with an operator does with the old value and the other operand. The other assignments are forms of their own.
pub fn updating(op: AssignOp) -> Option<Binary>
    ensures { result ≡ rows.updating op }
{
    match op {
        AssignOp::Add => Some(Binary::Arithmetic(Operator::Add)),
        AssignOp::Sub => Some(Binary::Arithmetic(Operator::Subtract)),
        AssignOp::Mul => Some(Binary::Arithmetic(Operator::Multiply)),
        AssignOp::Div => Some(Binary::Arithmetic(Operator::Divide)),
        AssignOp::Rem => Some(Binary::Arithmetic(Operator::Remainder)),
        AssignOp::And => Some(Binary::Arithmetic(Operator::And)),
        AssignOp::Or => Some(Binary::Arithmetic(Operator::Or)),
        AssignOp::Xor => Some(Binary::Arithmetic(Operator::Xor)),
        AssignOp::Shl => Some(Binary::Shift(Shift::Left)),
        AssignOp::Shr => Some(Binary::Shift(Shift::Right)),
        AssignOp::Assign => None,
        AssignOp::Define => None,
        AssignOp::Send => None,
    }
}
