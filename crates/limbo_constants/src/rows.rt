//! What the operators of constant expressions do, and the table of their sorts.

ghost use Rattle.std.specs.Prelude.{◌≡◌};
ghost use Rattle.limbo_constants.specs.Sorts as sorts;

use crate::constant::Sort;
use limbo_tree::{BinaryOp, UnaryOp};
use limbo_values::{Comparison, Kind, Operator, Shift, Unary};

/// What an operator before an operand does.
#[derive(Clone, Copy)]
pub enum Before {
    /// `+ - ~`
    Alter(Unary),
    /// `!`
    Deny,
    /// `len`
    Count,
    /// `byte int big`
    Convert(Kind),
}

/// An operation on two values.
#[derive(Clone, Copy)]
pub enum Operation {
    /// `+ - * / % & ^ |`
    Apply(Operator),
    /// `<< >>`
    Shift(Shift),
    /// `== != < <= > >=`
    Compare(Comparison),
}

/// What an operator between two operands does.
#[derive(Clone, Copy)]
pub enum Between {
    /// `&&`
    And,
    /// `||`
    Or,
    /// What asks for both values.
    Values(Operation),
}

/// What an operator before an operand does, if it can be constant.
pub fn before_row(op: UnaryOp) -> Option<Before>
    ensures { result ≡ sorts.before_row op }
{
    match op {
        UnaryOp::Plus => Some(Before::Alter(Unary::Plus)),
        UnaryOp::Minus => Some(Before::Alter(Unary::Minus)),
        UnaryOp::Complement => Some(Before::Alter(Unary::Complement)),
        UnaryOp::Not => Some(Before::Deny),
        UnaryOp::Len => Some(Before::Count),
        UnaryOp::Byte => Some(Before::Convert(Kind::Byte)),
        UnaryOp::Int => Some(Before::Convert(Kind::Int)),
        UnaryOp::Big => Some(Before::Convert(Kind::Big)),
        _ => None,
    }
}

/// What an operator between two operands does, if it can be constant.
pub fn between_row(op: BinaryOp) -> Option<Between>
    ensures { result ≡ sorts.between_row op }
{
    match op {
        BinaryOp::OrOr => Some(Between::Or),
        BinaryOp::AndAnd => Some(Between::And),
        BinaryOp::Cons => None,
        BinaryOp::Or => Some(Between::Values(Operation::Apply(Operator::Or))),
        BinaryOp::Xor => Some(Between::Values(Operation::Apply(Operator::Xor))),
        BinaryOp::And => Some(Between::Values(Operation::Apply(Operator::And))),
        BinaryOp::Equal => Some(Between::Values(Operation::Compare(Comparison::Equal))),
        BinaryOp::NotEqual => Some(Between::Values(Operation::Compare(Comparison::Unequal))),
        BinaryOp::Less => Some(Between::Values(Operation::Compare(Comparison::Less))),
        BinaryOp::LessEqual => Some(Between::Values(Operation::Compare(Comparison::AtMost))),
        BinaryOp::Greater => Some(Between::Values(Operation::Compare(Comparison::Greater))),
        BinaryOp::GreaterEqual => Some(Between::Values(Operation::Compare(Comparison::AtLeast))),
        BinaryOp::Shl => Some(Between::Values(Operation::Shift(Shift::Left))),
        BinaryOp::Shr => Some(Between::Values(Operation::Shift(Shift::Right))),
        BinaryOp::Add => Some(Between::Values(Operation::Apply(Operator::Add))),
        BinaryOp::Sub => Some(Between::Values(Operation::Apply(Operator::Subtract))),
        BinaryOp::Mul => Some(Between::Values(Operation::Apply(Operator::Multiply))),
        BinaryOp::Div => Some(Between::Values(Operation::Apply(Operator::Divide))),
        BinaryOp::Rem => Some(Between::Values(Operation::Apply(Operator::Remainder))),
    }
}

/// The sort of what an operator gives before an operand of a sort, if it fits there.
pub fn sort_before(row: Before, operand: Sort) -> Option<Sort>
    ensures { result ≡ sorts.sort_before row operand }
{
    match row {
        Before::Alter(_) => fitting(operand.is_number(), operand),
        Before::Deny => fitting(operand.is_int(), operand),
        Before::Count => fitting(!operand.is_number(), Sort::Number(Kind::Int)),
        Before::Convert(kind) => fitting(operand.is_number(), Sort::Number(kind)),
    }
}

/// The sort of what an operator gives between two operands of these sorts, if it fits there.
pub fn sort_between(row: Between, left: Sort, right: Sort) -> Option<Sort>
    ensures { result ≡ sorts.sort_between row left right }
{
    match row {
        Between::And | Between::Or => fitting(left.is_int() && right.is_int(), left),
        Between::Values(operation) => sort_of_values(operation, left, right),
    }
}

// The sort of what an operation gives of values of these sorts, if it fits them.
fn sort_of_values(operation: Operation, left: Sort, right: Sort) -> Option<Sort>
    ensures { result ≡ sorts.sort_between (Between.Values operation) left right }
{
    match operation {
        Operation::Apply(by) => fitting(left.is_same(right) && has_operator(left, by), left),
        Operation::Shift(_) => fitting(left.is_number() && right.is_int(), left),
        Operation::Compare(_) => fitting(left.is_same(right), Sort::Number(Kind::Int)),
    }
}

// Whether values of a sort have an operator: strings have `+` alone.
fn has_operator(sort: Sort, operator: Operator) -> bool
    ensures { result ≡ sorts.has_operator sort operator }
{
    match operator {
        Operator::Add => true,
        _ => sort.is_number(),
    }
}

// A sort where it fits.
fn fitting(fits: bool, sort: Sort) -> Option<Sort>
    ensures { result ≡ sorts.fitting fits sort }
{
    if fits { Some(sort) } else { None }
}
