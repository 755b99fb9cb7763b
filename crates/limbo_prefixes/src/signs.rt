//! What the signs of operators before one operand mean.

ghost use Rattle.std.specs.Prelude.{◌≡◌};
ghost use Rattle.limbo_prefixes.specs.Rows as rows;

use limbo_tree::{PostfixOp, UnaryOp};
use limbo_values::{Kind, Unary};

/// The operators on one number. `++` and `--` stand before a place there.
#[tactic(auto, using(crate::proofs::Others::not_altering))]
pub fn altering(op: UnaryOp) -> Option<Unary>
    ensures { result ≡ rows.altering op }
{
    match op {
        UnaryOp::Plus => Some(Unary::Plus),
        UnaryOp::Minus => Some(Unary::Minus),
        UnaryOp::Complement => Some(Unary::Complement),
        UnaryOp::Increment => Some(Unary::Increment),
        UnaryOp::Decrement => Some(Unary::Decrement),
        _ => None,
    }
}

/// The kind of number to which an operator converts.
#[tactic(auto, using(crate::proofs::Others::not_converting))]
pub fn converting(op: UnaryOp) -> Option<Kind>
    ensures { result ≡ rows.converting op }
{
    match op {
        UnaryOp::Byte => Some(Kind::Byte),
        UnaryOp::Int => Some(Kind::Int),
        UnaryOp::Big => Some(Kind::Big),
        _ => None,
    }
}

/// The operator before a place that changes it as this one behind it does.
pub fn before_of(op: PostfixOp) -> UnaryOp
    ensures { result ≡ rows.before_of op }
{
    match op {
        PostfixOp::Increment => UnaryOp::Increment,
        PostfixOp::Decrement => UnaryOp::Decrement,
    }
}
