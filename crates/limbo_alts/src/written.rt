//! How arms are written.

ghost use Rattle.std.specs.Prelude.{◌≡◌};
ghost use Rattle.limbo_tree.specs.View as source;
ghost use Rattle.limbo_stmt_values.specs.limbo_stating.Alts as alts;

use limbo_tree::{AssignOp, Expr, assign_in, received_in};

// Whether an expression is written as a receive.
fn is_receive(e: &Expr) -> bool
    ensures { result ≡ alts.is_receive (source.view_expr e.now) }
{
    received_in(e).is_some()
}

// Whether what is assigned, declared or sent so is an arm, by its right side.
fn is_given(op: AssignOp, right: &Expr) -> bool
    ensures { result ≡ alts.is_given op (source.view_expr right.now) }
{
    match op {
        AssignOp::Send => true,
        AssignOp::Assign => is_receive(right),
        AssignOp::Define => is_receive(right),
        _ => false,
    }
}

/// Whether an expression is written as a send, or as a receive alone or to the right of `=` or `:=`.
pub(crate) fn is_arm(e: &Expr) -> bool
    ensures { result ≡ alts.is_arm (source.view_expr e.now) }
{
    match assign_in(e) {
        Some((op, _, right)) => is_given(op, right),
        None => is_receive(e),
    }
}
