//! What typed expressions wait for.

ghost use Rattle.std.specs.Prelude.{◌≡◌, option_map};
ghost use Rattle.limbo_typed.specs.View.{view_expr, view_pattern, view_alt_head};
ghost use Rattle.limbo_stmt_values.specs.limbo_stating.Alts as alts;
ghost use Rattle.limbo_alts.specs.Assigned.{received_to};

use limbo_typed::{AltHead, Pattern, TExpr, TNode};

// What an assignment waits for: a value for its left side, where its right side is a receive.
#[tactic(auto, using(limbo_typed::proofs::View::the_exprs))]
fn received(pattern: Box<Pattern>, value: Box<TExpr>) -> Option<AltHead>
    ensures { option_map view_alt_head result ≡ received_to (view_pattern pattern.value) (view_expr value.value) }
{
    let TExpr { ty: _, node } = Box::into_inner(value);
    match node {
        TNode::Receive { channel } => Some(AltHead::Receive {
            pattern: Some(pattern),
            channel,
        }),
        _ => None,
    }
}

/// What an expression waits for: a receive, an assignment of one, or a send.
#[tactic(auto, using(limbo_typed::proofs::View::the_exprs))]
pub(crate) fn waits_for(x: Box<TExpr>) -> Option<AltHead>
    ensures { option_map view_alt_head result ≡ alts.waits_for (view_expr x.value) }
{
    let TExpr { ty: _, node } = Box::into_inner(x);
    match node {
        TNode::Receive { channel } => Some(AltHead::Receive {
            pattern: None,
            channel,
        }),
        TNode::Send { channel, value } => Some(AltHead::Send { channel, value }),
        TNode::Assign { pattern, value } => received(pattern, value),
        _ => None,
    }
}
