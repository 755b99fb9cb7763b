//! What a `pick` chooses from.

ghost use Rattle.std.specs.Prelude.{◌≡◌, IfOk, IfErr, IfSome, IfNone};
ghost use Rattle.limbo_tree.specs.View as source;
ghost use Rattle.limbo_typed.specs.View.{view_expr};
ghost use Rattle.limbo_layout.specs.View.{view_defs};
ghost use Rattle.limbo_exprs.specs.limbo_prefixes.Choosing as choosing;
ghost use Rattle.limbo_refusals.specs.Refusals.{NoneIs};
ghost use Rattle.limbo_context.specs.View.{view_context, view_body};
ghost use Rattle.limbo_stating.specs.Picks.{IsPicked, Picks, FailsToPick};
ghost use Rattle.limbo_stmt_values.specs.Leading.{From, Leads};
ghost use Rattle.limbo_stmt_values.specs.Whys.{FailsFor};

use crate::fault::{StmtFault, Why, part_fault};
use limbo_context::{Body, Context};
use limbo_exprs::value;
use limbo_forms::ref_of;
use limbo_layout::AdtDef;
use limbo_tree::{Expr, span_of};
use limbo_typed::TExpr;
use std::alloc::Global;

/// A reference, and the number of the pick adt that it is a `ref` of.
#[derive(Drop)]
pub struct Picked {
    pub value: Box<TExpr>,
    pub adt: u32,
}

// Whether an adt of this number has variants.
fn has_picks(defs: &[AdtDef], number: u32) -> bool
    ensures { result ≡ choosing.is_pick (view_defs defs.now) number }
{
    match defs.get(number as usize) {
        Some(def) => !def.picks.is_empty(),
        None => false,
    }
}

// The pick adt of which a value is a `ref`.
fn pick_of(context: &Context, x: &TExpr) -> Option<u32>
    ensures found { IfSome result (λ a. IsPicked (view_context context.now) (view_expr x.now) a) }
    ensures none { IfNone result (NoneIs (IsPicked (view_context context.now) (view_expr x.now))) }
{
    match ref_of(&x.ty) {
        Some(adt) => {
            if has_picks(context.adts.defs(), adt) {
                Some(adt)
            } else {
                None
            }
        }
        None => None,
    }
}

/// What a `pick` chooses from.
///
/// # Errors
/// Those of the expression, and 62 where it is no `ref` of a pick adt.
pub fn pick_value(
    alloc: Global,
    context: &Context,
    body: &mut Body,
    e: &Expr,
) -> Result<Picked, StmtFault>
    ensures picks { IfOk result (λ x. Leads (λ p q. Picks p (source.view_expr e.now) (view_expr x.value.value) x.adt q)
        (view_context context.now) (view_body body.old) (view_body body.new)) }
    ensures refused { IfErr result (λ f. FailsFor f.why
        (λ k. From (λ p. FailsToPick p (source.view_expr e.now) k) (view_context context.now) (view_body body.old))) }
{
    match value(alloc, context, body, e) {
        Err(fault) => Err(part_fault(fault)),
        Ok(value) => match pick_of(context, &value) {
            Some(adt) => Ok(Picked { value, adt }),
            None => Err(StmtFault {
                why: Why::BadPick,
                at: span_of(e),
            }),
        },
    }
}
