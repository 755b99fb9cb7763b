//! `case`, `alt` and `pick`.

ghost use Rattle.std.specs.Prelude.{◌≡◌, IfOk, IfErr, List, ℕ, map};
ghost use Rattle.limbo_tree.specs.Stmts as tree;
ghost use Rattle.limbo_tree.specs.View as source;
ghost use Rattle.limbo_typed.specs.Typed as typed;
ghost use Rattle.limbo_typed.specs.View.{view_expr, view_stmt, view_case_arm, view_alt_arm, view_pick_arm, heads_of, bodies_of};
ghost use Rattle.limbo_stmt_values.specs.limbo_stating.Reasons as reasons;
ghost use Rattle.limbo_stmt_values.specs.limbo_stating.Cases.{AreApart};
ghost use Rattle.limbo_stmt_values.specs.limbo_stating.Alts.{HasOneStar};
ghost use Rattle.limbo_stmt_values.specs.limbo_stating.Picks.{PickOnce};
ghost use Rattle.limbo_stmt_values.specs.Whys.{FailsFor};
ghost use Rattle.limbo_stmts.specs.Stated.{IsStated, IsNone};

use crate::arms::{alt_arms, case_arms, pick_arms};
use crate::faults::{boxed, no_memory};
use crate::point::Point;
use inf_text::{Span, Text};
use limbo_heads::{Around, are_apart, has_one_star, pick_once};
use limbo_stmt_values::{Picked, StmtFault, Why, choose, part_fault, pick_value};
use limbo_tree::{Expr, Name};
use limbo_typed::{AltArm, CaseArm, PickArm, TExpr, TStmt};
use std::alloc::Global;

// A `case` of which the labels are apart.
#[tactic(auto, using(limbo_typed::proofs::View::the_stmts))]
fn made_case(
    alloc: Global,
    value: Box<TExpr>,
    arms: Vec<CaseArm>,
    at: Span,
) -> Result<Box<TStmt>, StmtFault>
    ensures made { IfOk result (λ z. view_stmt z.value
        ≡ typed.Case (view_expr value.value) (heads_of (map view_case_arm arms.items)) (bodies_of (map view_case_arm arms.items))) }
    ensures apart { IfOk result (λ _. AreApart (heads_of (map view_case_arm arms.items))) }
    ensures refused { IfErr result (λ f. FailsFor f.why
        (λ k. (k ≡ reasons.CaseOverlap) × (AreApart (heads_of (map view_case_arm arms.items)) → ⊥))) }
{
    match are_apart(alloc, &arms) {
        Ok(true) => boxed(alloc, TStmt::Case { value, arms }),
        Ok(false) => Err(StmtFault {
            why: Why::CaseOverlap,
            at,
        }),
        Err(_) => Err(no_memory()),
    }
}

/// `case`
#[cycle(statements)]
pub(crate) fn case_of<'a>(
    alloc: Global,
    around: &Around<'a>,
    point: &mut Point,
    label: &'a Option<Name>,
    value: &Expr,
    arms: &'a [limbo_tree::CaseArm],
    at: Span,
) -> Result<Box<TStmt>, StmtFault>
    ensures states { IfOk result (λ z. IsStated around.now point.old (tree.Case (source.name_of label.now) (source.view_expr value.now)
        (source.arms_of (map source.view_case_arm arms.now))) z.value point.new) }
    ensures refused { IfErr result (λ f. IsNone around.now point.old (tree.Case (source.name_of label.now) (source.view_expr value.now)
        (source.arms_of (map source.view_case_arm arms.now))) f.why) }
{
    match choose(alloc, &point.context, &mut point.body, value) {
        Err(fault) => Err(part_fault(fault)),
        Ok(x) => match around.in_branch(alloc, label) {
            Err(_) => Err(no_memory()),
            Ok(inner) => match case_arms(alloc, &inner, point, &x.ty, arms) {
                Err(fault) => Err(fault),
                Ok(arms) => made_case(alloc, x, arms, at),
            },
        },
    }
}

// An `alt` with one `*` at most.
#[tactic(auto, using(limbo_typed::proofs::View::the_stmts))]
fn made_alt(alloc: Global, arms: Vec<AltArm>, at: Span) -> Result<Box<TStmt>, StmtFault>
    ensures made { IfOk result (λ z. view_stmt z.value
        ≡ typed.Alt (heads_of (map view_alt_arm arms.items)) (bodies_of (map view_alt_arm arms.items))) }
    ensures one_star { IfOk result (λ _. HasOneStar (heads_of (map view_alt_arm arms.items))) }
    ensures refused { IfErr result (λ f. FailsFor f.why
        (λ k. (k ≡ reasons.BadAlt) × (HasOneStar (heads_of (map view_alt_arm arms.items)) → ⊥))) }
{
    if has_one_star(&arms) {
        boxed(alloc, TStmt::Alt { arms })
    } else {
        Err(StmtFault {
            why: Why::BadAlt,
            at,
        })
    }
}

/// `alt`
#[cycle(statements)]
pub(crate) fn alt_of<'a>(
    alloc: Global,
    around: &Around<'a>,
    point: &mut Point,
    label: &'a Option<Name>,
    arms: &'a [limbo_tree::AltArm],
    at: Span,
) -> Result<Box<TStmt>, StmtFault>
    ensures states { IfOk result (λ z. IsStated around.now point.old
        (tree.Alt (source.name_of label.now) (source.arms_of (map source.view_alt_arm arms.now))) z.value point.new) }
    ensures refused { IfErr result (λ f. IsNone around.now point.old
        (tree.Alt (source.name_of label.now) (source.arms_of (map source.view_alt_arm arms.now))) f.why) }
{
    match around.in_branch(alloc, label) {
        Err(_) => Err(no_memory()),
        Ok(inner) => match alt_arms(alloc, &inner, point, arms) {
            Err(fault) => Err(fault),
            Ok(arms) => made_alt(alloc, arms, at),
        },
    }
}

// A `pick` that names each variant once at most.
#[tactic(auto, using(limbo_typed::proofs::View::the_stmts))]
fn made_pick(
    alloc: Global,
    value: Box<TExpr>,
    arms: Vec<PickArm>,
    at: Span,
) -> Result<Box<TStmt>, StmtFault>
    ensures made { IfOk result (λ z. view_stmt z.value
        ≡ typed.Pick (view_expr value.value) (heads_of (map view_pick_arm arms.items)) (bodies_of (map view_pick_arm arms.items))) }
    ensures once { IfOk result (λ _. PickOnce (heads_of (map view_pick_arm arms.items))) }
    ensures refused { IfErr result (λ f. FailsFor f.why
        (λ k. (k ≡ reasons.BadPick) × (PickOnce (heads_of (map view_pick_arm arms.items)) → ⊥))) }
{
    match pick_once(alloc, &arms) {
        Ok(true) => boxed(alloc, TStmt::Pick { value, arms }),
        Ok(false) => Err(StmtFault {
            why: Why::BadPick,
            at,
        }),
        Err(_) => Err(no_memory()),
    }
}

/// `pick`
#[cycle(statements)]
pub(crate) fn pick_of<'a>(
    alloc: Global,
    around: &Around<'a>,
    point: &mut Point,
    label: &'a Option<Name>,
    name: &Text,
    value: &Expr,
    arms: &'a [limbo_tree::PickArm],
    at: Span,
) -> Result<Box<TStmt>, StmtFault>
    ensures states { IfOk result (λ z. IsStated around.now point.old (tree.Pick (source.name_of label.now) name.now
        (source.view_expr value.now) (source.arms_of (map source.view_pick_arm arms.now))) z.value point.new) }
    ensures refused { IfErr result (λ f. IsNone around.now point.old (tree.Pick (source.name_of label.now) name.now
        (source.view_expr value.now) (source.arms_of (map source.view_pick_arm arms.now))) f.why) }
{
    match pick_value(alloc, &point.context, &mut point.body, value) {
        Err(fault) => Err(fault),
        Ok(picked) => match around.in_branch(alloc, label) {
            Err(_) => Err(no_memory()),
            Ok(inner) => match pick_arms(alloc, &inner, point, name, picked.adt, arms) {
                Err(fault) => Err(fault),
                Ok(arms) => {
                    let Picked { value, .. } = picked;
                    made_pick(alloc, value, arms, at)
                }
            },
        },
    }
}
