//! What is raised.

ghost use Rattle.std.specs.Prelude.{◌≡◌, ◌≢◌, [], Some, IfOk, IfErr, map, option_map, slice_get};
ghost use Rattle.limbo_tree.specs.View as source;
ghost use Rattle.limbo_types.specs.Types.{Chars};
ghost use Rattle.limbo_types.specs.View.{view_ty};
ghost use Rattle.limbo_typed.specs.View.{view_stmt, view_exception};
ghost use Rattle.limbo_typed.specs.Typed.{RaiseDeclared, NoExprs};
ghost use Rattle.limbo_causes.specs.Causes.{FailsBy, nothing};
ghost use Rattle.limbo_context.specs.View.{view_context, view_body};
ghost use Rattle.limbo_stmt_values.specs.limbo_stating.Raising.{Raises, FailsToRaise, raised_name};
ghost use Rattle.limbo_stmt_values.specs.Leading.{From, Leads};
ghost use Rattle.limbo_stmt_values.specs.Answering.{FailsToAnswer};
ghost use Rattle.limbo_raising.specs.Exceptions.{IsRaisedWith, FailsWith, RaisesException, FailsException};

use crate::exceptions::{exception_named, raised_name as named};
use inf_text::{Span, Text};
use limbo_arguments::settle_each;
use limbo_causes::TypingFault;
use limbo_context::{Body, Context};
use limbo_refusals::clash_of;
use limbo_stmt_values::limbo_exprs::values;
use limbo_stmt_values::returned;
use limbo_tree::{Expr, call_in, span_of};
use limbo_typed::{TException, TStmt};
use limbo_types::Ty;
use std::alloc::Global;

// A string is raised.
#[tactic(auto, using(limbo_typed::proofs::View::the_stmts))]
fn raise_text(
    alloc: Global,
    context: &Context,
    body: &mut Body,
    e: &Expr,
) -> Result<TStmt, TypingFault>
    ensures raises { IfOk result (λ s. Leads (λ p q. Raises p (source.view_expr e.now) (view_stmt s) q)
        (view_context context.now) (view_body body.old) (view_body body.new)) }
    ensures refused { IfErr result (λ f. FailsBy f.cause
        (λ k. From (λ p. FailsToAnswer Chars p (source.view_expr e.now) k) (view_context context.now) (view_body body.old))) }
{
    match returned(alloc, context, body, e, &Ty::Chars) {
        Ok(x) => Ok(TStmt::Raise(x)),
        Err(fault) => Err(fault),
    }
}

// The types of the values of an exception.
fn values_at(exceptions: &[TException], number: u32) -> Option<&[Ty]>
    ensures { option_map (λ ts. map view_ty ts.now) result
        ≡ option_map (λ x. x.values) (slice_get (map view_exception exceptions.now) number) }
{
    match exceptions.get(number as usize) {
        Some(exception) => Some(&exception.values),
        None => None,
    }
}

// An exception is raised alone.
#[tactic(auto, using(limbo_typed::proofs::View::the_stmts))]
fn raise_alone(alloc: Global, number: u32, values: &[Ty], at: Span) -> Result<TStmt, TypingFault>
    ensures no_values { IfOk result (λ _. map view_ty values.now ≡ []) }
    ensures raises { IfOk result (λ s. view_stmt s ≡ RaiseDeclared number NoExprs) }
    ensures refused { IfErr result (λ f. FailsBy f.cause (λ k. (k ≡ nothing) × (map view_ty values.now ≢ []))) }
{
    if values.is_empty() {
        Ok(TStmt::RaiseDeclared {
            exception: number,
            values: Vec::new(alloc),
        })
    } else {
        Err(TypingFault::refused(clash_of(alloc, &Ty::Nothing, &Ty::Nothing), at))
    }
}

// An exception is raised with values.
#[tactic(auto, using(limbo_typed::proofs::View::the_stmts))]
fn raise_with(
    alloc: Global,
    context: &Context,
    body: &mut Body,
    number: u32,
    args: &[Expr],
    asked: &[Ty],
    at: Span,
) -> Result<TStmt, TypingFault>
    ensures raises { IfOk result (λ s. IsRaisedWith (view_context context.now) (view_body body.old)
        (source.exprs_of (map source.view_expr args.now)) (map view_ty asked.now) number (view_stmt s) (view_body body.new)) }
    ensures refused { IfErr result (λ f. FailsBy f.cause (FailsWith (view_context context.now) (view_body body.old)
        (source.exprs_of (map source.view_expr args.now)) (map view_ty asked.now))) }
{
    match values(alloc, context, body, args) {
        Ok(xs) => match settle_each(alloc, xs, asked, &Ty::Nothing) {
            Ok(ys) => Ok(TStmt::RaiseDeclared {
                exception: number,
                values: ys,
            }),
            Err(fault) => Err(TypingFault::refused(fault, at)),
        },
        Err(fault) => Err(fault),
    }
}

// A declared exception is raised, alone or with values.
fn raise_exception(
    alloc: Global,
    context: &Context,
    body: &mut Body,
    e: &Expr,
    number: u32,
    asked: &[Ty],
) -> Result<TStmt, TypingFault>
    ensures raises { IfOk result (λ s. RaisesException (view_context context.now) (view_body body.old) (source.view_expr e.now)
        (map view_ty asked.now) number (view_stmt s) (view_body body.new)) }
    ensures refused { IfErr result (λ f. FailsBy f.cause (FailsException (view_context context.now) (view_body body.old)
        (source.view_expr e.now) (map view_ty asked.now))) }
{
    match call_in(e) {
        Some((_, args)) => raise_with(alloc, context, body, number, args, asked, span_of(e)),
        None => raise_alone(alloc, number, asked, span_of(e)),
    }
}

// What is raised by an expression that names something.
fn raise_named(
    alloc: Global,
    context: &Context,
    body: &mut Body,
    e: &Expr,
    name: &Text,
) -> Result<TStmt, TypingFault>
    ensures raises { IfOk result (λ s. raised_name (source.view_expr e.now) ≡ Some name.now
        → Leads (λ p q. Raises p (source.view_expr e.now) (view_stmt s) q)
        (view_context context.now) (view_body body.old) (view_body body.new)) }
    ensures refused { IfErr result (λ f. raised_name (source.view_expr e.now) ≡ Some name.now → FailsBy f.cause
        (λ k. From (λ p. FailsToRaise p (source.view_expr e.now) k) (view_context context.now) (view_body body.old))) }
{
    match exception_named(alloc, context, body, name) {
        Err(fault) => Err(fault),
        Ok(None) => raise_text(alloc, context, body, e),
        Ok(Some(number)) => match values_at(&context.exceptions, number) {
            None => raise_text(alloc, context, body, e),
            Some(asked) => raise_exception(alloc, context, body, e, number, asked),
        },
    }
}

/// What is raised: a string, or a declared exception with its values.
///
/// # Errors
/// Those of the expressions, and 50 where it is no string, or an exception's values are lacking or others.
pub fn raise(
    alloc: Global,
    context: &Context,
    body: &mut Body,
    e: &Expr,
) -> Result<TStmt, TypingFault>
    ensures raises { IfOk result (λ s. Leads (λ p q. Raises p (source.view_expr e.now) (view_stmt s) q)
        (view_context context.now) (view_body body.old) (view_body body.new)) }
    ensures refused { IfErr result (λ f. FailsBy f.cause
        (λ k. From (λ p. FailsToRaise p (source.view_expr e.now) k) (view_context context.now) (view_body body.old))) }
{
    match named(e) {
        Some(name) => raise_named(alloc, context, body, e, name),
        None => raise_text(alloc, context, body, e),
    }
}
