//! Left sides.

ghost use Rattle.std.specs.Prelude.{◌≡◌, ◌++◌, ◌∷◌, [], map, length, IfOk, IfErr, IfSome, IfNone};
ghost use Rattle.limbo_tree.specs.Exprs as tree;
ghost use Rattle.limbo_tree.specs.View.{view_expr, exprs_of};
ghost use Rattle.limbo_types.specs.Types.{Tuple};
ghost use Rattle.limbo_types.specs.View.{view_ty, view_tys};
ghost use Rattle.limbo_typed.specs.Typed.{ToParts};
ghost use Rattle.limbo_typed.specs.View.{view_pattern, patterns_of};
ghost use Rattle.limbo_context.specs.View.{view_body};
ghost use Rattle.limbo_causes.specs.Causes.{FailsBy};
ghost use Rattle.limbo_defining.specs.Defining.{Defines, DefineEach, parts_of, FailsDefine, FailsDefineSome};
ghost use Rattle.limbo_defining.specs.Parts.{DefinesPart, FailsPart};

use crate::variable::define_name;
use inf_text::Span;
use limbo_causes::{Cause, TypingFault};
use limbo_context::Body;
use limbo_refusals::{ExprFault, clash_of};
use limbo_tree::{Expr, span_of};
use limbo_typed::Pattern;
use limbo_types::Ty;
use std::alloc::{AllocError, Global};

// One more pattern.
fn put(parts: &mut Vec<Pattern>, part: Box<Pattern>) -> Result<(), AllocError>
    ensures { IfOk result
        (λ _. map view_pattern parts.new.items ≡ map view_pattern parts.old.items ++ (view_pattern part.value ∷ [])) }
{
    parts.reserve(1)?;
    parts.push_reserved(Box::into_inner(part));
    Ok(())
}

// The pattern of these.
#[tactic(auto, using(limbo_typed::proofs::View::the_exprs))]
fn to_parts(alloc: Global, parts: Vec<Pattern>) -> Result<Box<Pattern>, AllocError>
    ensures { IfOk result (λ p. view_pattern p.value ≡ ToParts (patterns_of (map view_pattern parts.items))) }
{
    Ok(Box::new(alloc, Pattern::Tuple(parts))?)
}

// The types of a tuple's parts, if a type is one of as many parts as these.
fn types_for<'a>(items: &[Expr], t: &'a Ty) -> Option<&'a [Ty]>
    ensures tuple { IfSome result (λ ts. view_ty t.now ≡ Tuple (view_tys ts.now)) }
    ensures many { IfSome result (λ ts. length items.now ≡ length ts.now) }
    ensures none { IfNone result (parts_of (exprs_of (map view_expr items.now)) (view_ty t.now) → ⊥) }
{
    match t {
        Ty::Tuple(types) => {
            if items.len() == types.len() {
                Some(types)
            } else {
                None
            }
        }
        _ => None,
    }
}

/// Declares the variables of the left side of a `:=` for a value of a type, and answers the pattern that it is.
///
/// # Errors
/// Want of memory or of numbers. `Twice` where the innermost scope declares one of the names already, 51 where what stands there is
/// neither a name nor several in parentheses, 50 where several stand for a value of another type than a tuple of as many parts.
#[cycle(defining)]
pub fn define(
    alloc: Global,
    body: &mut Body,
    left: &Expr,
    t: &Ty,
) -> Result<Box<Pattern>, TypingFault>
    ensures defined { IfOk result
        (λ p. Defines (view_body body.old) (view_expr left.now) (view_ty t.now) (view_pattern p.value) (view_body body.new)) }
    ensures refused { IfErr result (λ f. FailsBy f.cause (FailsDefine (view_body body.old) (view_expr left.now) (view_ty t.now))) }
{
    match left {
        Expr::Name { name, span } => match define_name(alloc, body, name, t) {
            Ok(pattern) => Ok(pattern),
            Err(cause) => Err(TypingFault { cause, at: *span }),
        },
        Expr::Group { items, span } => define_group(alloc, body, items, *span, t),
        _ => Err(TypingFault {
            cause: Cause::Refused(ExprFault::NotPlace),
            at: span_of(left),
        }),
    }
}

// The same of what stands in parentheses.
#[cycle(defining)]
fn define_group(
    alloc: Global,
    body: &mut Body,
    items: &[Expr],
    at: Span,
    t: &Ty,
) -> Result<Box<Pattern>, TypingFault>
    ensures defined { IfOk result (λ p. Defines (view_body body.old) (tree.Group (exprs_of (map view_expr items.now))) (view_ty t.now)
        (view_pattern p.value) (view_body body.new)) }
    ensures refused { IfErr result (λ f. FailsBy f.cause
        (FailsDefine (view_body body.old) (tree.Group (exprs_of (map view_expr items.now))) (view_ty t.now))) }
{
    if items.len() < 2 {
        let cause = Cause::Refused(ExprFault::NotPlace);
        return Err(TypingFault { cause, at });
    }
    match types_for(items, t) {
        Some(types) => match define_each(alloc, body, items, types) {
            Ok(parts) => match to_parts(alloc, parts) {
                Ok(pattern) => Ok(pattern),
                Err(_) => Err(TypingFault {
                    cause: Cause::NoMemory,
                    at,
                }),
            },
            Err(fault) => Err(fault),
        },
        None => Err(TypingFault {
            cause: Cause::Refused(clash_of(alloc, t, t)),
            at,
        }),
    }
}

// Several left sides, for values of as many types.
#[cycle(defining)]
fn define_each(
    alloc: Global,
    body: &mut Body,
    items: &[Expr],
    types: &[Ty],
) -> Result<Vec<Pattern>, TypingFault>
    requires { length items.now ≡ length types.now }
    ensures defined { IfOk result (λ ps. DefineEach (view_body body.old) (exprs_of (map view_expr items.now)) (view_tys types.now)
        (patterns_of (map view_pattern ps.items)) (view_body body.new)) }
    ensures refused { IfErr result (λ f. FailsBy f.cause
        (FailsDefineSome (view_body body.old) (exprs_of (map view_expr items.now)) (view_tys types.now))) }
{
    let mut parts = Vec::new(alloc);
    for (place, item) in items.iter().enumerate() {
        match define_part(alloc, body, item, &types[place]) {
            Ok(part) => match put(&mut parts, part) {
                Ok(()) => {}
                Err(_) => {
                    return Err(TypingFault {
                        cause: Cause::NoMemory,
                        at: span_of(item),
                    });
                }
            },
            Err(fault) => return Err(fault),
        }
    }
    Ok(parts)
}

// A left side among several: `nil` is one too.
#[cycle(defining)]
fn define_part(
    alloc: Global,
    body: &mut Body,
    item: &Expr,
    t: &Ty,
) -> Result<Box<Pattern>, TypingFault>
    ensures defined { IfOk result
        (λ p. DefinesPart (view_body body.old) (view_expr item.now) (view_ty t.now) (view_pattern p.value) (view_body body.new)) }
    ensures refused { IfErr result (λ f. FailsBy f.cause (FailsPart (view_body body.old) (view_expr item.now) (view_ty t.now))) }
{
    match item {
        Expr::Nil { span } => match Box::new(alloc, Pattern::Nothing) {
            Ok(pattern) => Ok(pattern),
            Err(_) => Err(TypingFault {
                cause: Cause::NoMemory,
                at: *span,
            }),
        },
        _ => define(alloc, body, item, t),
    }
}
