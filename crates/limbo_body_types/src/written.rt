//! What written types mean.

ghost use Rattle.std.specs.Prelude.{◌≡◌, IfOk, IfErr, map, true, false};
ghost use Rattle.limbo_tree.specs.Types as tree;
ghost use Rattle.limbo_tree.specs.View.{view_qual, view_type, tys_of};
ghost use Rattle.limbo_types.specs.View.{view_ty};
ghost use Rattle.limbo_context.specs.View.{view_context, view_body};
ghost use Rattle.limbo_body_types.specs.Means.{Means};
ghost use Rattle.limbo_body_types.specs.Fails.{Fails};
ghost use Rattle.limbo_body_types.specs.Found.{FailsName, FailsPart};

use crate::fault::WrittenFault;
use crate::found::{Found, find};
use crate::meant::{adt_meant, to_type, type_meant};
use inf_text::Span;
use limbo_context::{Body, Context};
use limbo_tree::{Qual, TypeTree};
use limbo_types::Ty;
use std::alloc::{AllocError, Global};

// The type that a name means which stands alone.
fn named(
    alloc: Global,
    context: &Context,
    body: &Body,
    name: &Qual,
    at: Span,
) -> Result<Ty, WrittenFault>
    ensures means { IfOk result
        (λ u. Means (view_context context.now) (view_body body.now) (tree.Named (view_qual name.now)) (view_ty u)) }
    ensures refused { IfErr result (λ f. FailsName (view_context context.now) (view_body body.now) (view_qual name.now) false at f) }
{
    match find(context, body, name)? {
        Found::Lacking => Err(WrittenFault::Unknown { at }),
        Found::Named(meaning) => match type_meant(context, meaning) {
            Some(meant) => Ok(to_type(alloc, meant)?),
            None => Err(WrittenFault::NotAType { at }),
        },
        _ => Err(WrittenFault::NotAType { at }),
    }
}

// The type that a name means behind `ref`.
#[tactic(auto, using(limbo_types::proofs::View::the_types))]
fn referred(context: &Context, body: &Body, name: &Qual, at: Span) -> Result<Ty, WrittenFault>
    ensures means { IfOk result
        (λ u. Means (view_context context.now) (view_body body.now) (tree.RefTo (view_qual name.now)) (view_ty u)) }
    ensures refused { IfErr result (λ f. FailsName (view_context context.now) (view_body body.now) (view_qual name.now) true at f) }
{
    match find(context, body, name)? {
        Found::Lacking => Err(WrittenFault::Unknown { at }),
        Found::Nothing => Err(WrittenFault::NotAType { at }),
        Found::Variant { adt, variant } => Ok(Ty::RefPick { adt, variant }),
        Found::Named(meaning) => match adt_meant(context, meaning) {
            Some(adt) => Ok(Ty::RefAdt(adt)),
            None => Err(WrittenFault::NotAType { at }),
        },
    }
}

/// The type that a written type means where a body has come to.
///
/// # Errors
/// Want of memory, or of numbers for the variants of an adt. `Unknown` and `NotAType` only where a name in it isn't there or is no type:
/// the first such.
#[tactic(auto, using(limbo_types::proofs::View::the_types))]
#[cycle(written)]
pub fn type_in(
    alloc: Global,
    context: &Context,
    body: &Body,
    t: &TypeTree,
) -> Result<Ty, WrittenFault>
    ensures means { IfOk result (λ u. Means (view_context context.now) (view_body body.now) (view_type t.now) (view_ty u)) }
    ensures refused { IfErr result (λ f. Fails (view_context context.now) (view_body body.now) t.now f) }
{
    match t {
        TypeTree::Byte { .. } => Ok(Ty::Byte),
        TypeTree::Int { .. } => Ok(Ty::Int),
        TypeTree::Big { .. } => Ok(Ty::Big),
        TypeTree::String { .. } => Ok(Ty::Chars),
        TypeTree::Array { element, .. } => match type_in(alloc, context, body, element) {
            Ok(item) => Ok(Ty::Array(Box::new(alloc, item)?)),
            Err(fault) => Err(fault),
        },
        TypeTree::List { element, .. } => match type_in(alloc, context, body, element) {
            Ok(item) => Ok(Ty::List(Box::new(alloc, item)?)),
            Err(fault) => Err(fault),
        },
        TypeTree::Chan { element, .. } => match type_in(alloc, context, body, element) {
            Ok(item) => Ok(Ty::Chan(Box::new(alloc, item)?)),
            Err(fault) => Err(fault),
        },
        TypeTree::Ref { of, span } => referred(context, body, of, *span),
        TypeTree::Named { name, span } => named(alloc, context, body, name, *span),
        TypeTree::Tuple { parts, .. } => tuple_in(alloc, context, body, parts),
    }
}

// The tuple of the types that several mean.
#[tactic(auto, using(limbo_types::proofs::View::the_types))]
#[cycle(written)]
fn tuple_in(
    alloc: Global,
    context: &Context,
    body: &Body,
    parts: &[TypeTree],
) -> Result<Ty, WrittenFault>
    ensures means { IfOk result (λ u. Means (view_context context.now) (view_body body.now)
        (tree.Tuple (tys_of (map view_type parts.now))) (view_ty u)) }
    ensures refused { IfErr result (λ f. FailsPart (view_context context.now) (view_body body.now) parts.now f) }
{
    let mut types = Vec::new(alloc);
    for part in parts {
        match type_in(alloc, context, body, part) {
            Ok(item) => types.push(item)?,
            Err(fault) => return Err(fault),
        }
    }
    Ok(Ty::Tuple(types))
}
