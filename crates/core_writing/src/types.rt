//! As of which type the value of an expression stands in its slot.

ghost use Rattle.std.specs.Prelude.{◌≡◌, ◌∷◌, [], IfOk, List, map};
ghost use Rattle.limbo_layout.specs.Adts.{Def};
ghost use Rattle.limbo_types.specs.Types.{ArrayOf, Chars};
ghost use Rattle.limbo_types.specs.View.{view_ty};
ghost use Rattle.limbo_typed.specs.View.{view_expr, view_optional, view_pattern};
ghost use Rattle.limbo_meaning.specs.Evaluation.{operands_for};
ghost use Rattle.limbo_meaning.specs.Operations as operations;
ghost use Rattle.limbo_meaning.specs.Program.{aims_in, term_of};
ghost use Rattle.core_code.specs.Terms as terms;
ghost use Rattle.core_writing.specs.Operands.{operands_in, printed, terms_in, view_operand};
ghost use Rattle.core_writing.specs.Types as types;

use crate::operands::{Operand, operands_of};
use core_parts::{add_aims, array_of, behind_all, item_of};
use limbo_typed::{Pattern, Printed, TExpr, TNode};
use limbo_types::{Ty, copy};
use std::alloc::{AllocError, Global};

// The type of a print.
#[tactic(auto, using(limbo_typed::proofs::View::the_exprs, limbo_types::proofs::View::the_types))]
fn print_type(
    alloc: Global,
    ty: &Ty,
    printed: Printed,
    file: &Option<Box<TExpr>>,
) -> Result<Ty, AllocError>
    ensures { IfOk result (λ t. view_ty t ≡ types.print_type printed (view_ty ty.now) (view_optional file.now)) }
{
    match (printed, file) {
        (Printed::Fprint, _) => Ok(Ty::Nothing),
        (Printed::Print, None) => copy(alloc, ty),
        (Printed::Sprint, None) => copy(alloc, ty),
        (_, Some(_)) => Ok(Ty::Nothing),
    }
}

// The type of a new channel.
#[tactic(auto, using(limbo_typed::proofs::View::the_exprs, limbo_types::proofs::View::the_types))]
fn channel_type(alloc: Global, ty: &Ty, size: &Option<Box<TExpr>>) -> Result<Ty, AllocError>
    ensures { IfOk result (λ t. view_ty t ≡ types.channel_type (view_ty ty.now) (view_optional size.now)) }
{
    match size {
        None => copy(alloc, ty),
        Some(_) => Ok(Ty::Nothing),
    }
}

// The type of an initialiser's array.
fn filled_type(alloc: Global, ty: &Ty) -> Result<Ty, AllocError>
    ensures { IfOk result (λ t. view_ty t ≡ ArrayOf (operations.item_of (view_ty ty.now))) }
{
    let item = item_of(alloc, ty)?;
    array_of(alloc, &item)
}

// The type of an expression that is printed.
#[cycle(types)]
#[tactic(auto, using(limbo_typed::proofs::View::the_exprs, limbo_types::proofs::View::the_types, crate::proofs::Forms::no_byte))]
fn printed_type(alloc: Global, e: &TExpr) -> Result<Ty, AllocError>
    ensures { (defs : List Def) → IfOk result (λ t. view_ty t ≡ terms.type_of defs (printed (view_expr e.now))) }
{
    match &e.ty {
        Ty::Byte => Ok(Ty::Int),
        _ => {
            let t = type_of(alloc, e)?;
            Ok(t)
        }
    }
}

// The type of an operand.
#[cycle(types)]
fn operand_type(alloc: Global, operand: Operand<'_>) -> Result<Ty, AllocError>
    ensures { (defs : List Def) → IfOk result (λ t. view_ty t ≡ terms.type_of defs (view_operand operand.entry)) }
{
    if operand.printed {
        let t = printed_type(alloc, operand.expr)?;
        return Ok(t);
    }
    let t = type_of(alloc, operand.expr)?;
    Ok(t)
}

// The type of the operand of an assignment that stands behind those of the places.
#[cycle(types)]
fn assigned_type(alloc: Global, e: &TExpr, pattern: &Pattern) -> Result<Ty, AllocError>
    ensures { (defs : List Def) → IfOk result (λ t. view_ty t
        ≡ terms.type_at defs (operands_for (aims_in [] (view_pattern pattern.now))) (operands_in (term_of (view_expr e.now)))) }
{
    let mut aims = Vec::new(alloc);
    add_aims(alloc, &mut aims, &[], pattern)?;
    let operands = operands_of(alloc, e)?;
    match behind_all(&aims, &operands).split_first() {
        Some((operand, _)) => {
            let t = operand_type(alloc, *operand)?;
            Ok(t)
        }
        None => Ok(Ty::Nothing),
    }
}

/// As of which type the value of an expression stands in its slot.
#[cycle(types)]
#[tactic(auto, using(limbo_typed::proofs::View::the_exprs, limbo_types::proofs::View::the_types, crate::proofs::Forms::no_type))]
pub(crate) fn type_of(alloc: Global, e: &TExpr) -> Result<Ty, AllocError>
    ensures { (defs : List Def) → IfOk result (λ t. view_ty t ≡ terms.type_of defs (term_of (view_expr e.now))) }
{
    match &e.node {
        TNode::Read(place) => copy(alloc, &place.ty),
        TNode::Lazy { .. } => Ok(Ty::Int),
        TNode::Assign { pattern, .. } => {
            let t = assigned_type(alloc, e, pattern)?;
            Ok(t)
        }
        TNode::Update { place, .. } => copy(alloc, &place.ty),
        TNode::Step { place, .. } => copy(alloc, &place.ty),
        TNode::Copy { value, .. } => {
            let t = type_of(alloc, value)?;
            Ok(t)
        }
        TNode::Filled { .. } => filled_type(alloc, &e.ty),
        TNode::Channel { size } => channel_type(alloc, &e.ty, size),
        TNode::Print { printed, file, .. } => print_type(alloc, &e.ty, *printed, file),
        TNode::OpenNil => Ok(Ty::Nothing),
        TNode::CallThrough { .. } => Ok(Ty::Nothing),
        TNode::Load { .. } => Ok(Ty::Nothing),
        TNode::Send { .. } => Ok(Ty::Nothing),
        TNode::Receive { .. } => Ok(Ty::Nothing),
        _ => {
            let t = copy(alloc, &e.ty)?;
            Ok(t)
        }
    }
}

// As of which types the values of operands in a row do.
fn types_in(alloc: Global, operands: &[Operand<'_>]) -> Result<Vec<Ty>, AllocError>
    ensures { (defs : List Def) → IfOk result (λ ts. map view_ty ts.items ≡ terms.types_in defs (terms_in operands.now)) }
{
    let mut types = Vec::new(alloc);
    for operand in operands {
        let t = operand_type(alloc, *operand)?;
        types.push(t)?;
    }
    Ok(types)
}

/// As of which types the values of its operands do.
pub(crate) fn operand_types(alloc: Global, e: &TExpr) -> Result<Vec<Ty>, AllocError>
    ensures { (defs : List Def) → IfOk result (λ ts. map view_ty ts.items ≡ terms.types_in defs (operands_in (term_of (view_expr e.now)))) }
{
    let operands = operands_of(alloc, e)?;
    let types = types_in(alloc, &operands)?;
    Ok(types)
}

/// As of which types those of a print do, behind a text.
pub(crate) fn printed_types(alloc: Global, e: &TExpr) -> Result<Vec<Ty>, AllocError>
    ensures { (defs : List Def) → IfOk result (λ ts. map view_ty ts.items
        ≡ Chars ∷ terms.types_in defs (operands_in (term_of (view_expr e.now)))) }
{
    let mut types = Vec::new(alloc);
    types.push(Ty::Chars)?;
    let mut operands = operand_types(alloc, e)?;
    types.append(&mut operands)?;
    Ok(types)
}
