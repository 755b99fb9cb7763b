//! What names are where they stand.

ghost use Rattle.std.specs.Prelude.{◌≡◌, IfOk, IfErr, IsSome, map, option_map, None, Some};
ghost use Rattle.limbo_types.specs.View.{view_ty};
ghost use Rattle.limbo_typed.specs.Typed as tree;
ghost use Rattle.limbo_typed.specs.View.{view_expr, view_optional, view_node, view_var, view_place_node};
ghost use Rattle.limbo_refusals.specs.Refusals.{NoneIs};
ghost use Rattle.limbo_scope.specs.Scopes.{seen};
ghost use Rattle.limbo_places.specs.Places.{read};
ghost use Rattle.limbo_context.specs.View.{view_context, view_body, view_valued};
ghost use Rattle.limbo_things.specs.declared.thing.NameFault.TheVariants.{Unknown, Nothing};
ghost use Rattle.limbo_things.specs.Things as things;
ghost use Rattle.limbo_things.specs.Things.{NameIs, AType};
ghost use Rattle.limbo_things.specs.ThingView.{view_thing, view_found};

use crate::members::export;
use crate::thing::{NameFault, Thing, some};
use inf_text::Text;
use limbo_context::{Body, Context, Imported, Origin, Valued};
use limbo_scope::Meaning;
use limbo_typed::{Constant, Place, PlaceNode, TExpr, TNode, TVar};
use limbo_types::{Ty, copy};
use std::alloc::{AllocError, Global};

#[tactic(auto, using(limbo_typed::proofs::View::the_exprs))]
fn literal(value: &Constant) -> Result<TNode, AllocError>
    ensures { IfOk result (λ n. view_node n ≡ things.literal value.now) }
{
    match value {
        Constant::Number(number) => Ok(TNode::Number(*number)),
        Constant::Chars(text) => Ok(TNode::Chars(text.clone()?)),
    }
}

// The value of a constant.
#[tactic(auto, using(limbo_typed::proofs::View::the_exprs))]
fn constant_value(alloc: Global, constant: &Valued) -> Result<Box<TExpr>, AllocError>
    ensures { IfOk result (λ e. view_expr e.value ≡ things.constant_value (view_valued constant.now)) }
{
    let value = TExpr {
        ty: copy(alloc, &constant.ty)?,
        node: literal(&constant.value)?,
    };
    Ok(Box::new(alloc, value)?)
}

// The constant of this number.
fn constant_at(
    alloc: Global,
    constants: &[Valued],
    number: u32,
) -> Result<Option<Box<Thing>>, AllocError>
    ensures { IfOk result (λ o. view_found o ≡ things.constant_at (map view_valued constants.now) number) }
{
    match constants.get(number as usize) {
        Some(constant) => some(alloc, Thing::Value(constant_value(alloc, constant)?)),
        None => Ok(None),
    }
}

// The type of this number.
fn type_at(alloc: Global, types: &[Ty], number: u32) -> Result<Option<Box<Thing>>, AllocError>
    ensures { IfOk result (λ o. view_found o ≡ things.type_at (map view_ty types.now) number) }
{
    match types.get(number as usize) {
        Some(t) => some(alloc, Thing::Type(Box::new(alloc, copy(alloc, t)?)?)),
        None => Ok(None),
    }
}

// A type by its name.
fn named(alloc: Global, t: Ty) -> Result<Option<Box<Thing>>, AllocError>
    ensures { IfOk result (λ o. view_found o ≡ Some (AType (view_ty t))) }
{
    some(alloc, Thing::Type(Box::new(alloc, t)?))
}

/// The constant or the type that is meant, wherever it is declared.
///
/// # Errors
/// Want of memory.
#[tactic(auto, using(limbo_types::proofs::View::the_types))]
pub(crate) fn declared(
    alloc: Global,
    context: &Context,
    meaning: Meaning,
) -> Result<Option<Box<Thing>>, AllocError>
    ensures { IfOk result (λ o. view_found o ≡ things.declared (view_context context.now) meaning) }
{
    match meaning {
        Meaning::Constant(number) => constant_at(alloc, &context.constants, number),
        Meaning::Type(number) => type_at(alloc, &context.types, number),
        Meaning::Adt(number) => named(alloc, Ty::Adt(number)),
        Meaning::Module(number) => named(alloc, Ty::Module(number)),
        _ => Ok(None),
    }
}

// What stands in a place of this type.
#[tactic(auto, using(limbo_typed::proofs::View::the_exprs))]
fn read(alloc: Global, t: &Ty, at: PlaceNode) -> Result<Box<TExpr>, AllocError>
    ensures { IfOk result (λ e. view_expr e.value ≡ read (view_ty t.now) (view_place_node at)) }
{
    let ty = copy(alloc, t)?;
    let place = Place {
        ty: copy(alloc, t)?,
        at,
    };
    let node = TNode::Read(Box::new(alloc, place)?);
    Ok(Box::new(alloc, TExpr { ty, node })?)
}

// What stands in a variable of the function.
#[tactic(auto, using(limbo_typed::proofs::View::the_exprs))]
fn local(alloc: Global, variables: &[TVar], number: u32) -> Result<Option<Box<TExpr>>, AllocError>
    ensures { IfOk result (λ o. option_map (λ e. view_expr e.value) o
        ≡ things.variable tree.Local (map view_var variables.now) number) }
{
    match variables.get(number as usize) {
        Some(variable) => Ok(Some(read(alloc, &variable.ty, PlaceNode::Local(number))?)),
        None => Ok(None),
    }
}

// What stands in a variable of the module.
#[tactic(auto, using(limbo_typed::proofs::View::the_exprs))]
fn global(alloc: Global, variables: &[TVar], number: u32) -> Result<Option<Box<TExpr>>, AllocError>
    ensures { IfOk result (λ o. option_map (λ e. view_expr e.value) o
        ≡ things.variable tree.Global (map view_var variables.now) number) }
{
    match variables.get(number as usize) {
        Some(variable) => Ok(Some(read(alloc, &variable.ty, PlaceNode::Global(number))?)),
        None => Ok(None),
    }
}

// The value, where there is one.
fn as_thing(alloc: Global, value: Option<Box<TExpr>>) -> Result<Option<Box<Thing>>, AllocError>
    ensures { IfOk result (λ o. view_found o ≡ option_map (λ e. things.AValue (view_expr e.value)) value) }
{
    match value {
        Some(e) => some(alloc, Thing::Value(e)),
        None => Ok(None),
    }
}

// What is exported through the value of a module, where there is one.
#[tactic(auto, using(limbo_typed::proofs::View::the_exprs))]
fn through_value(
    alloc: Global,
    context: &Context,
    from: Imported,
    value: Option<Box<TExpr>>,
) -> Result<Option<Box<Thing>>, AllocError>
    ensures { IfOk result (λ o. view_found o
        ≡ things.export_from (view_context context.now) from (option_map (λ e. tree.Present (view_expr e.value)) value)) }
{
    match value {
        Some(instance) => export(alloc, context, from.interface, Some(instance), from.member),
        None => Ok(None),
    }
}

// An imported name.
#[tactic(auto, using(limbo_typed::proofs::View::the_exprs))]
fn imported(
    alloc: Global,
    context: &Context,
    body: &Body,
    from: Imported,
) -> Result<Option<Box<Thing>>, AllocError>
    ensures { IfOk result (λ o. view_found o ≡ things.imported (view_context context.now) (view_body body.now) from) }
{
    match from.origin {
        Origin::Local(number) => {
            let value = local(alloc, &body.variables, number)?;
            through_value(alloc, context, from, value)
        }
        Origin::Global(number) => {
            let value = global(alloc, &context.globals, number)?;
            through_value(alloc, context, from, value)
        }
        Origin::Type => export(alloc, context, from.interface, None, from.member),
    }
}

// The imported name of this number.
fn imported_at(
    alloc: Global,
    context: &Context,
    body: &Body,
    number: u32,
) -> Result<Option<Box<Thing>>, AllocError>
    ensures { IfOk result (λ o. view_found o ≡ things.imported_at (view_context context.now) (view_body body.now) number) }
{
    match context.imports.get(number as usize) {
        Some(from) => imported(alloc, context, body, *from),
        None => Ok(None),
    }
}

// What a name is that means this.
fn meant(
    alloc: Global,
    context: &Context,
    body: &Body,
    meaning: Meaning,
) -> Result<Option<Box<Thing>>, AllocError>
    ensures { IfOk result (λ o. view_found o ≡ things.meant (view_context context.now) (view_body body.now) meaning) }
{
    match meaning {
        Meaning::Variable(number) => {
            let value = local(alloc, &body.variables, number)?;
            as_thing(alloc, value)
        }
        Meaning::Global(number) => {
            let value = global(alloc, &context.globals, number)?;
            as_thing(alloc, value)
        }
        Meaning::Function(number) => some(alloc, Thing::Function(number)),
        Meaning::Exception(number) => some(alloc, Thing::Exception(number)),
        Meaning::Import(number) => imported_at(alloc, context, body, number),
        _ => declared(alloc, context, meaning),
    }
}

/// `name`: what it is where a body has come to.
///
/// # Errors
/// Refusal 42 exactly where the name isn't seen there, 50 where it is seen and is nothing, and want of memory.
pub fn name(
    alloc: Global,
    context: &Context,
    body: &Body,
    name: &Text,
) -> Result<Box<Thing>, NameFault>
    // It is what the name means.
    ensures found { IfOk result (λ t. NameIs (view_context context.now) (view_body body.now) name.now (view_thing t.value)) }
    // A name that isn't known isn't seen.
    ensures unknown { IfErr result (λ f. f ≡ Unknown → seen name.now (view_body body.now).scopes ≡ None) }
    // One that is nothing is seen.
    ensures seen { IfErr result (λ f. f ≡ Nothing → IsSome (seen name.now (view_body body.now).scopes)) }
    ensures nothing { IfErr result (λ f. f ≡ Nothing → NoneIs (NameIs (view_context context.now) (view_body body.now) name.now)) }
{
    let Some(meaning) = body.scopes.look_up(name) else {
        return Err(NameFault::Unknown);
    };
    match meant(alloc, context, body, meaning)? {
        Some(thing) => Ok(thing),
        None => Err(NameFault::Nothing),
    }
}
