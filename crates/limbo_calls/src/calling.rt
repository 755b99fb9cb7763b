//! Calls of functions, and values of adts.

ghost use Rattle.std.specs.Prelude.{ℕ, ◌≡◌, ◌++◌, ◌↔◌, IsTrue, IfOk, IfErr, IfSome, IfNone, Some, List, map, slice_get};
ghost use Rattle.limbo_types.specs.Types.{Ty as AnyTy};
ghost use Rattle.limbo_types.specs.View.{view_ty, view_fn};
ghost use Rattle.limbo_layout.specs.Adts.{types_of};
ghost use Rattle.limbo_layout.specs.View.{view_fields, view_def, view_defs};
ghost use Rattle.limbo_typed.specs.View.{view_expr, view_exprs};
ghost use Rattle.limbo_refusals.specs.Refusals.{Refuses, NoneIs};
ghost use Rattle.limbo_arguments.specs.Failing.{FailsEach};
ghost use Rattle.limbo_calls.specs.Calls.{Calls, CallsThrough, Constructs, PassesNone, HasFields, FieldsOf};
ghost use Rattle.limbo_calls.specs.Refusing.{RefusesThrough, RefusesConstruct};

use limbo_allowed::is_user_module;
use limbo_arguments::{expr_of, settle_each};
use limbo_forms::is_same;
use limbo_layout::{AdtDef, Field};
use limbo_refusals::{ExprFault, clash_of};
use limbo_typed::{Operation, TExpr, TNode};
use limbo_types::{FnTy, Ty, copy};
use std::alloc::{AllocError, Global};

/// `f(..)`: a call of a function of the module, by its number, which has this type.
///
/// # Errors
/// The type of the first argument that doesn't stand for its parameter's type, beside that one; where there are too few arguments or too
/// many, the type of the answer beside itself; want of memory.
#[tactic(auto, using(limbo_typed::proofs::View::the_exprs))]
pub fn call(
    alloc: Global,
    function: u32,
    of: &FnTy,
    args: Vec<TExpr>,
) -> Result<Box<TExpr>, ExprFault>
    ensures typed { IfOk result (λ e. Calls function (view_fn of.now) (view_exprs args.items) (view_expr e.value)) }
    ensures refused { IfErr result (λ f. Refuses f
        (λ r. FailsEach (view_ty of.now.answer) (map view_ty of.now.args.items) (view_exprs args.items) r
        × NoneIs (Calls function (view_fn of.now) (view_exprs args.items)))) }
{
    let values = settle_each(alloc, args, &of.args, &of.answer)?;
    let answer = copy(alloc, &of.answer)?;
    let node = TNode::Call {
        function,
        args: values,
    };
    Ok(expr_of(alloc, answer, node)?)
}

// Whether no parameter is of a user's module type.
fn passes_none(system: Option<u32>, params: &[Ty]) -> bool
    ensures { IsTrue result ↔ PassesNone system (map view_ty params.now) }
{
    for param in params {
        if is_user_module(system, param) {
            return false;
        }
    }
    true
}

/// `m->f(..)`: a call through the value of a module, of a function by its place in the module's type, which has this type. Values of a
/// user's module type are not passed so; `system` is the number of the built-in `Sys`.
///
/// # Errors
/// The type of what stands before `->` beside the module's, where they differ; what is told of arguments as of a call's; that a value of
/// a module's type is passed; want of memory.
#[tactic(auto, using(limbo_types::proofs::View::the_types, limbo_typed::proofs::View::the_exprs))]
pub fn call_through(
    alloc: Global,
    system: Option<u32>,
    instance: Box<TExpr>,
    interface: u32,
    function: u32,
    of: &FnTy,
    args: Vec<TExpr>,
) -> Result<Box<TExpr>, ExprFault>
    ensures typed { IfOk result (λ e. CallsThrough system (view_expr instance.value) interface function (view_fn of.now)
        (view_exprs args.items) (view_expr e.value)) }
    ensures refused { IfErr result (λ f. Refuses f
        (λ r. RefusesThrough system (view_expr instance.value) interface (view_fn of.now) (view_exprs args.items) r
        × NoneIs (CallsThrough system (view_expr instance.value) interface function (view_fn of.now) (view_exprs args.items)))) }
{
    let wanted = Ty::Module(interface);
    if !is_same(&instance.ty, &wanted) {
        return Err(clash_of(alloc, &instance.ty, &wanted));
    }
    let values = settle_each(alloc, args, &of.args, &of.answer)?;
    if !passes_none(system, &of.args) {
        return Err(ExprFault::ModuleValue);
    }
    let answer = copy(alloc, &of.answer)?;
    let node = TNode::CallThrough {
        module: instance,
        interface,
        function,
        args: values,
    };
    Ok(expr_of(alloc, answer, node)?)
}

// Adds the types of fields.
fn add_types(alloc: Global, types: &mut Vec<Ty>, fields: &[Field]) -> Result<(), AllocError>
    ensures { IfOk result
        (λ _. map view_ty types.new.items ≡ map view_ty types.old.items ++ types_of (view_fields fields.now)) }
{
    for field in fields {
        types.push(copy(alloc, &field.ty)?)?;
    }
    Ok(())
}

// The types of the fields of an adt's value, the common ones first, or nothing where it has no such value.
fn fields_in(
    alloc: Global,
    def: &AdtDef,
    variant: Option<u32>,
) -> Result<Option<Vec<Ty>>, AllocError>
    ensures found { IfOk result (λ o. IfSome o (λ ts. HasFields (view_def def.now) variant (map view_ty ts.items))) }
    ensures none { IfOk result (λ o. IfNone o ((ts : List AnyTy) → HasFields (view_def def.now) variant ts → ⊥)) }
{
    let mut types = Vec::new(alloc);
    add_types(alloc, &mut types, &def.fields)?;
    match variant {
        None => {
            if !def.picks.is_empty() {
                return Ok(None);
            }
            Ok(Some(types))
        }
        Some(variant) => {
            let Some(own) = def.picks.get(variant as usize) else {
                return Ok(None);
            };
            add_types(alloc, &mut types, &own.fields)?;
            Ok(Some(types))
        }
    }
}

// The same of the adt of a number.
fn fields_of(
    alloc: Global,
    adts: &[AdtDef],
    adt: u32,
    variant: Option<u32>,
) -> Result<Option<Vec<Ty>>, AllocError>
    ensures found { IfOk result (λ o. IfSome o (λ ts. FieldsOf (view_defs adts.now) adt variant (map view_ty ts.items))) }
    ensures none { IfOk result (λ o. IfNone o ((ts : List AnyTy) → FieldsOf (view_defs adts.now) adt variant ts → ⊥)) }
{
    match adts.get(adt as usize) {
        None => Ok(None),
        Some(def) => fields_in(alloc, def, variant),
    }
}

/// `T(..)` and `T.A(..)`: a value of an adt, by its number, of its fields in order, the common ones first, and then those of its variant.
/// Of a pick adt a variant is needed, and no other adt has one.
///
/// # Errors
/// The adt's type beside itself, where it has no such value, and where there are too few fields or too many; the type of the first value
/// that doesn't stand for its field's type, beside that one; want of memory.
#[tactic(auto, using(limbo_types::proofs::View::the_types, limbo_typed::proofs::View::the_exprs))]
pub fn construct(
    alloc: Global,
    adts: &[AdtDef],
    adt: u32,
    variant: Option<u32>,
    args: Vec<TExpr>,
) -> Result<Box<TExpr>, ExprFault>
    ensures typed { IfOk result (λ e. Constructs (view_defs adts.now) adt variant (view_exprs args.items) (view_expr e.value)) }
    ensures refused { IfErr result (λ f. Refuses f
        (λ r. RefusesConstruct (view_defs adts.now) adt variant (view_exprs args.items) r
        × NoneIs (Constructs (view_defs adts.now) adt variant (view_exprs args.items)))) }
{
    let whole = Ty::Adt(adt);
    let Some(fields) = fields_of(alloc, adts, adt, variant)? else {
        return Err(clash_of(alloc, &whole, &whole));
    };
    let values = settle_each(alloc, args, &fields, &whole)?;
    let node = TNode::Apply {
        operation: Operation::Adt { adt, variant },
        args: values,
    };
    Ok(expr_of(alloc, whole, node)?)
}
