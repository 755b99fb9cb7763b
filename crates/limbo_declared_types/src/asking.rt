//! Whether values may have the types that are told of a declaration.

ghost use Rattle.std.specs.Prelude.{map, IfErr, OnOk};
ghost use Rattle.std.specs.List.{Contains};
ghost use Rattle.limbo_types.specs.Types.{Ty, Tuple};
ghost use Rattle.limbo_types.specs.View.{view_ty, view_tys, view_fn};
ghost use Rattle.limbo_typed.specs.Sound.{Each};
ghost use Rattle.limbo_refusals.specs.Refusals.{Refuses};
ghost use Rattle.limbo_context.specs.View.{view_context};
ghost use Rattle.limbo_permits.specs.Permits.{Permits, ForbidsType};
ghost use Rattle.limbo_declared_types.specs.Permitted.{MayTake, ForbidsFunction};
ghost use Rattle.limbo_declared_types.specs.Asked.{PermitsHeading, ForbidsHeading, ForbidsOne};

use limbo_allowed::is_user_module;
use limbo_context::Context;
use limbo_headers::Heading;
use limbo_permits::permit_type;
use limbo_refusals::ExprFault;
use limbo_types::{FnTy, Ty, copy_all};
use std::alloc::Global;

// Whether values may have each of these types.
fn permit_each(alloc: Global, context: &Context, types: &[Ty]) -> Result<(), ExprFault>
    ensures permitted { OnOk result (Each (λ t. Permits (view_context context.now) t) (map view_ty types.now)) }
    ensures refused { IfErr result (λ f. Refuses f (ForbidsOne (view_context context.now) (map view_ty types.now))) }
{
    for of in types {
        match permit_type(alloc, context, of) {
            Ok(()) => {}
            Err(fault) => return Err(fault),
        }
    }
    Ok(())
}

// Whether a function may take and answer this.
fn permit_function(alloc: Global, context: &Context, of: &FnTy) -> Result<(), ExprFault>
    ensures permitted { OnOk result (MayTake (view_context context.now) (view_fn of.now)) }
    ensures refused { IfErr result (λ f. Refuses f (ForbidsFunction (view_context context.now) (view_fn of.now))) }
{
    permit_each(alloc, context, &of.args)?;
    permit_type(alloc, context, &of.answer)?;
    if is_user_module(context.system, &of.answer) {
        Err(ExprFault::ModuleValue)
    } else {
        Ok(())
    }
}

// Whether an exception may carry values of these types: they count as one tuple.
#[tactic(auto, using(limbo_types::proofs::View::the_types))]
fn permit_values(alloc: Global, context: &Context, types: &[Ty]) -> Result<(), ExprFault>
    ensures permitted { OnOk result (Permits (view_context context.now) (Tuple (view_tys types.now))) }
    ensures refused { IfErr result (λ f. Refuses f (ForbidsType (view_context context.now) (Tuple (view_tys types.now)))) }
{
    let tuple = Ty::Tuple(copy_all(alloc, types)?);
    permit_type(alloc, context, &tuple)
}

/// Whether values may have the types that are told of a declaration.
///
/// # Errors
/// Want of memory. 51, 53 and 55 where they may not; 53 also where a function answers a value of a user's module.
pub(crate) fn permit_heading(
    alloc: Global,
    context: &Context,
    heading: &Heading,
) -> Result<(), ExprFault>
    ensures permitted { OnOk result (PermitsHeading (view_context context.now) heading.now) }
    ensures refused { IfErr result (λ f. Refuses f (ForbidsHeading (view_context context.now) heading.now)) }
{
    match heading {
        Heading::Variable(of) => permit_type(alloc, context, of),
        Heading::Function(header) => permit_function(alloc, context, &header.of),
        Heading::Exception(values) => permit_values(alloc, context, values),
        Heading::Other => Ok(()),
    }
}
