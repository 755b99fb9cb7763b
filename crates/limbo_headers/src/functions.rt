//! What functions take and answer.

ghost use Rattle.std.specs.Prelude.{◌≡◌, ◌++◌, map, IfOk, IfErr, OnOk};
ghost use Rattle.limbo_tree.specs.View.{view_boxed_type, view_param, tys_of, name_of};
ghost use Rattle.limbo_tree.specs.View as view;
ghost use Rattle.limbo_types.specs.View.{view_ty, view_tys, view_fn};
ghost use Rattle.limbo_type_names.specs.Means.{AllMean};
ghost use Rattle.limbo_type_names.specs.Working.{entries_in};
ghost use Rattle.limbo_type_names.specs.Told.{KnowsTypes};
ghost use Rattle.limbo_headers.specs.Headers.{each_name, argument_types, takes_self, AnswerMeans, IsHeader};
ghost use Rattle.limbo_headers.specs.Refusals.{IsTypeOf, IsAnswerType, IsParamType, OneFails};

use crate::header::Header;
use limbo_tree::{FnType, Name, Param, TypeTree};
use limbo_type_names::{TypeFault, TypeNames};
use limbo_types::{FnTy, Ty, copy};
use std::alloc::{AllocError, Global};

// Adds a type once for each name.
fn push_each(
    alloc: Global,
    types: &mut Vec<Ty>,
    names: &[Option<Name>],
    ty: &Ty,
) -> Result<(), AllocError>
    ensures { OnOk result (map view_ty types.new.items ≡ map view_ty types.old.items
        ++ each_name (map name_of names.now) (view_ty ty.now)) }
{
    for _name in names {
        types.push(copy(alloc, ty)?)?;
    }
    Ok(())
}

// The types of the arguments that are written so.
fn arguments(
    alloc: Global,
    names: &TypeNames,
    scope: Option<u32>,
    params: &[Param],
) -> Result<Vec<Ty>, TypeFault>
    requires types { KnowsTypes names.now }
    ensures means { IfOk result (λ types. AllMean (entries_in names.now.naming.now) names.now.naming.now.implemented scope
        (tys_of (argument_types (map view_param params.now))) (view_tys types.items)) }
    ensures fails { IfErr result (λ e. OneFails (entries_in names.now.naming.now) names.now.naming.now.implemented scope
        (IsParamType params.now) e) }
{
    let mut types = Vec::new(alloc);
    for param in params {
        match names.type_of(alloc, scope, &param.of) {
            Ok(ty) => push_each(alloc, &mut types, &param.names, &ty)?,
            Err(fault) => return Err(fault),
        }
    }
    Ok(types)
}

// The type of what is answered.
fn answer_type(
    alloc: Global,
    names: &TypeNames,
    scope: Option<u32>,
    answer: &Option<Box<TypeTree>>,
) -> Result<Ty, TypeFault>
    requires types { KnowsTypes names.now }
    ensures means { IfOk result (λ t. AnswerMeans (entries_in names.now.naming.now) names.now.naming.now.implemented scope
        (view_boxed_type answer.now) (view_ty t)) }
    ensures fails { IfErr result (λ e. OneFails (entries_in names.now.naming.now) names.now.naming.now.implemented scope
        (IsAnswerType answer.now) e) }
{
    match answer {
        None => Ok(Ty::Nothing),
        Some(of) => names.type_of(alloc, scope, of),
    }
}

// Whether the first parameter is `self`.
fn is_self_first(params: &[Param]) -> bool
    ensures { result ≡ takes_self (map view_param params.now) }
{
    match params.first() {
        None => false,
        Some(param) => param.is_self,
    }
}

/// What a function takes and answers that is written in a scope.
///
/// # Errors
/// Want of memory. `Unknown` and `NotAType` exactly where a type of a parameter, or that of the answer, fails so.
pub fn function_header(
    alloc: Global,
    names: &TypeNames,
    scope: Option<u32>,
    of: &FnType,
) -> Result<Header, TypeFault>
    requires types { KnowsTypes names.now }
    ensures header { IfOk result (λ h. IsHeader (entries_in names.now.naming.now) names.now.naming.now.implemented scope
        (view.view_fn of.now) (view_fn h.of) h.takes_self) }
    ensures fails { IfErr result (λ e. OneFails (entries_in names.now.naming.now) names.now.naming.now.implemented scope
        (IsTypeOf of.now) e) }
{
    let args = match arguments(alloc, names, scope, &of.params) {
        Ok(args) => args,
        Err(fault) => return Err(fault),
    };
    match answer_type(alloc, names, scope, &of.answer) {
        Ok(answer) => Ok(Header {
            of: FnTy { args, answer },
            takes_self: is_self_first(&of.params),
        }),
        Err(fault) => Err(fault),
    }
}
