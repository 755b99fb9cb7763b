//! Exceptions that a body declares.

ghost use Rattle.std.specs.Prelude.{◌≡◌, ◌++◌, map, IfOk, IfErr};
ghost use Rattle.limbo_types.specs.Types as types;
ghost use Rattle.limbo_types.specs.View.{view_ty, view_tys};
ghost use Rattle.limbo_tree.specs.Decls as decls;
ghost use Rattle.limbo_tree.specs.Types as written;
ghost use Rattle.limbo_tree.specs.View as source;
ghost use Rattle.limbo_tree.specs.View.{names_of};
ghost use Rattle.limbo_typed.specs.View.{view_exception, view_stmt};
ghost use Rattle.limbo_causes.specs.Causes.{FailsBy, ByRefusal};
ghost use Rattle.limbo_permits.specs.Permits.{Permits, ForbidsType};
ghost use Rattle.limbo_context.specs.View.{view_context, view_body};
ghost use Rattle.limbo_body_types.specs.Means.{Means};
ghost use Rattle.limbo_written.specs.Told.{IsCauseOf};
ghost use Rattle.limbo_written.specs.Written.{MeansPermitted, FailsType, FailsAsType};
ghost use Rattle.limbo_locals.specs.Anywhere.{DeclaresIn, FailsAt};
ghost use Rattle.limbo_locals.specs.Named.{exceptions_of};

use crate::names::{Lead, declare_names};
use crate::values::nothing_runs;
use inf_text::{Span, Text};
use limbo_body_types::{WrittenFault, type_in};
use limbo_causes::{Cause, TypingFault};
use limbo_context::{Body, Context};
use limbo_permits::permit_type;
use limbo_refusals::clash_of;
use limbo_tree::{Name, TypeTree};
use limbo_typed::{TException, TStmt};
use limbo_types::{Ty, copy_all};
use std::alloc::{AllocError, Global};

// What is told of a written type that means none.
#[tactic(auto, using(limbo_types::proofs::View::the_types))]
fn told(alloc: Global, fault: WrittenFault) -> TypingFault
    ensures { FailsBy result.cause (IsCauseOf fault) }
{
    match fault {
        WrittenFault::NoMemory => TypingFault::no_memory(),
        WrittenFault::Unknown { at } => TypingFault {
            cause: Cause::Unknown,
            at,
        },
        WrittenFault::NotAType { at } => {
            TypingFault::refused(clash_of(alloc, &Ty::Nothing, &Ty::Nothing), at)
        }
    }
}

// The types that several mean.
fn types_in(
    alloc: Global,
    context: &Context,
    body: &Body,
    parts: &[TypeTree],
) -> Result<Vec<Ty>, TypingFault>
    ensures means { IfOk result (λ us. Means (view_context context.now) (view_body body.now)
        (written.Tuple (source.view_types parts.now)) (types.Tuple (view_tys us.items))) }
    ensures refused { IfErr result (λ f. FailsBy f.cause (FailsType (view_context context.now) (view_body body.now)
        (written.Tuple (source.view_types parts.now)))) }
{
    let mut types = Vec::new(alloc);
    for part in parts {
        match type_in(alloc, context, body, part) {
            Ok(t) => types.push(t)?,
            Err(fault) => return Err(told(alloc, fault)),
        }
    }
    Ok(types)
}

// That values may have a tuple of these types.
#[tactic(auto, using(limbo_types::proofs::View::the_types))]
fn permit_values(
    alloc: Global,
    context: &Context,
    values: Vec<Ty>,
    at: Span,
) -> Result<Vec<Ty>, TypingFault>
    ensures same { IfOk result (λ us. map view_ty us.items ≡ map view_ty values.items) }
    ensures permitted { IfOk result (λ _. Permits (view_context context.now) (types.Tuple (view_tys values.items))) }
    ensures refused { IfErr result (λ f. FailsBy f.cause (ByRefusal (ForbidsType (view_context context.now)
        (types.Tuple (view_tys values.items))))) }
{
    let tuple = Ty::Tuple(copy_all(alloc, &values)?);
    match permit_type(alloc, context, &tuple) {
        Ok(()) => Ok(values),
        Err(fault) => Err(TypingFault::refused(fault, at)),
    }
}

// The types of the values that exceptions have, as their declaration writes them.
fn values_of(
    alloc: Global,
    context: &Context,
    body: &Body,
    of: &[TypeTree],
    at: Span,
) -> Result<Vec<Ty>, TypingFault>
    ensures means { IfOk result (λ us. MeansPermitted (view_context context.now) (view_body body.now)
        (written.Tuple (source.view_types of.now)) (types.Tuple (view_tys us.items))) }
    ensures refused { IfErr result (λ f. FailsBy f.cause (FailsAsType (view_context context.now) (view_body body.now)
        (written.Tuple (source.view_types of.now)))) }
{
    match types_in(alloc, context, body, of) {
        Err(fault) => Err(fault),
        Ok(values) => permit_values(alloc, context, values, at),
    }
}

// An exception of a module.
fn exception(
    alloc: Global,
    module_name: &Text,
    name: &Text,
    values: &[Ty],
) -> Result<TException, AllocError>
    ensures { IfOk result (λ x. view_exception x
        ≡ record { module_name = module_name.now; name = name.now; values = map view_ty values.now }) }
{
    Ok(TException {
        module: module_name.clone()?,
        name: name.clone()?,
        values: copy_all(alloc, values)?,
    })
}

// An exception more for each name.
fn push_exceptions(
    alloc: Global,
    exceptions: &mut Vec<TException>,
    module_name: &Text,
    names: &[Name],
    values: &[Ty],
) -> Result<(), AllocError>
    ensures { IfOk result (λ _. map view_exception exceptions.new.items ≡ map view_exception exceptions.old.items
        ++ exceptions_of module_name.now (names_of names.now) (map view_ty values.now)) }
{
    for name in names {
        exceptions.push(exception(alloc, module_name, &name.text, values)?)?;
    }
    Ok(())
}

/// The statement that `names: exception;` or `names: exception(of);` is where a body of the module of this name has come to: it does
/// nothing when it runs.
///
/// # Errors
/// Those of the tuple of the types; 41 where the innermost scope declares one of the names, or one stands twice.
pub fn declare_exceptions(
    alloc: Global,
    context: &mut Context,
    body: &mut Body,
    module_name: &Text,
    names: &[Name],
    of: &[TypeTree],
    at: Span,
) -> Result<Box<TStmt>, TypingFault>
    ensures declares { IfOk result (λ z. DeclaresIn module_name.now (view_context context.old) (view_body body.old)
        (decls.Exception (names_of names.now) (source.view_types of.now)) (view_stmt z.value)
        (view_context context.new) (view_body body.new)) }
    ensures refused { IfErr result (λ f. FailsBy f.cause (FailsAt (view_context context.old) (view_body body.old)
        (decls.Exception (names_of names.now) (source.view_types of.now)))) }
{
    match values_of(alloc, context, body, of, at) {
        Err(fault) => Err(fault),
        Ok(values) => {
            let first = context.exceptions.len();
            match declare_names(&mut body.scopes, names, Lead::Exception, first) {
                Err(cause) => Err(TypingFault { cause, at }),
                Ok(()) => {
                    push_exceptions(alloc, &mut context.exceptions, module_name, names, &values)?;
                    nothing_runs(alloc)
                }
            }
        }
    }
}
