//! Types to which a body gives names.

ghost use Rattle.std.specs.Prelude.{◌≡◌, ◌++◌, map, IfOk, IfErr, OnOk};
ghost use Rattle.limbo_types.specs.View.{view_ty};
ghost use Rattle.limbo_tree.specs.Decls as decls;
ghost use Rattle.limbo_tree.specs.View as source;
ghost use Rattle.limbo_tree.specs.View.{names_of};
ghost use Rattle.limbo_typed.specs.View.{view_stmt};
ghost use Rattle.limbo_causes.specs.Causes.{FailsBy};
ghost use Rattle.limbo_context.specs.View.{view_context, view_body};
ghost use Rattle.limbo_written.specs.Written.{FailsAsType};
ghost use Rattle.limbo_locals.specs.Anywhere.{AddsTypes, DeclaresAt, FailsAt};
ghost use Rattle.limbo_locals.specs.Named.{types_of};

use crate::names::{Lead, declare_names};
use crate::values::{nothing_runs, untold};
use inf_text::Span;
use limbo_causes::TypingFault;
use limbo_context::{Body, Context};
use limbo_tree::{Name, TypeTree};
use limbo_typed::TStmt;
use limbo_types::{Ty, copy};
use limbo_written::type_of_values;
use std::alloc::{AllocError, Global};

// A type once more for each name.
fn push_types(alloc: Global, types: &mut Vec<Ty>, names: &[Name], t: &Ty) -> Result<(), AllocError>
    ensures { IfOk result (λ _. map view_ty types.new.items
        ≡ map view_ty types.old.items ++ types_of (names_of names.now) (view_ty t.now)) }
{
    for _each in names {
        types.push(copy(alloc, t)?)?;
    }
    Ok(())
}

/// Gives names to the type that is written, where they are seen to be new: members of an adt or of a module.
///
/// # Errors
/// Those of the type. Names that are declared already are told as a want of memory: the scope of an adt or of a module has been seen to
/// declare each name once.
pub fn add_types(
    alloc: Global,
    context: &mut Context,
    body: &mut Body,
    names: &[Name],
    of: &TypeTree,
) -> Result<(), TypingFault>
    ensures adds { OnOk result (AddsTypes (view_context context.old) (view_body body.old) (names_of names.now)
        (source.view_type of.now) (view_context context.new) (view_body body.new)) }
    ensures refused { IfErr result (λ f. FailsBy f.cause
        (FailsAsType (view_context context.old) (view_body body.old) (source.view_type of.now))) }
{
    match type_of_values(alloc, context, body, of) {
        Err(fault) => Err(fault),
        Ok(t) => {
            let first = context.types.len();
            match declare_names(&mut body.scopes, names, Lead::Type, first) {
                Err(cause) => Err(untold(cause)),
                Ok(()) => {
                    push_types(alloc, &mut context.types, names, &t)?;
                    Ok(())
                }
            }
        }
    }
}

/// The statement that `names: type of;` is where a body has come to: it does nothing when it runs.
///
/// # Errors
/// Those of the type; 41 where the innermost scope declares one of the names, or one stands twice.
pub fn declare_types(
    alloc: Global,
    context: &mut Context,
    body: &mut Body,
    names: &[Name],
    of: &TypeTree,
    at: Span,
) -> Result<Box<TStmt>, TypingFault>
    ensures declares { IfOk result (λ z. DeclaresAt (view_context context.old) (view_body body.old)
        (decls.TypeName (names_of names.now) (source.view_type of.now)) (view_stmt z.value)
        (view_context context.new) (view_body body.new)) }
    ensures refused { IfErr result (λ f. FailsBy f.cause (FailsAt (view_context context.old) (view_body body.old)
        (decls.TypeName (names_of names.now) (source.view_type of.now)))) }
{
    match type_of_values(alloc, context, body, of) {
        Err(fault) => Err(fault),
        Ok(t) => {
            let first = context.types.len();
            match declare_names(&mut body.scopes, names, Lead::Type, first) {
                Err(cause) => Err(TypingFault { cause, at }),
                Ok(()) => {
                    push_types(alloc, &mut context.types, names, &t)?;
                    nothing_runs(alloc)
                }
            }
        }
    }
}
