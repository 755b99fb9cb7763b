//! Any declaration.

ghost use Rattle.std.specs.Prelude.{◌≡◌, IfOk, IfErr, OnOk};
ghost use Rattle.limbo_tree.specs.View as source;
ghost use Rattle.limbo_typed.specs.View.{view_stmt};
ghost use Rattle.limbo_declarations.specs.Scopes.{DeclIsOnce};
ghost use Rattle.limbo_causes.specs.Causes as causes;
ghost use Rattle.limbo_causes.specs.Causes.{FailsBy};
ghost use Rattle.limbo_context.specs.View.{view_context, view_body};
ghost use Rattle.limbo_locals.specs.Anywhere.{DeclaresIn, FailsAt};

use crate::modules::declare_module;
use inf_text::Text;
use limbo_causes::{Cause, TypingFault};
use limbo_context::{Body, Context};
use limbo_declarations::{OnceFault, decl_once};
use limbo_locals::{
    declare_constants, declare_exceptions, declare_imports, declare_types, declare_variables,
    define_names,
};
use limbo_members::declare_adt;
use limbo_tree::Decl;
use limbo_typed::TStmt;
use std::alloc::Global;

// That each scope inside a declaration declares each name once.
fn seen_once(alloc: Global, d: &Decl) -> Result<(), TypingFault>
    ensures once { OnOk result (DeclIsOnce (source.view_decl d.now)) }
    ensures refused { IfErr result (λ f. FailsBy f.cause
        (λ k. (k ≡ causes.Twice) × (DeclIsOnce (source.view_decl d.now) → ⊥))) }
{
    match decl_once(alloc, d) {
        Ok(()) => Ok(()),
        Err(OnceFault::NoMemory) => Err(TypingFault::no_memory()),
        Err(OnceFault::Twice { at }) => Err(TypingFault {
            cause: Cause::Twice,
            at,
        }),
    }
}

/// The statement that a declaration is where a body of the module of this name has come to.
///
/// # Errors
/// Those of the form of the declaration.
pub fn declare(
    alloc: Global,
    context: &mut Context,
    body: &mut Body,
    module_name: &Text,
    d: &Decl,
) -> Result<Box<TStmt>, TypingFault>
    ensures declares { IfOk result (λ z. DeclaresIn module_name.now (view_context context.old) (view_body body.old)
        (source.view_decl d.now) (view_stmt z.value) (view_context context.new) (view_body body.new)) }
    ensures refused { IfErr result (λ f. FailsBy f.cause
        (FailsAt (view_context context.old) (view_body body.old) (source.view_decl d.now))) }
{
    match d {
        Decl::Con { names, value, span } => {
            declare_constants(alloc, context, body, names, value, *span)
        }
        Decl::Type { names, of, span } => declare_types(alloc, context, body, names, of, *span),
        Decl::Var {
            names,
            of,
            value,
            span,
        } => declare_variables(alloc, context, body, names, of, value, *span),
        Decl::Define { names, value, span } => {
            define_names(alloc, context, body, names, value, *span)
        }
        Decl::Import {
            names,
            module,
            span,
        } => declare_imports(alloc, context, body, names, &module.text, *span),
        Decl::Exception {
            names,
            values,
            span,
        } => declare_exceptions(alloc, context, body, module_name, names, values, *span),
        Decl::Module { name, members, .. } => match seen_once(alloc, d) {
            Err(fault) => Err(fault),
            Ok(()) => declare_module(alloc, context, body, name, members),
        },
        Decl::Adt {
            name,
            members,
            pick,
            ..
        } => match seen_once(alloc, d) {
            Err(fault) => Err(fault),
            Ok(()) => declare_adt(alloc, context, body, name, members, pick),
        },
    }
}
