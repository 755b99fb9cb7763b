//! Module types that bodies declare.

ghost use Rattle.std.specs.Prelude.{IfOk, IfErr};
ghost use Rattle.limbo_tree.specs.Decls as decls;
ghost use Rattle.limbo_tree.specs.View as source;
ghost use Rattle.limbo_typed.specs.View.{view_stmt};
ghost use Rattle.limbo_declarations.specs.Scopes.{ModuleIsOnce};
ghost use Rattle.limbo_causes.specs.Causes.{FailsBy};
ghost use Rattle.limbo_context.specs.View.{view_context, view_body};
ghost use Rattle.limbo_locals.specs.Anywhere.{DeclaresAt, FailsAt};

use crate::adding::add_members;
use crate::opening::open_module;
use limbo_causes::TypingFault;
use limbo_context::{Body, Context};
use limbo_locals::nothing_runs;
use limbo_members::{is_new, untold};
use limbo_tree::{Member, Name};
use limbo_typed::TStmt;
use std::alloc::Global;

/// The statement that a module type's declaration is where a body has come to: it does nothing when it runs.
///
/// # Errors
/// Those of its members; 41 where the innermost scope declares its name.
pub fn declare_module(
    alloc: Global,
    context: &mut Context,
    body: &mut Body,
    name: &Name,
    members: &[Member],
) -> Result<Box<TStmt>, TypingFault>
    // Each scope inside it declares each name once.
    requires once { ModuleIsOnce (source.view_members members.now) }
    ensures declares { IfOk result (λ z. DeclaresAt (view_context context.old) (view_body body.old)
        (decls.Module name.now.text (source.view_members members.now)) (view_stmt z.value)
        (view_context context.new) (view_body body.new)) }
    ensures refused { IfErr result (λ f. FailsBy f.cause (FailsAt (view_context context.old) (view_body body.old)
        (decls.Module name.now.text (source.view_members members.now)))) }
{
    match is_new(body, name, name.span) {
        Err(fault) => Err(fault),
        Ok(()) => match open_module(alloc, context, body, name) {
            Err(cause) => Err(untold(cause)),
            Ok(interface) => match add_members(alloc, context, body, interface, members) {
                Err(fault) => Err(fault),
                Ok(()) => {
                    let _left = body.scopes.leave();
                    nothing_runs(alloc)
                }
            },
        },
    }
}
