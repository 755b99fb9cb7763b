//! The heads of arms of handlers.

ghost use Rattle.std.specs.Prelude.{◌≡◌, ◌∷◌, [], length, map, IfOk, IfErr};
ghost use Rattle.limbo_tree.specs.View as source;
ghost use Rattle.limbo_types.specs.Types.{Ty};
ghost use Rattle.limbo_causes.specs.Causes as causes;
ghost use Rattle.limbo_causes.specs.Causes.{FailsBy};
ghost use Rattle.limbo_refusals.specs.Refusals.{Refusal};
ghost use Rattle.limbo_context.specs.View.{view_context, view_body};
ghost use Rattle.limbo_stmt_values.specs.limbo_local.Points.{with_variables};
ghost use Rattle.limbo_permits.specs.Permits.{Permits, ForbidsType};
ghost use Rattle.limbo_stmt_values.specs.limbo_stating.Handlers.{IsCaught, IsHandlerHead, FailsHandlerHead};
ghost use Rattle.limbo_stmt_values.specs.Leading.{From, Leads};
ghost use Rattle.limbo_heads.specs.Entering.{DeclaresNothing};
ghost use Rattle.limbo_heads.specs.Catching.{IsVariable, FailsVariable};
ghost use Rattle.limbo_heads.specs.Starts.{view_handler_start};

use crate::catching::caught;
use crate::entering::declare_first;
use crate::handling::all_handled;
use limbo_causes::TypingFault;
use limbo_context::{Body, Context};
use limbo_permits::permit_type;
use limbo_tree::{HandlerPattern, Name};
use limbo_typed::HandlerPattern as TPattern;
use std::alloc::Global;

/// The head of an arm of a handler: what it takes, and its variable, where the handler has a name.
#[derive(Drop)]
pub struct HandlerStart {
    pub patterns: Vec<TPattern>,
    pub variable: Option<u32>,
}

// The variable of an arm with these patterns.
fn variable_of(
    alloc: Global,
    context: &Context,
    body: &mut Body,
    name: &Name,
    patterns: &[TPattern],
) -> Result<u32, TypingFault>
    requires entered { DeclaresNothing (view_body body.old).scopes }
    ensures declared { IfOk result (λ v. IsVariable (view_context context.now) patterns.now name.now.text v
        (view_body body.old) (view_body body.new)) }
    ensures refused { IfErr result (λ f. FailsBy f.cause (FailsVariable (view_context context.now) patterns.now)) }
{
    let t = caught(alloc, context, patterns)?;
    match permit_type(alloc, context, &t) {
        Ok(()) => Ok(declare_first(body, &name.text, t)?),
        Err(fault) => Err(TypingFault::refused(fault, name.span)),
    }
}

/// The head of an arm of a handler, which may have a name. The arm's scope has just been entered.
///
/// # Errors
/// 42 and 50 where a pattern is no declared exception's name; those of the type of what is caught, where the handler has a name.
pub fn handler_head(
    alloc: Global,
    context: &Context,
    body: &mut Body,
    name: &Option<Name>,
    patterns: &[HandlerPattern],
) -> Result<HandlerStart, TypingFault>
    requires entered { DeclaresNothing (view_body body.old).scopes }
    ensures head { IfOk result (λ h. Leads
        (λ p q. IsHandlerHead (source.name_of name.now) p (map source.view_handler_pattern patterns.now) (view_handler_start h) q)
        (view_context context.now) (view_body body.old) (view_body body.new)) }
    ensures refused { IfErr result (λ f. FailsBy f.cause
        (λ k. From (λ p. FailsHandlerHead p (map source.view_handler_pattern patterns.now) (source.name_of name.now) k)
        (view_context context.now) (view_body body.old))) }
{
    match all_handled(alloc, context, body, patterns) {
        Err(fault) => Err(fault),
        Ok(taken) => match name {
            None => Ok(HandlerStart {
                patterns: taken,
                variable: None,
            }),
            Some(name) => match variable_of(alloc, context, body, name, &taken) {
                Ok(variable) => Ok(HandlerStart {
                    patterns: taken,
                    variable: Some(variable),
                }),
                Err(fault) => Err(fault),
            },
        },
    }
}
