//! Names of declared exceptions.

ghost use Rattle.std.specs.Prelude.{◌≡◌, ℕ, Some, None, IfOk, IfErr, option_map};
ghost use Rattle.limbo_tree.specs.View as source;
ghost use Rattle.limbo_refusals.specs.Refusals.{NoneIs};
ghost use Rattle.limbo_causes.specs.declared.fault.Cause.TheVariants.{NoMemory};
ghost use Rattle.limbo_context.specs.View.{view_context, view_body};
ghost use Rattle.limbo_things.specs.Things.{AnException, NameIs};
ghost use Rattle.limbo_things.specs.ThingView.{view_thing};
ghost use Rattle.limbo_stmt_values.specs.limbo_stating.Raising as rules;
ghost use Rattle.limbo_raising.specs.Exceptions.{exception_in};

use inf_text::Text;
use limbo_causes::TypingFault;
use limbo_context::{Body, Context};
use limbo_things::{NameFault, Thing, name};
use limbo_tree::{Expr, call_in, name_in};
use std::alloc::Global;

// The exception that a thing is.
fn number_in(thing: &Thing) -> Option<u32>
    ensures { result ≡ exception_in (view_thing thing.now) }
{
    match thing {
        Thing::Exception(number) => Some(*number),
        _ => None,
    }
}

/// The number of the declared exception that a name is.
pub(crate) fn exception_named(
    alloc: Global,
    context: &Context,
    body: &Body,
    text: &Text,
) -> Result<Option<u32>, TypingFault>
    ensures found { IfOk result (λ o. (i : ℕ) → o ≡ Some i
        → NameIs (view_context context.now) (view_body body.now) text.now (AnException i)) }
    ensures none { IfOk result (λ o. o ≡ None
        → NoneIs (λ i. NameIs (view_context context.now) (view_body body.now) text.now (AnException i))) }
    ensures refused { IfErr result (λ f. f.cause ≡ NoMemory) }
{
    limbo_things::one_thing();
    match name(alloc, context, body, text) {
        Ok(thing) => Ok(number_in(&thing)),
        Err(NameFault::NoMemory) => Err(TypingFault::no_memory()),
        Err(NameFault::Unknown) => Ok(None),
        Err(NameFault::Nothing) => Ok(None),
    }
}

/// The name that an exception would have which is raised.
pub(crate) fn raised_name(e: &Expr) -> Option<&Text>
    ensures { option_map (λ t. t.now) result ≡ rules.raised_name (source.view_expr e.now) }
{
    match call_in(e) {
        Some((function, _)) => name_in(function),
        None => name_in(e),
    }
}
