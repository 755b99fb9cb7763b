//! Which types of values written types mean.

ghost use Rattle.std.specs.Prelude.{IfOk, IfErr};
ghost use Rattle.limbo_tree.specs.View.{view_type};
ghost use Rattle.limbo_types.specs.View.{view_ty};
ghost use Rattle.limbo_context.specs.View.{view_context, view_body};
ghost use Rattle.limbo_body_types.specs.Means.{Means};
ghost use Rattle.limbo_causes.specs.Causes.{FailsBy};
ghost use Rattle.limbo_body_types.specs.Fails.{Fails};
ghost use Rattle.limbo_written.specs.Written.{MeansPermitted, FailsAsType};

use crate::fault::told;
use limbo_body_types::{WrittenFault, type_in};
use limbo_causes::{Cause, TypingFault};
use limbo_context::{Body, Context};
use limbo_permits::permit_type;
use limbo_tree::{TypeTree, span_of_type};
use limbo_types::Ty;
use std::alloc::Global;

// The type that a written type means, in memory of its own.
fn meant(
    alloc: Global,
    context: &Context,
    body: &Body,
    t: &TypeTree,
) -> Result<Box<Ty>, WrittenFault>
    ensures means { IfOk result (λ u. Means (view_context context.now) (view_body body.now) (view_type t.now) (view_ty u.value)) }
    ensures refused { IfErr result (λ f. Fails (view_context context.now) (view_body body.now) t.now f) }
{
    match type_in(alloc, context, body, t) {
        Ok(u) => Ok(Box::new(alloc, u)?),
        Err(fault) => Err(fault),
    }
}

/// The type that a written type means where a body has come to, if values may have it.
///
/// # Errors
/// Want of memory; refusals 42 and 50 where a name in it isn't there or is no type, 51, 53 and 55 where values may not have what it
/// means. The place is that of the name, or of the whole type.
pub fn type_of_values(
    alloc: Global,
    context: &Context,
    body: &Body,
    t: &TypeTree,
) -> Result<Box<Ty>, TypingFault>
    // It means that type, and values may have it.
    ensures means { IfOk result (λ u. MeansPermitted (view_context context.now) (view_body body.now) (view_type t.now) (view_ty u.value)) }
    // Where it is refused, it means none for this cause, or values may not have what it means.
    ensures refused { IfErr result (λ f. FailsBy f.cause (FailsAsType (view_context context.now) (view_body body.now) (view_type t.now))) }
{
    match meant(alloc, context, body, t) {
        Err(fault) => Err(told(alloc, fault, span_of_type(t))),
        Ok(u) => match permit_type(alloc, context, &u) {
            Ok(()) => Ok(u),
            Err(fault) => Err(TypingFault {
                cause: Cause::Refused(fault),
                at: span_of_type(t),
            }),
        },
    }
}
