//! The variable of an arm.

ghost use Rattle.std.specs.Prelude.{◌≡◌, length, IfOk};
ghost use Rattle.limbo_types.specs.View.{view_ty};
ghost use Rattle.limbo_context.specs.Context.{with_variable};
ghost use Rattle.limbo_context.specs.View.{view_body};
ghost use Rattle.limbo_heads.specs.Entering.{DeclaresNothing};

use inf_text::Text;
use limbo_context::{Body, BodyFault};
use limbo_types::Ty;
use std::alloc::AllocError;

/// Declares a variable in a scope that declares nothing yet, and answers its number.
pub(crate) fn declare_first(body: &mut Body, name: &Text, ty: Ty) -> Result<u32, AllocError>
    requires entered { DeclaresNothing (view_body body.old).scopes }
    ensures numbered { IfOk result (λ n. n ≡ length (view_body body.old).variables) }
    ensures declared { IfOk result (λ _. view_body body.new ≡ with_variable name.now (view_ty ty) (view_body body.old)) }
{
    match body.declare(name, ty) {
        Ok(number) => Ok(number),
        Err(BodyFault::NoMemory) => Err(AllocError),
        Err(BodyFault::Twice) => unreachable!(),
    }
}
