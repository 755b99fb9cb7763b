//! The beginning of a body.

ghost use Rattle.std.specs.Prelude.{◌≡◌, IfOk, IfErr};
ghost use Rattle.limbo_tree.specs.View as tree;
ghost use Rattle.limbo_types.specs.View.{view_fn};
ghost use Rattle.limbo_declarations.specs.Scopes.{FnIsOnce};
ghost use Rattle.limbo_context.specs.View.{view_body};
ghost use Rattle.limbo_context.specs.declared.body.BodyFault.TheVariants.{Twice};
ghost use Rattle.limbo_bodies.specs.Bodies.{begun};

use crate::parameters::{declare_parameters, parameter_names};
use limbo_context::{Body, BodyFault};
use limbo_scope::Scopes;
use limbo_tree::FnType;
use limbo_types::FnTy;
use std::alloc::Global;

/// The body of a function that is written so and takes and answers this, where it begins in these scopes. Who leaves the body's innermost
/// scope has the scopes again.
///
/// # Errors
/// Want of memory or of numbers. `Twice` only where two parameters have one name.
pub fn begin_body(
    alloc: Global,
    scopes: Scopes,
    function: &FnType,
    of: &FnTy,
) -> Result<Body, BodyFault>
    ensures begins { IfOk result (λ b. view_body b ≡ begun scopes (tree.view_fn function.now).params (view_fn of.now)) }
    ensures twice { IfErr result (λ e. e ≡ Twice → FnIsOnce (tree.view_fn function.now) → ⊥) }
{
    let names = parameter_names(alloc, &function.params)?;
    let mut scopes = scopes;
    scopes.enter()?;
    let mut body = Body {
        scopes,
        variables: Vec::new(alloc),
    };
    match declare_parameters(alloc, &mut body, &names, &of.args) {
        Ok(()) => Ok(body),
        Err(fault) => Err(fault),
    }
}
