//! A variable.

ghost use Rattle.std.specs.Prelude.{◌≡◌, length, IfOk, IfErr};
ghost use Rattle.limbo_tree.specs.Exprs as tree;
ghost use Rattle.limbo_types.specs.View.{view_ty};
ghost use Rattle.limbo_typed.specs.Typed.{ToPlace, At, Local};
ghost use Rattle.limbo_typed.specs.View.{view_pattern};
ghost use Rattle.limbo_context.specs.Context.{with_variable};
ghost use Rattle.limbo_context.specs.View.{view_body};
ghost use Rattle.limbo_causes.specs.Causes.{FailsBy};
ghost use Rattle.limbo_defining.specs.Defining.{IsFree, Defines, FailsDefine};

use inf_text::Text;
use limbo_causes::Cause;
use limbo_context::{Body, BodyFault};
use limbo_typed::{Pattern, Place, PlaceNode};
use limbo_types::{Ty, copy};
use std::alloc::{AllocError, Global};

// Declares a variable of this type, and answers its number.
fn declare_as(alloc: Global, body: &mut Body, name: &Text, t: &Ty) -> Result<u32, Cause>
    ensures numbered { IfOk result (λ n. n ≡ length body.old.variables.items) }
    ensures declared { IfOk result (λ _. view_body body.new ≡ with_variable name.now (view_ty t.now) (view_body body.old)) }
    ensures free { IfOk result (λ _. IsFree name.now (view_body body.old)) }
    ensures taken { IfErr result (λ f. FailsBy f (FailsDefine (view_body body.old) (tree.Name name.now) (view_ty t.now))) }
{
    match copy(alloc, t) {
        Ok(ty) => match body.declare(name, ty) {
            Ok(number) => Ok(number),
            Err(BodyFault::Twice) => Err(Cause::Twice),
            Err(BodyFault::NoMemory) => Err(Cause::NoMemory),
        },
        Err(_) => Err(Cause::NoMemory),
    }
}

// The pattern of a variable.
#[tactic(auto, using(limbo_typed::proofs::View::the_exprs))]
fn to_variable(alloc: Global, number: u32, t: &Ty) -> Result<Box<Pattern>, AllocError>
    ensures { IfOk result (λ p. view_pattern p.value ≡ ToPlace (At (view_ty t.now) (Local number))) }
{
    let ty = copy(alloc, t)?;
    let at = PlaceNode::Local(number);
    let place = Box::new(alloc, Place { ty, at })?;
    Ok(Box::new(alloc, Pattern::Place(place))?)
}

/// Declares a name as a variable of a type, and answers the pattern of the variable.
///
/// # Errors
/// Want of memory or of numbers. `Twice` where the innermost scope declares the name already.
pub(crate) fn define_name(
    alloc: Global,
    body: &mut Body,
    name: &Text,
    t: &Ty,
) -> Result<Box<Pattern>, Cause>
    ensures defined { IfOk result
        (λ p. Defines (view_body body.old) (tree.Name name.now) (view_ty t.now) (view_pattern p.value) (view_body body.new)) }
    ensures refused { IfErr result (λ f. FailsBy f (FailsDefine (view_body body.old) (tree.Name name.now) (view_ty t.now))) }
{
    let number = declare_as(alloc, body, name, t)?;
    Ok(to_variable(alloc, number, t)?)
}
