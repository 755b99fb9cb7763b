//! The parameters of functions.

ghost use Rattle.std.specs.Prelude.{◌≡◌, ◌++◌, List, ℕ, map, IfOk, IfErr, OnOk, Some};
ghost use Rattle.limbo_tree.specs.View.{view_param, name_of};
ghost use Rattle.limbo_types.specs.View.{view_ty};
ghost use Rattle.limbo_scope.specs.declared.meaning.Meaning as meaning;
ghost use Rattle.limbo_scope.specs.Scopes.{declared_here};
ghost use Rattle.limbo_context.specs.View.{view_body};
ghost use Rattle.limbo_context.specs.declared.body.BodyFault.TheVariants.{Twice};
ghost use Rattle.limbo_bodies.specs.Bodies as bodies;
ghost use Rattle.limbo_bodies.specs.Bodies.{with_parameter, with_parameters, RepeatsName};
ghost use Rattle.limbo_bodies.specs.View.{view_parameter, names_seen};

use inf_text::Text;
use limbo_context::{Body, BodyFault};
use limbo_tree::{Name, Param};
use limbo_typed::TVar;
use limbo_types::{Ty, copy};
use std::alloc::{AllocError, Global};

// Adds names of parameters.
fn push_names<'a>(
    names: &mut Vec<Option<&'a Name>>,
    more: &'a [Option<Name>],
) -> Result<(), AllocError>
    ensures { OnOk result (names_seen names.new.items ≡ names_seen names.old.items ++ map name_of more.now) }
{
    for name in more {
        match name {
            Some(name) => names.push(Some(name))?,
            None => names.push(None)?,
        }
    }
    Ok(())
}

/// The names of these parameters, in order.
///
/// # Errors
/// Want of memory.
pub(crate) fn parameter_names<'a>(
    alloc: Global,
    params: &'a [Param],
) -> Result<Vec<Option<&'a Name>>, AllocError>
    ensures { IfOk result (λ names. names_seen names.items ≡ bodies.parameter_names (map view_param params.now)) }
{
    let mut names = Vec::new(alloc);
    for param in params {
        push_names(&mut names, &param.names)?;
    }
    Ok(names)
}

// Makes a variable that has no name.
fn push_unnamed(alloc: Global, body: &mut Body, ty: Ty) -> Result<(), AllocError>
    ensures { OnOk result (view_body body.new ≡ with_parameter None (view_ty ty) (view_body body.old)) }
{
    let name = Text::new(alloc);
    body.variables.push(TVar { name, ty })?;
    Ok(())
}

// Declares a parameter.
fn declare_parameter(
    alloc: Global,
    body: &mut Body,
    name: Option<&Name>,
    ty: Ty,
) -> Result<(), BodyFault>
    ensures declared { OnOk result (view_body body.new ≡ with_parameter (view_parameter name.entry) (view_ty ty) (view_body body.old)) }
    ensures twice { IfErr result (λ e. e ≡ Twice → (text : List ℕ) × (x : meaning.Meaning) × (view_parameter name.entry ≡ Some text)
        × (declared_here text body.old.scopes ≡ Some x)) }
{
    match name {
        None => Ok(push_unnamed(alloc, body, ty)?),
        Some(name) => match body.declare(&name.text, ty) {
            Ok(_number) => Ok(()),
            Err(fault) => Err(fault),
        },
    }
}

/// Declares parameters of these names and types, one after the other.
///
/// # Errors
/// Want of memory or of numbers. `Twice` only where a name is declared already.
pub(crate) fn declare_parameters(
    alloc: Global,
    body: &mut Body,
    names: &[Option<&Name>],
    types: &[Ty],
) -> Result<(), BodyFault>
    ensures declared { OnOk result (view_body body.new
        ≡ with_parameters (names_seen names.now) (map view_ty types.now) (view_body body.old)) }
    ensures twice { IfErr result (λ e. e ≡ Twice → RepeatsName (names_seen names.now) (map view_ty types.now) (view_body body.old)) }
{
    for place in 0..names.len() {
        if place >= types.len() {
            return Ok(());
        }
        let ty = copy(alloc, &types[place])?;
        match declare_parameter(alloc, body, names[place], ty) {
            Ok(()) => {}
            Err(fault) => return Err(fault),
        }
    }
    Ok(())
}
