//! Modules begin.

ghost use Rattle.std.specs.Prelude.{◌≡◌, ◌++◌, ◌∷◌, [], ℕ, length, None, map, IfOk, IfErr, OnOk, IsSome};
ghost use Rattle.limbo_scope.specs.Scopes.{declared_here};
ghost use Rattle.limbo_typed.specs.View.{view_interface};
ghost use Rattle.limbo_causes.specs.declared.fault.Cause.TheVariants.{NoMemory};
ghost use Rattle.limbo_causes.specs.Causes as causes;
ghost use Rattle.limbo_causes.specs.Causes.{FailsBy};
ghost use Rattle.limbo_context.specs.View.{view_context, view_body};
ghost use Rattle.limbo_locals.specs.limbo_local.Members as members;
ghost use Rattle.limbo_locals.specs.Anywhere.{at};
ghost use Rattle.limbo_interfaces.specs.Modules.{begun_module};

use limbo_causes::Cause;
use limbo_context::{Body, Context};
use limbo_members::{enter_named, name_module};
use limbo_scope::{Meaning, Scopes};
use limbo_tree::Name;
use limbo_typed::Interface;
use std::alloc::{AllocError, Global};

// One more module type, which has no functions yet.
fn push_interface(
    alloc: Global,
    interfaces: &mut Vec<Interface>,
    name: &Name,
) -> Result<(), AllocError>
    ensures { IfOk result (λ _. map view_interface interfaces.new.items
        ≡ map view_interface interfaces.old.items ++ (record { name = name.now.text; functions = [] }) ∷ []) }
{
    let name = name.text.clone()?;
    let functions = Vec::new(alloc);
    interfaces.push(Interface { name, functions })?;
    Ok(())
}

// The lists of module types have one more of this name.
fn push_module(alloc: Global, context: &mut Context, name: &Name) -> Result<(), Cause>
    ensures pushed { OnOk result (view_context context.new ≡ begun_module name.now.text (view_context context.old)) }
    ensures refused { IfErr result (λ f. f ≡ NoMemory) }
{
    context.exports.push(Scopes::new(alloc))?;
    push_interface(alloc, &mut context.interfaces, name)?;
    name_module(alloc, context, name)
}

/// A module begins: its name is declared, and the scope of its members entered. Each module type has its name, its functions and its row
/// of exports: that as many of each are there is seen once more, and a want of memory told where not.
///
/// # Errors
/// `Twice` only where the innermost scope declares the name already.
pub(crate) fn open_module(
    alloc: Global,
    context: &mut Context,
    body: &mut Body,
    name: &Name,
) -> Result<u32, Cause>
    ensures opened { OnOk result ((n : ℕ) → at (view_context context.new) (view_body body.new) n
        ≡ members.open_module name.now.text (at (view_context context.old) (view_body body.old) n)) }
    ensures number { IfOk result (λ i. i ≡ length (view_context context.old).interfaces) }
    ensures names { OnOk result (length (view_context context.old).modules ≡ length (view_context context.old).interfaces) }
    ensures rows { OnOk result (length (view_context context.old).exports ≡ length (view_context context.old).interfaces) }
    ensures twice { IfErr result (λ f. FailsBy f
        (λ k. (k ≡ causes.Twice) × IsSome (declared_here name.now.text body.old.scopes))) }
{
    let modules = context.interfaces.len();
    if context.adts.modules().len() != modules || context.exports.len() != modules {
        return Err(Cause::NoMemory);
    }
    let Ok(number) = u32::try_from(modules) else {
        return Err(Cause::NoMemory);
    };
    match enter_named(body, name, Meaning::Module(number)) {
        Err(cause) => Err(cause),
        Ok(()) => match push_module(alloc, context, name) {
            Ok(()) => Ok(number),
            Err(cause) => Err(cause),
        },
    }
}
