//! Functions that a module type has.

ghost use Rattle.std.specs.Prelude.{◌≡◌, ◌++◌, ℕ, map, IfOk, IfErr, OnOk};
ghost use Rattle.limbo_types.specs.View.{view_fn};
ghost use Rattle.limbo_tree.specs.Decls as decls;
ghost use Rattle.limbo_tree.specs.View as source;
ghost use Rattle.limbo_tree.specs.View.{names_of};
ghost use Rattle.limbo_typed.specs.View.{view_signature, view_interface};
ghost use Rattle.limbo_causes.specs.declared.fault.Cause.TheVariants.{NoMemory};
ghost use Rattle.limbo_causes.specs.Causes.{FailsBy};
ghost use Rattle.limbo_context.specs.View.{view_context, view_body};
ghost use Rattle.limbo_locals.specs.limbo_local.Members.{with_signatures, with_functions, showing_module};
ghost use Rattle.limbo_locals.specs.Anywhere.{at};
ghost use Rattle.limbo_interfaces.specs.Modules.{signatures_of, IsBegun, AddsMember, FailsMember};

use limbo_causes::TypingFault;
use limbo_context::{Body, Context};
use limbo_locals::{Lead, declare_names};
use limbo_members::{header, show_names, untold};
use limbo_tree::{FnType, Name};
use limbo_typed::{Interface, Signature};
use limbo_types::{FnTy, copy_fn};
use std::alloc::{AllocError, Global};

// A function as a module type declares it.
fn signature(alloc: Global, name: &Name, of: &FnTy) -> Result<Signature, AllocError>
    ensures { IfOk result (λ s. view_signature s ≡ record { name = name.now.text; of = view_fn of.now }) }
{
    Ok(Signature {
        name: name.text.clone()?,
        of: copy_fn(alloc, of)?,
    })
}

// A function more for each name.
fn push_signatures(
    alloc: Global,
    functions: &mut Vec<Signature>,
    names: &[Name],
    of: &FnTy,
) -> Result<(), AllocError>
    ensures { IfOk result (λ _. map view_signature functions.new.items
        ≡ map view_signature functions.old.items ++ signatures_of (names_of names.now) (view_fn of.now)) }
{
    for name in names {
        functions.push(signature(alloc, name, of)?)?;
    }
    Ok(())
}

// A module type has functions of these names behind those that it has.
fn add_signatures(
    alloc: Global,
    interface: &mut Interface,
    names: &[Name],
    of: &FnTy,
) -> Result<(), AllocError>
    ensures { IfOk result (λ _. view_interface interface.new
        ≡ with_signatures (names_of names.now) (view_fn of.now) (view_interface interface.old)) }
{
    push_signatures(alloc, &mut interface.functions, names, of)
}

// Functions of these names, which take and answer this, are numbered from the number of those that are there on.
fn place_functions(
    alloc: Global,
    context: &mut Context,
    body: &mut Body,
    interface: u32,
    names: &[Name],
    of: &FnTy,
) -> Result<(), TypingFault>
    requires begun { IsBegun interface (view_context context.old) (view_body body.old) }
    ensures placed { OnOk result ((n : ℕ) → at (view_context context.new) (view_body body.new) n
        ≡ showing_module interface (with_functions interface (names_of names.now) (view_fn of.now)
        (at (view_context context.old) (view_body body.old) n))) }
    ensures begun { OnOk result (IsBegun interface (view_context context.new) (view_body body.new)) }
    ensures refused { IfErr result (λ f. f.cause ≡ NoMemory) }
{
    let first = context.interfaces[interface as usize].functions.len();
    match declare_names(&mut body.scopes, names, Lead::Function, first) {
        Err(cause) => Err(untold(cause)),
        Ok(()) => {
            let into = &mut context.interfaces[interface as usize];
            add_signatures(alloc, into, names, of)?;
            show_names(
                &mut context.exports,
                interface,
                names,
                Lead::Function,
                first,
            )
        }
    }
}

/// Functions that a module type declares.
///
/// # Errors
/// Those of the types of their arguments and of their answer; 53 where they would answer a value of a user's module.
pub(crate) fn add_functions(
    alloc: Global,
    context: &mut Context,
    body: &mut Body,
    interface: u32,
    names: &[Name],
    of: &FnType,
) -> Result<(), TypingFault>
    requires begun { IsBegun interface (view_context context.old) (view_body body.old) }
    ensures adds { OnOk result (AddsMember interface (decls.FnMember (names_of names.now) (source.view_fn of.now))
        (view_context context.old) (view_body body.old) (view_context context.new) (view_body body.new)) }
    ensures begun { OnOk result (IsBegun interface (view_context context.new) (view_body body.new)) }
    ensures refused { IfErr result (λ f. FailsBy f.cause
        (FailsMember interface (decls.FnMember (names_of names.now) (source.view_fn of.now))
        (view_context context.old) (view_body body.old))) }
{
    match header(alloc, context, body, of) {
        Err(fault) => Err(fault),
        Ok(of) => place_functions(alloc, context, body, interface, names, &of),
    }
}
