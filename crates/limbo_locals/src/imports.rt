//! Names that a body imports.

ghost use Rattle.std.specs.Prelude.{◌≡◌, ◌++◌, ℕ, IfOk, IfErr, IfSome, IfNone, None};
ghost use Rattle.limbo_tree.specs.Decls as decls;
ghost use Rattle.limbo_tree.specs.View.{names_of};
ghost use Rattle.limbo_typed.specs.View.{view_stmt};
ghost use Rattle.limbo_causes.specs.Causes as causes;
ghost use Rattle.limbo_causes.specs.Causes.{FailsBy};
ghost use Rattle.limbo_context.specs.Context.{named_in};
ghost use Rattle.limbo_context.specs.View.{view_context, view_body};
ghost use Rattle.limbo_local.specs.Local as local;
ghost use Rattle.limbo_local.specs.Local.{IsImported, AreImported, NamesModule};
ghost use Rattle.limbo_local.specs.Failing.{FailsModule, HasNoMember};
ghost use Rattle.limbo_locals.specs.Anywhere.{at, DeclaresAt, FailsAt};

use crate::names::{Lead, declare_names};
use crate::values::nothing_runs;
use inf_text::{Span, Text};
use limbo_body_types::module_led;
use limbo_causes::{Cause, TypingFault};
use limbo_context::{Body, Context, Imported, Origin};
use limbo_refusals::clash_of;
use limbo_scope::Meaning;
use limbo_tree::Name;
use limbo_typed::TStmt;
use limbo_types::Ty;
use std::alloc::{AllocError, Global};

// What a name is imported from that means this.
fn origin_of(meaning: Meaning) -> Origin
    ensures { result ≡ local.origin_of meaning }
{
    match meaning {
        Meaning::Variable(number) => Origin::Local(number),
        Meaning::Global(number) => Origin::Global(number),
        _ => Origin::Type,
    }
}

// Where a name leads that names are imported from.
#[derive(Clone, Copy)]
struct Source {
    origin: Origin,
    interface: u32,
}

// The module that a name leads to.
fn source_of(alloc: Global, context: &Context, body: &Body, name: &Text) -> Result<Source, Cause>
    ensures names { IfOk result (λ s. (n : ℕ)
        → NamesModule (at (view_context context.now) (view_body body.now) n) name.now s.origin s.interface) }
    ensures refused { IfErr result (λ f. FailsBy f (λ k. (n : ℕ)
        → FailsModule (at (view_context context.now) (view_body body.now) n) name.now k)) }
{
    let Some(meaning) = body.scopes.look_up(name) else {
        return Err(Cause::Unknown);
    };
    match module_led(context, body, meaning) {
        Some(interface) => Ok(Source {
            origin: origin_of(meaning),
            interface,
        }),
        None => Err(Cause::Refused(clash_of(alloc, &Ty::Nothing, &Ty::Nothing))),
    }
}

// A name that a module's type has a member of.
fn import_one(context: &Context, source: Source, name: &Text) -> Option<Imported>
    ensures imported { IfSome result (λ x. IsImported (view_context context.now) source.origin source.interface name.now x) }
    ensures lacking { IfNone result (named_in (view_context context.now).exports source.interface name.now ≡ None) }
{
    let member = context.exported(source.interface, name)?;
    Some(Imported {
        origin: source.origin,
        interface: source.interface,
        member,
    })
}

// The names, each a member of the module's type.
fn import_all(
    alloc: Global,
    context: &Context,
    source: Source,
    names: &[Name],
) -> Result<Vec<Imported>, Cause>
    ensures imported { IfOk result (λ xs.
        AreImported (view_context context.now) source.origin source.interface (names_of names.now) xs.items) }
    ensures refused { IfErr result (λ f. FailsBy f
        (λ k. (k ≡ causes.Unknown) × HasNoMember (view_context context.now) source.interface (names_of names.now))) }
{
    let mut imported = Vec::new(alloc);
    for name in names {
        match import_one(context, source, &name.text) {
            Some(x) => imported.push(x)?,
            None => return Err(Cause::Unknown),
        }
    }
    Ok(imported)
}

// More of what is imported.
fn push_imports(imports: &mut Vec<Imported>, more: &[Imported]) -> Result<(), AllocError>
    ensures { IfOk result (λ _. imports.new.items ≡ imports.old.items ++ more.now) }
{
    imports.extend_from_slice(more)?;
    Ok(())
}

/// The statement that `names: import module;` is where a body has come to: it does nothing when it runs.
///
/// # Errors
/// 42 where the module's name isn't seen, or the module has no such member; 50 where the name leads to no module; 41 where the innermost
/// scope declares one of the names, or one stands twice.
pub fn declare_imports(
    alloc: Global,
    context: &mut Context,
    body: &mut Body,
    names: &[Name],
    module: &Text,
    at: Span,
) -> Result<Box<TStmt>, TypingFault>
    ensures declares { IfOk result (λ z. DeclaresAt (view_context context.old) (view_body body.old)
        (decls.Import (names_of names.now) module.now) (view_stmt z.value) (view_context context.new) (view_body body.new)) }
    ensures refused { IfErr result (λ f. FailsBy f.cause (FailsAt (view_context context.old) (view_body body.old)
        (decls.Import (names_of names.now) module.now))) }
{
    match source_of(alloc, context, body, module) {
        Err(cause) => Err(TypingFault { cause, at }),
        Ok(source) => match import_all(alloc, context, source, names) {
            Err(cause) => Err(TypingFault { cause, at }),
            Ok(imported) => {
                let first = context.imports.len();
                match declare_names(&mut body.scopes, names, Lead::Import, first) {
                    Err(cause) => Err(TypingFault { cause, at }),
                    Ok(()) => {
                        push_imports(&mut context.imports, &imported)?;
                        nothing_runs(alloc)
                    }
                }
            }
        },
    }
}
