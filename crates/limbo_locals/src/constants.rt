//! Constants that a body declares.

ghost use Rattle.std.specs.Prelude.{◌≡◌, ℕ, map, length, None, Some, IfOk, IfErr, OnOk};
ghost use Rattle.limbo_tree.specs.Decls as decls;
ghost use Rattle.limbo_tree.specs.View as source;
ghost use Rattle.limbo_tree.specs.View.{names_of};
ghost use Rattle.limbo_typed.specs.View.{view_expr, view_stmt};
ghost use Rattle.limbo_typed.specs.Sound.{type_of};
ghost use Rattle.limbo_types.specs.View.{view_ty};
ghost use Rattle.limbo_folding.specs.Folding.{value_of};
ghost use Rattle.limbo_scope.specs.Laws.{declared_all};
ghost use Rattle.limbo_scope.specs.declared.meaning.Meaning.TheVariants as meaning;
ghost use Rattle.limbo_causes.specs.Causes as causes;
ghost use Rattle.limbo_causes.specs.Causes.{FailsBy};
ghost use Rattle.limbo_causes.specs.declared.fault.Cause.TheVariants.{NoMemory};
ghost use Rattle.limbo_context.specs.View.{view_context, view_body, view_valued};
ghost use Rattle.limbo_exprs.specs.limbo_typing.Typing.{HasValue};
ghost use Rattle.limbo_exprs.specs.limbo_typing.Failing.{FailsValue};
ghost use Rattle.limbo_local.specs.Points.{meaning_from};
ghost use Rattle.limbo_local.specs.Local as local;
ghost use Rattle.limbo_locals.specs.Named.{AreFree};
ghost use Rattle.limbo_locals.specs.Anywhere.{at, HasValueAt, IsConstantAt, AreConstantsAt, AddsConstants, FailsConstantAt};
ghost use Rattle.limbo_locals.specs.Anywhere.{FailsConstantsAt, DeclaresAt, FailsAt};

use crate::names::{Lead, declare_names};
use crate::values::{nothing_runs, untold};
use inf_text::{Span, Text};
use limbo_causes::{Cause, TypingFault};
use limbo_context::{Body, Context, Valued};
use limbo_exprs::value;
use limbo_folding::fold;
use limbo_scope::Meaning;
use limbo_tree::{Expr, Name, span_of};
use limbo_typed::{Constant, TExpr, TStmt};
use limbo_types::{Ty, copy};
use std::alloc::{AllocError, Global};

// The name of what counts the names of a declaration.
fn iota(alloc: Global) -> Result<Text, AllocError>
    ensures { IfOk result (λ text. text ≡ local.iota) }
{
    Ok(Text::from_vec(vec![in alloc; 'i', 'o', 't', 'a']?))
}

// Where nothing is seen by the name of `iota`, a scope begins in which it is the next constant.
fn see_iota(
    context: &Context,
    body: &mut Body,
    iota: &Text,
    seen: Option<Meaning>,
) -> Result<(), Cause>
    requires { iota.now ≡ local.iota }
    ensures sees { IfOk result (λ _. view_body body.new ≡ local.seeing seen (view_context context.now) (view_body body.old)) }
    ensures refused { IfErr result (λ f. f ≡ NoMemory) }
{
    match seen {
        Some(_) => Ok(()),
        None => {
            let Ok(number) = u32::try_from(context.constants.len()) else {
                return Err(Cause::NoMemory);
            };
            body.scopes.enter()?;
            match body.scopes.declare(iota, Meaning::Constant(number)) {
                Ok(()) => Ok(()),
                // A scope that begins declares nothing: never a name twice.
                Err(_) => Err(Cause::NoMemory),
            }
        }
    }
}

// That scope ends.
fn leave_iota(body: &mut Body, seen: Option<Meaning>)
    ensures { view_body body.new ≡ local.seen_behind seen (view_body body.old) }
{
    match seen {
        Some(_) => {}
        None => {
            let _ended = body.scopes.leave();
        }
    }
}

// A value in which `iota`, the next constant, is this number.
fn counted_value(
    alloc: Global,
    context: &mut Context,
    body: &mut Body,
    e: &Expr,
    place: u32,
) -> Result<Box<TExpr>, TypingFault>
    ensures typed { IfOk result (λ x. HasValue (local.counting place (view_context context.old)) (view_body body.old)
        (source.view_expr e.now) (view_expr x.value) (view_body body.new)) }
    ensures kept { OnOk result (view_context context.new ≡ view_context context.old) }
    ensures refused { IfErr result (λ f. FailsBy f.cause
        (FailsValue (local.counting place (view_context context.old)) (view_body body.old) (source.view_expr e.now))) }
{
    let count = Valued {
        ty: Ty::Int,
        value: Constant::Number(i64::from(place)),
    };
    context.constants.push(count)?;
    let x = value(alloc, context, body, e);
    let _count = context.constants.pop();
    x
}

// The constant that a typed expression is.
fn valued(alloc: Global, x: &TExpr, at: Span) -> Result<Valued, TypingFault>
    ensures known { IfOk result (λ v. value_of (view_expr x.now) ≡ Some v.value) }
    ensures of { IfOk result (λ v. view_ty v.ty ≡ type_of (view_expr x.now)) }
    ensures refused { IfErr result (λ f. FailsBy f.cause
        (λ k. (k ≡ causes.NotConstant) × (value_of (view_expr x.now) ≡ None))) }
{
    match fold(alloc, x)? {
        Some(value) => Ok(Valued {
            ty: copy(alloc, &x.ty)?,
            value,
        }),
        None => Err(TypingFault {
            cause: Cause::NotConstant,
            at,
        }),
    }
}

// A value in which `iota` is this number, in the scopes in which that is seen.
fn value_at(
    alloc: Global,
    context: &mut Context,
    body: &mut Body,
    e: &Expr,
    place: u32,
) -> Result<Box<TExpr>, TypingFault>
    ensures typed { IfOk result (λ x. HasValueAt (view_context context.old) (view_body body.old) (source.view_expr e.now) place
        (view_expr x.value) (view_body body.new)) }
    ensures kept { OnOk result (view_context context.new ≡ view_context context.old) }
    ensures refused { IfErr result (λ f. FailsBy f.cause
        (FailsValue (local.counting place (view_context context.old))
        (local.seeing_iota (view_context context.old) (view_body body.old)) (source.view_expr e.now))) }
{
    let iota = iota(alloc)?;
    let seen = body.scopes.look_up(&iota);
    match see_iota(context, body, &iota, seen) {
        Err(cause) => Err(TypingFault {
            cause,
            at: span_of(e),
        }),
        Ok(()) => {
            let x = counted_value(alloc, context, body, e, place);
            leave_iota(body, seen);
            x
        }
    }
}

// The constant that an expression is for the name with this place. What is constant declares no variable, so that the scopes stay as they
// were: that is looked for, and never found otherwise.
fn constant_at(
    alloc: Global,
    context: &mut Context,
    body: &mut Body,
    e: &Expr,
    place: u32,
) -> Result<Valued, TypingFault>
    ensures constant { IfOk result (λ v. IsConstantAt (view_context context.old) (view_body body.old) (source.view_expr e.now) place
        (view_valued v) (view_body body.new)) }
    ensures context { OnOk result (view_context context.new ≡ view_context context.old) }
    ensures scopes { OnOk result (body.new.scopes ≡ body.old.scopes) }
    ensures refused { IfErr result (λ f. FailsBy f.cause
        (FailsConstantAt (view_context context.old) (view_body body.old) (source.view_expr e.now) place)) }
{
    let depth = body.scopes.depth();
    prove!(depth > 0);
    let variables = body.variables.len();
    match value_at(alloc, context, body, e, place) {
        Err(fault) => Err(fault),
        Ok(x) => match valued(alloc, &x, span_of(e)) {
            Err(fault) => Err(fault),
            Ok(v) => {
                if body.variables.len() == variables {
                    Ok(v)
                } else {
                    Err(TypingFault::no_memory())
                }
            }
        },
    }
}

// The constants that an expression is, one for each of so many names.
fn constants_of(
    alloc: Global,
    context: &mut Context,
    body: &mut Body,
    names: &[Name],
    e: &Expr,
) -> Result<Vec<Valued>, TypingFault>
    ensures constants { IfOk result (λ vs. AreConstantsAt (view_context context.old) (view_body body.old) (source.view_expr e.now)
        (names_of names.now) (map view_valued vs.items) (view_body body.new)) }
    ensures context { OnOk result (view_context context.new ≡ view_context context.old) }
    ensures scopes { OnOk result (body.new.scopes ≡ body.old.scopes) }
    ensures refused { IfErr result (λ f. FailsBy f.cause
        (FailsConstantsAt (view_context context.old) (view_body body.old) (source.view_expr e.now) (names_of names.now))) }
{
    let mut values = Vec::new(alloc);
    for place in 0..names.len() {
        let Ok(number) = u32::try_from(place) else {
            return Err(TypingFault::no_memory());
        };
        match constant_at(alloc, context, body, e, number) {
            Ok(v) => values.push(v)?,
            Err(fault) => return Err(fault),
        }
    }
    Ok(values)
}

// Declares names for constants.
fn place_constants(
    context: &mut Context,
    body: &mut Body,
    names: &[Name],
    mut values: Vec<Valued>,
) -> Result<(), Cause>
    ensures declared { IfOk result (λ _. (n : ℕ) → at (view_context context.new) (view_body body.new) n
        ≡ local.with_constants (names_of names.now) (map view_valued values.items) (at (view_context context.old) (view_body body.old) n)) }
    ensures free { OnOk result (AreFree (names_of names.now) body.old.scopes) }
    ensures twice { IfErr result (λ f. FailsBy f (λ k. (k ≡ causes.Twice) × (AreFree (names_of names.now) body.old.scopes → ⊥))) }
{
    let first = context.constants.len();
    match declare_names(&mut body.scopes, names, Lead::Constant, first) {
        Err(cause) => Err(cause),
        Ok(()) => {
            context.constants.append(&mut values)?;
            Ok(())
        }
    }
}

/// Declares names for the constants that an expression is, where they are seen to be new: members of an adt or of a module.
///
/// # Errors
/// Those of the expression, and 43 where it isn't constant. Names that are declared already are told as a want of memory: the scope of an
/// adt or of a module has been seen to declare each name once.
pub fn add_constants(
    alloc: Global,
    context: &mut Context,
    body: &mut Body,
    names: &[Name],
    e: &Expr,
) -> Result<(), TypingFault>
    ensures adds { OnOk result (AddsConstants (view_context context.old) (view_body body.old) (names_of names.now)
        (source.view_expr e.now) (view_context context.new) (view_body body.new)) }
    ensures scopes { OnOk result (body.new.scopes ≡ declared_all
        (meaning_from meaning.Constant (length context.old.constants.items) (names_of names.now)) body.old.scopes) }
    ensures rows { OnOk result ((view_context context.new).members ≡ (view_context context.old).members) }
    ensures refused { IfErr result (λ f. FailsBy f.cause
        (FailsConstantsAt (view_context context.old) (view_body body.old) (source.view_expr e.now) (names_of names.now))) }
{
    match constants_of(alloc, context, body, names, e) {
        Err(fault) => Err(fault),
        Ok(values) => match place_constants(context, body, names, values) {
            Ok(()) => Ok(()),
            Err(cause) => Err(untold(cause)),
        },
    }
}

/// The statement that `names: con value;` is where a body has come to: it does nothing when it runs.
///
/// # Errors
/// Those of the expression, and 43 where it isn't constant; 41 where the innermost scope declares one of the names, or one stands twice.
pub fn declare_constants(
    alloc: Global,
    context: &mut Context,
    body: &mut Body,
    names: &[Name],
    e: &Expr,
    at: Span,
) -> Result<Box<TStmt>, TypingFault>
    ensures declares { IfOk result (λ z. DeclaresAt (view_context context.old) (view_body body.old)
        (decls.Con (names_of names.now) (source.view_expr e.now)) (view_stmt z.value)
        (view_context context.new) (view_body body.new)) }
    ensures refused { IfErr result (λ f. FailsBy f.cause (FailsAt (view_context context.old) (view_body body.old)
        (decls.Con (names_of names.now) (source.view_expr e.now)))) }
{
    match constants_of(alloc, context, body, names, e) {
        Err(fault) => Err(fault),
        Ok(values) => match place_constants(context, body, names, values) {
            Ok(()) => nothing_runs(alloc),
            Err(cause) => Err(TypingFault { cause, at }),
        },
    }
}
