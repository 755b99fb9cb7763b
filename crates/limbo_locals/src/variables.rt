//! Variables that a body declares.

ghost use Rattle.std.specs.Prelude.{◌≡◌, ◌++◌, ℕ, List, map, length, None, Some, IfOk, IfErr};
ghost use Rattle.limbo_types.specs.View.{view_ty};
ghost use Rattle.limbo_tree.specs.Decls as decls;
ghost use Rattle.limbo_tree.specs.View as source;
ghost use Rattle.limbo_tree.specs.View.{names_of};
ghost use Rattle.limbo_typed.specs.Typed.{Declare};
ghost use Rattle.limbo_typed.specs.View.{view_var, view_boxed, view_stmt};
ghost use Rattle.limbo_causes.specs.Causes as causes;
ghost use Rattle.limbo_causes.specs.Causes.{FailsBy};
ghost use Rattle.limbo_causes.specs.declared.fault.Cause.TheVariants.{NoMemory};
ghost use Rattle.limbo_context.specs.View.{view_context, view_body};
ghost use Rattle.limbo_local.specs.Points.{numbers};
ghost use Rattle.limbo_locals.specs.Named.{AreFree, variables_of, with_variables_in};
ghost use Rattle.limbo_locals.specs.Anywhere.{DeclaresAt, FailsAt};

use crate::names::{Lead, declare_names};
use crate::values::{settled, value_as};
use inf_text::Span;
use limbo_causes::{Cause, TypingFault};
use limbo_context::{Body, Context};
use limbo_exprs::value;
use limbo_tree::{Expr, Name, TypeTree, span_of};
use limbo_typed::{TExpr, TStmt, TVar};
use limbo_types::{Ty, copy};
use limbo_written::type_of_values;
use std::alloc::Global;

// Variables of a type, behind those that are there, with their numbers.
fn push_variables(
    alloc: Global,
    variables: &mut Vec<TVar>,
    names: &[Name],
    t: &Ty,
) -> Result<Vec<u32>, Cause>
    ensures variables { IfOk result (λ _. map view_var variables.new.items
        ≡ map view_var variables.old.items ++ variables_of (names_of names.now) (view_ty t.now)) }
    ensures numbers { IfOk result (λ xs. xs.items ≡ numbers (length variables.old.items) (names_of names.now)) }
    ensures refused { IfErr result (λ f. f ≡ NoMemory) }
{
    let mut pushed = Vec::new(alloc);
    for name in names {
        let Ok(number) = u32::try_from(variables.len()) else {
            return Err(Cause::NoMemory);
        };
        let name = name.text.clone()?;
        let ty = copy(alloc, t)?;
        variables.push(TVar { name, ty })?;
        pushed.push(number)?;
    }
    Ok(pushed)
}

// Declares variables of a type.
fn add_variables(alloc: Global, body: &mut Body, names: &[Name], t: &Ty) -> Result<Vec<u32>, Cause>
    ensures declared { IfOk result (λ _. view_body body.new
        ≡ with_variables_in (names_of names.now) (view_ty t.now) (view_body body.old)) }
    ensures numbers { IfOk result (λ xs. xs.items ≡ numbers (length (view_body body.old).variables) (names_of names.now)) }
    ensures free { IfOk result (λ _. AreFree (names_of names.now) (view_body body.old).scopes) }
    ensures refused { IfErr result (λ f. FailsBy f
        (λ k. (k ≡ causes.Twice) × (AreFree (names_of names.now) (view_body body.old).scopes → ⊥))) }
{
    let first = body.variables.len();
    match declare_names(&mut body.scopes, names, Lead::Variable, first) {
        Ok(()) => push_variables(alloc, &mut body.variables, names, t),
        Err(cause) => Err(cause),
    }
}

// The statement with which variables begin.
#[tactic(auto, using(limbo_typed::proofs::View::the_stmts))]
fn begin(
    alloc: Global,
    variables: Vec<u32>,
    value: Option<Box<TExpr>>,
) -> Result<Box<TStmt>, TypingFault>
    ensures begun { IfOk result (λ z. view_stmt z.value ≡ Declare variables.items (view_boxed value)) }
    ensures refused { IfErr result (λ f. f.cause ≡ NoMemory) }
{
    Ok(Box::new(alloc, TStmt::Declare { variables, value })?)
}

// Declares variables of a type, which begin with a value, or with zero or `nil`.
fn begin_variables(
    alloc: Global,
    body: &mut Body,
    names: &[Name],
    t: &Ty,
    value: Option<Box<TExpr>>,
    at: Span,
) -> Result<Box<TStmt>, TypingFault>
    ensures begun { IfOk result (λ z. view_stmt z.value
        ≡ Declare (numbers (length (view_body body.old).variables) (names_of names.now)) (view_boxed value)) }
    ensures declared { IfOk result (λ _. view_body body.new
        ≡ with_variables_in (names_of names.now) (view_ty t.now) (view_body body.old)) }
    ensures free { IfOk result (λ _. AreFree (names_of names.now) (view_body body.old).scopes) }
    ensures refused { IfErr result (λ f. FailsBy f.cause
        (λ k. (k ≡ causes.Twice) × (AreFree (names_of names.now) (view_body body.old).scopes → ⊥))) }
{
    match add_variables(alloc, body, names, t) {
        Ok(variables) => begin(alloc, variables, value),
        Err(cause) => Err(TypingFault { cause, at }),
    }
}

// `names: of;`
fn declare_plain(
    alloc: Global,
    context: &Context,
    body: &mut Body,
    names: &[Name],
    of: &TypeTree,
    at: Span,
) -> Result<Box<TStmt>, TypingFault>
    ensures declares { IfOk result (λ z. DeclaresAt (view_context context.now) (view_body body.old)
        (decls.Var (names_of names.now) (source.view_type of.now) None) (view_stmt z.value)
        (view_context context.now) (view_body body.new)) }
    ensures refused { IfErr result (λ f. FailsBy f.cause (FailsAt (view_context context.now) (view_body body.old)
        (decls.Var (names_of names.now) (source.view_type of.now) None))) }
{
    match type_of_values(alloc, context, body, of) {
        Ok(t) => begin_variables(alloc, body, names, &t, None, at),
        Err(fault) => Err(fault),
    }
}

// `names: of = value;`
fn declare_valued(
    alloc: Global,
    context: &Context,
    body: &mut Body,
    names: &[Name],
    of: &TypeTree,
    e: &Expr,
    at: Span,
) -> Result<Box<TStmt>, TypingFault>
    ensures declares { IfOk result (λ z. DeclaresAt (view_context context.now) (view_body body.old)
        (decls.Var (names_of names.now) (source.view_type of.now) (Some (source.view_expr e.now))) (view_stmt z.value)
        (view_context context.now) (view_body body.new)) }
    ensures refused { IfErr result (λ f. FailsBy f.cause (FailsAt (view_context context.now) (view_body body.old)
        (decls.Var (names_of names.now) (source.view_type of.now) (Some (source.view_expr e.now))))) }
{
    match type_of_values(alloc, context, body, of) {
        Err(fault) => Err(fault),
        Ok(t) => match value(alloc, context, body, e) {
            Err(fault) => Err(fault),
            Ok(x) => match value_as(alloc, x, &t, span_of(e)) {
                Ok(y) => begin_variables(alloc, body, names, &t, Some(y), at),
                Err(fault) => Err(fault),
            },
        },
    }
}

/// The statement that a declaration of variables is, `names: of;` or `names: of = value;`, where a body has come to.
///
/// # Errors
/// Those of the type, and of the value where it is written; 50 where that doesn't stand for the type; 41 where the innermost scope declares
/// one of the names, or one stands twice.
pub fn declare_variables(
    alloc: Global,
    context: &Context,
    body: &mut Body,
    names: &[Name],
    of: &TypeTree,
    value: &Option<Box<Expr>>,
    at: Span,
) -> Result<Box<TStmt>, TypingFault>
    ensures declares { IfOk result (λ z. DeclaresAt (view_context context.now) (view_body body.old)
        (decls.Var (names_of names.now) (source.view_type of.now) (source.view_boxed value.now)) (view_stmt z.value)
        (view_context context.now) (view_body body.new)) }
    ensures refused { IfErr result (λ f. FailsBy f.cause (FailsAt (view_context context.now) (view_body body.old)
        (decls.Var (names_of names.now) (source.view_type of.now) (source.view_boxed value.now)))) }
{
    match value {
        None => declare_plain(alloc, context, body, names, of, at),
        Some(e) => declare_valued(alloc, context, body, names, of, e, at),
    }
}

/// The statement that `names := value;` is where a body has come to.
///
/// # Errors
/// Those of the value, and 50 where a `nil` in it is open; 41 where the innermost scope declares one of the names, or one stands twice.
pub fn define_names(
    alloc: Global,
    context: &Context,
    body: &mut Body,
    names: &[Name],
    e: &Expr,
    at: Span,
) -> Result<Box<TStmt>, TypingFault>
    ensures declares { IfOk result (λ z. DeclaresAt (view_context context.now) (view_body body.old)
        (decls.Define (names_of names.now) (source.view_expr e.now)) (view_stmt z.value)
        (view_context context.now) (view_body body.new)) }
    ensures refused { IfErr result (λ f. FailsBy f.cause (FailsAt (view_context context.now) (view_body body.old)
        (decls.Define (names_of names.now) (source.view_expr e.now)))) }
{
    match value(alloc, context, body, e) {
        Err(fault) => Err(fault),
        Ok(x) => match settled(alloc, &x, span_of(e)) {
            Err(fault) => Err(fault),
            Ok(()) => {
                let t = copy(alloc, &x.ty)?;
                begin_variables(alloc, body, names, &t, Some(x), at)
            }
        },
    }
}
