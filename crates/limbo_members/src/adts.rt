//! Adts that bodies declare.

ghost use Rattle.std.specs.Prelude.{◌≡◌, ◌∷◌, [], ℕ, length, map, option_map, IfOk, IfErr, OnOk};
ghost use Rattle.limbo_tree.specs.Decls as decls;
ghost use Rattle.limbo_tree.specs.View as source;
ghost use Rattle.limbo_typed.specs.View.{view_stmt};
ghost use Rattle.limbo_declarations.specs.Scopes.{AdtIsOnce};
ghost use Rattle.limbo_scope.specs.declared.meaning.Meaning.TheVariants as meaning;
ghost use Rattle.limbo_scope.specs.Scopes.{declared};
ghost use Rattle.limbo_causes.specs.Causes as causes;
ghost use Rattle.limbo_causes.specs.Causes.{FailsBy};
ghost use Rattle.limbo_context.specs.View.{view_context, view_body};
ghost use Rattle.limbo_locals.specs.limbo_local.Points.{AreNew};
ghost use Rattle.limbo_locals.specs.limbo_local.Members.{IsAdt};
ghost use Rattle.limbo_locals.specs.limbo_local.Failing.{FailsAdt};
ghost use Rattle.limbo_locals.specs.Anywhere.{at, DeclaresAt, FailsAt};

use crate::adding::add_adt;
use crate::closing::close_adts;
use inf_text::Span;
use limbo_causes::{Cause, TypingFault};
use limbo_context::{Body, Context};
use limbo_locals::nothing_runs;
use limbo_tree::{Member, Name, Variant};
use limbo_typed::TStmt;
use std::alloc::Global;

/// An adt that stands in no other, where its name is seen to be new. It is declared, and leaves the modules as they are.
///
/// # Errors
/// Those of its members and of the fields of its variants; 51, 53 and 55 where it, or an adt that stands in it, may not stand.
pub fn whole_adt(
    alloc: Global,
    context: &mut Context,
    body: &mut Body,
    in_module: bool,
    name: &Name,
    members: &[Member],
    pick: &Option<Vec<Variant>>,
) -> Result<(), TypingFault>
    ensures is { OnOk result ((n : ℕ) → IsAdt in_module name.now.text (source.view_members members.now)
        (option_map (λ vs. map source.view_variant vs.items) pick.now) (at (view_context context.old) (view_body body.old) n)
        (at (view_context context.new) (view_body body.new) n)) }
    ensures scopes { OnOk result (body.new.scopes
        ≡ declared name.now.text (meaning.Adt (length (view_context context.old).adts)) body.old.scopes) }
    ensures exports { OnOk result ((view_context context.new).exports ≡ (view_context context.old).exports) }
    ensures interfaces { OnOk result ((view_context context.new).interfaces ≡ (view_context context.old).interfaces) }
    ensures refused { IfErr result (λ f. FailsBy f.cause (λ k. (n : ℕ) → FailsAdt in_module name.now.text
        (source.view_members members.now) (option_map (λ vs. map source.view_variant vs.items) pick.now)
        (at (view_context context.old) (view_body body.old) n) k)) }
{
    let first = context.adts.defs().len();
    match add_adt(alloc, context, body, in_module, name, members, pick) {
        Err(fault) => Err(fault),
        Ok(given) => close_adts(alloc, context, first, given, name.span),
    }
}

/// That the innermost scope doesn't declare a name.
///
/// # Errors
/// 41 where it does.
pub fn is_new(body: &Body, name: &Name, at: Span) -> Result<(), TypingFault>
    ensures new { OnOk result (AreNew (name.now.text ∷ []) (view_body body.now)) }
    ensures refused { IfErr result (λ f. FailsBy f.cause
        (λ k. (k ≡ causes.Twice) × (AreNew (name.now.text ∷ []) (view_body body.now) → ⊥))) }
{
    match body.scopes.declared_here(&name.text) {
        None => Ok(()),
        Some(_) => Err(TypingFault {
            cause: Cause::Twice,
            at,
        }),
    }
}

/// The statement that an adt's declaration is where a body has come to: it does nothing when it runs.
///
/// # Errors
/// Those of its members and of the fields of its variants; 41 where the innermost scope declares its name; 51, 53 and 55 where it, or an
/// adt that stands in it, may not stand.
pub fn declare_adt(
    alloc: Global,
    context: &mut Context,
    body: &mut Body,
    name: &Name,
    members: &[Member],
    pick: &Option<Vec<Variant>>,
) -> Result<Box<TStmt>, TypingFault>
    // Each scope inside it declares each name once.
    requires once { AdtIsOnce (source.view_members members.now) (option_map (λ vs. map source.view_variant vs.items) pick.now) }
    ensures declares { IfOk result (λ z. DeclaresAt (view_context context.old) (view_body body.old)
        (decls.Adt name.now.text (source.view_members members.now) (option_map (λ vs. map source.view_variant vs.items) pick.now))
        (view_stmt z.value) (view_context context.new) (view_body body.new)) }
    ensures refused { IfErr result (λ f. FailsBy f.cause (FailsAt (view_context context.old) (view_body body.old)
        (decls.Adt name.now.text (source.view_members members.now) (option_map (λ vs. map source.view_variant vs.items) pick.now)))) }
{
    match is_new(body, name, name.span) {
        Err(fault) => Err(fault),
        Ok(()) => match whole_adt(alloc, context, body, false, name, members, pick) {
            Err(fault) => Err(fault),
            Ok(()) => nothing_runs(alloc),
        },
    }
}
