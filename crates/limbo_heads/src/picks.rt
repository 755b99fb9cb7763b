//! The heads of arms of a `pick`.

ghost use Rattle.std.specs.Prelude.{◌≡◌, IfOk, IfErr};
ghost use Rattle.limbo_types.specs.View.{view_ty};
ghost use Rattle.limbo_tree.specs.View.{names_of};
ghost use Rattle.limbo_typed.specs.Sound as sound;
ghost use Rattle.limbo_context.specs.View.{view_context, view_body};
ghost use Rattle.limbo_stmt_values.specs.limbo_stating.Reasons.{BadPick};
ghost use Rattle.limbo_stmt_values.specs.limbo_stating.Picks.{IsPickHead, AreVariants, HasNoVariant};
ghost use Rattle.limbo_stmt_values.specs.Leading.{From, Leads};
ghost use Rattle.limbo_stmt_values.specs.Whys.{FailsFor};
ghost use Rattle.limbo_heads.specs.Entering.{DeclaresNothing};
ghost use Rattle.limbo_heads.specs.Starts.{view_pick_start};

use crate::entering::declare_first;
use inf_text::Text;
use limbo_causes::TypingFault;
use limbo_context::{Body, Context};
use limbo_stmt_values::{StmtFault, Why, part_fault};
use limbo_tree::Name;
use limbo_types::Ty;
use std::alloc::Global;

/// The head of an arm of a `pick`: the variants that it takes, none for `*`, and its variable.
#[derive(Drop)]
pub struct PickStart {
    pub variants: Vec<u32>,
    pub variable: u32,
}

// Want of memory.
fn no_memory() -> StmtFault
    ensures { FailsFor result.why (λ k. ⊥) }
{
    part_fault(TypingFault::no_memory())
}

// The variants of these names.
fn variants_named(
    alloc: Global,
    context: &Context,
    adt: u32,
    names: &[Name],
) -> Result<Vec<u32>, StmtFault>
    ensures named { IfOk result (λ vs. AreVariants (view_context context.now) adt (names_of names.now) vs.items) }
    ensures refused { IfErr result (λ f. FailsFor f.why
        (λ k. HasNoVariant (view_context context.now) adt (names_of names.now) × (k ≡ BadPick))) }
{
    let mut variants = Vec::new(alloc);
    for name in names {
        match context.variant(adt, &name.text) {
            Ok(Some(variant)) => match variants.push(variant) {
                Ok(()) => {}
                Err(_) => return Err(no_memory()),
            },
            Ok(None) => {
                return Err(StmtFault {
                    why: Why::BadPick,
                    at: name.span,
                });
            }
            Err(_) => return Err(no_memory()),
        }
    }
    Ok(variants)
}

// The type of an arm's variable.
#[tactic(auto, using(limbo_types::proofs::View::the_types))]
fn picked(adt: u32, variants: &[u32]) -> Ty
    ensures { view_ty result ≡ sound.picked adt variants.now }
{
    match variants {
        [variant] => Ty::RefPick {
            adt,
            variant: *variant,
        },
        _ => Ty::RefAdt(adt),
    }
}

/// The head of an arm of a `pick` of an adt, whose scope has just been entered.
///
/// # Errors
/// 62 where a name is that of no variant of the adt.
pub fn pick_head(
    alloc: Global,
    context: &Context,
    body: &mut Body,
    name: &Text,
    adt: u32,
    names: &[Name],
) -> Result<PickStart, StmtFault>
    requires entered { DeclaresNothing (view_body body.old).scopes }
    ensures head { IfOk result (λ h. Leads (λ p q. IsPickHead name.now adt p (names_of names.now) (view_pick_start h) q)
        (view_context context.now) (view_body body.old) (view_body body.new)) }
    ensures refused { IfErr result (λ f. FailsFor f.why
        (λ k. From (λ p. HasNoVariant p.context adt (names_of names.now) × (k ≡ BadPick))
        (view_context context.now) (view_body body.old))) }
{
    match variants_named(alloc, context, adt, names) {
        Err(fault) => Err(fault),
        Ok(variants) => match declare_first(body, name, picked(adt, &variants)) {
            Ok(variable) => Ok(PickStart { variants, variable }),
            Err(_) => Err(no_memory()),
        },
    }
}
