//! Adts and modules begin.

ghost use Rattle.std.specs.Prelude.{◌≡◌, ◌++◌, ◌∷◌, [], ℕ, length, None, map, option_map, IfOk, IfErr, OnOk, IsSome};
ghost use Rattle.limbo_tree.specs.View as source;
ghost use Rattle.limbo_adts.specs.Table.{defs_of};
ghost use Rattle.limbo_scope.specs.Scopes.{declared_here, declared, entered};
ghost use Rattle.limbo_causes.specs.declared.fault.Cause.TheVariants.{NoMemory};
ghost use Rattle.limbo_causes.specs.Causes as causes;
ghost use Rattle.limbo_causes.specs.Causes.{FailsBy};
ghost use Rattle.limbo_context.specs.View.{view_context, view_body};
ghost use Rattle.limbo_locals.specs.limbo_local.Members as members;
ghost use Rattle.limbo_locals.specs.limbo_local.Members.{variants_in};
ghost use Rattle.limbo_locals.specs.Anywhere.{at};
ghost use Rattle.limbo_members.specs.Tables.{with_table};

use crate::copying::{copy_defs, copy_texts};
use crate::fields::bare_variants;
use crate::tables::set_table;
use limbo_causes::Cause;
use limbo_context::{Body, Context};
use limbo_layout::AdtDef;
use limbo_scope::{Meaning, ScopeFault, Scopes};
use limbo_tree::{Name, Variant};
use std::alloc::Global;

/// A name is declared, and the scope of its members entered.
///
/// # Errors
/// `Twice` only where the innermost scope declares the name already.
pub fn enter_named(body: &mut Body, name: &Name, means: Meaning) -> Result<(), Cause>
    ensures entered { OnOk result (body.new.scopes ≡ entered (declared name.now.text means body.old.scopes)) }
    ensures variables { OnOk result (body.new.variables ≡ body.old.variables) }
    ensures free { OnOk result (declared_here name.now.text body.old.scopes ≡ None) }
    ensures twice { IfErr result (λ f. FailsBy f
        (λ k. (k ≡ causes.Twice) × IsSome (declared_here name.now.text body.old.scopes))) }
{
    match body.scopes.declare(&name.text, means) {
        Err(ScopeFault::NoMemory) => Err(Cause::NoMemory),
        Err(ScopeFault::Twice) => Err(Cause::Twice),
        Ok(()) => {
            body.scopes.enter()?;
            Ok(())
        }
    }
}

// One more adt, of which the names of the variants are known. It takes at most the room of its tag.
fn push_adt(
    alloc: Global,
    context: &mut Context,
    name: &Name,
    pick: &Option<Vec<Variant>>,
) -> Result<(), Cause>
    ensures pushed { OnOk result (view_context context.new ≡ with_table
        (defs_of context.old.adts ++ (record {
          name = name.now.text;
          fields = [];
          picks = members.bare (variants_in (option_map (λ vs. map source.view_variant vs.items) pick.now));
        }) ∷ [])
        context.old.adts.modules (view_context context.old)) }
    ensures refused { IfErr result (λ f. f ≡ NoMemory) }
{
    let mut defs = copy_defs(alloc, context.adts.defs())?;
    let modules = copy_texts(alloc, context.adts.modules())?;
    let name = name.text.clone()?;
    let picks = bare_variants(alloc, pick)?;
    let fields = Vec::new(alloc);
    defs.push(AdtDef {
        name,
        fields,
        picks,
    })?;
    match set_table(alloc, context, defs, modules) {
        Ok(()) => Ok(()),
        Err(_) => Err(Cause::NoMemory),
    }
}

/// One more module type, of this name.
///
/// # Errors
/// Want of memory or of numbers.
pub fn name_module(alloc: Global, context: &mut Context, name: &Name) -> Result<(), Cause>
    ensures named { OnOk result (view_context context.new ≡ with_table (defs_of context.old.adts)
        (context.old.adts.modules ++ name.now.text ∷ []) (view_context context.old)) }
    ensures refused { IfErr result (λ f. f ≡ NoMemory) }
{
    let defs = copy_defs(alloc, context.adts.defs())?;
    let mut modules = copy_texts(alloc, context.adts.modules())?;
    modules.push(name.text.clone()?)?;
    match set_table(alloc, context, defs, modules) {
        Ok(()) => Ok(()),
        Err(_) => Err(Cause::NoMemory),
    }
}

/// An adt begins: its name is declared, and the scope of its members entered. Each adt has its row of members: that as many are there is
/// seen once more, and a want of memory told where not.
///
/// # Errors
/// `Twice` only where the innermost scope declares the name already.
pub(crate) fn open_adt(
    alloc: Global,
    context: &mut Context,
    body: &mut Body,
    name: &Name,
    pick: &Option<Vec<Variant>>,
) -> Result<u32, Cause>
    ensures opened { IfOk result (λ a. (n : ℕ) → at (view_context context.new) (view_body body.new) n ≡ members.open_adt name.now.text
        (variants_in (option_map (λ vs. map source.view_variant vs.items) pick.now))
        (at (view_context context.old) (view_body body.old) n)) }
    ensures number { IfOk result (λ a. a ≡ length (view_context context.old).adts) }
    ensures rows { OnOk result (length (view_context context.old).members ≡ length (view_context context.old).adts) }
    ensures free { OnOk result (declared_here name.now.text body.old.scopes ≡ None) }
    ensures twice { IfErr result (λ f. FailsBy f
        (λ k. (k ≡ causes.Twice) × IsSome (declared_here name.now.text body.old.scopes))) }
{
    let adts = context.adts.defs().len();
    if context.members.len() != adts {
        return Err(Cause::NoMemory);
    }
    let Ok(number) = u32::try_from(adts) else {
        return Err(Cause::NoMemory);
    };
    match enter_named(body, name, Meaning::Adt(number)) {
        Err(cause) => Err(cause),
        Ok(()) => {
            context.members.push(Scopes::new(alloc))?;
            match push_adt(alloc, context, name, pick) {
                Ok(()) => Ok(number),
                Err(cause) => Err(cause),
            }
        }
    }
}
