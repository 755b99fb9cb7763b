//! The table of adts of a context.

ghost use Rattle.std.specs.Prelude.{◌≡◌, ◌<◌, ℕ, length, IfErr, OnOk};
ghost use Rattle.limbo_types.specs.Types.{Adt};
ghost use Rattle.limbo_layout.specs.Layout.{Fits};
ghost use Rattle.limbo_layout.specs.View.{view_defs};
ghost use Rattle.limbo_layout.specs.declared.def.AdtsFault.TheVariants.{TooLarge};
ghost use Rattle.limbo_context.specs.View.{view_context};
ghost use Rattle.limbo_members.specs.Tables.{with_table};

use crate::naming::are_named;
use inf_text::Text;
use limbo_adts::Adts;
use limbo_context::Context;
use limbo_layout::{AdtDef, AdtsFault};
use std::alloc::Global;

/// Gives a context these adts, and module types of these names. That each number in them names something is seen once more, since the
/// table asks for it: types that mean something name what is there.
///
/// # Errors
/// Want of memory, or of numbers. `TooLarge` only where an adt holds itself as a value, through adts and tuples, or takes more than 65,536
/// bytes.
pub(crate) fn set_table(
    alloc: Global,
    context: &mut Context,
    defs: Vec<AdtDef>,
    modules: Vec<Text>,
) -> Result<(), AdtsFault>
    ensures table { OnOk result (view_context context.new
        ≡ with_table (view_defs defs.items) modules.items (view_context context.old)) }
    ensures fits { OnOk result ((n : ℕ) → n < length defs.items → Fits (view_defs defs.items) (Adt n)) }
    ensures there { IfErr result (λ e. (n : ℕ) → e ≡ TooLarge n → n < length defs.items) }
    ensures too_large { IfErr result (λ e. (n : ℕ) → e ≡ TooLarge n → Fits (view_defs defs.items) (Adt n) → ⊥) }
{
    if defs.len() >= 1 << 32 {
        return Err(AdtsFault::NoMemory);
    }
    if !are_named(&defs, modules.len()) {
        return Err(AdtsFault::NoMemory);
    }
    context.adts = Adts::new(alloc, defs, modules)?;
    Ok(())
}
