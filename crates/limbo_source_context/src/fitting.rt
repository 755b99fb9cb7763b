//! Whether the variables of a module begin with values of their types.

ghost use Rattle.std.specs.Prelude.{◌≡◌, ◌<◌, ◌↔◌, ℕ, true, false, None, Some, IsTrue, length, map, option_copied, OnOk, IfErr};
ghost use Rattle.limbo_tree.specs.Exprs as tree;
ghost use Rattle.limbo_tree.specs.View.{view_expr};
ghost use Rattle.limbo_types.specs.View.{view_ty};
ghost use Rattle.limbo_constants.specs.declared.constant.Constant as source;
ghost use Rattle.limbo_typed.specs.Fitting.{HasNil};
ghost use Rattle.limbo_typed.specs.View.{view_var};
ghost use Rattle.limbo_entries.specs.View.{entries_of};
ghost use Rattle.limbo_outline.specs.Outline.{type_of_constant, GlobalsAre};
ghost use Rattle.limbo_source_context.specs.SourceContext.{Fails};
ghost use Rattle.limbo_source_context.specs.Beginning.{BeginsSo, AllBeginSo};
ghost use Rattle.limbo_source_context.specs.Parts as parts;

use crate::beginning::{global_at, initial_at};
use crate::fault::ContextFault;
use crate::known::Known;
use limbo_constant_values::{initial_in, is_nil};
use limbo_constants::Constant;
use limbo_entries::Table;
use limbo_forms::{is_reference, is_text};
use limbo_outline::type_of;
use limbo_tree::Expr;
use limbo_typed::TVar;
use limbo_types::{Ty, equal};

// Whether values of a type can be `nil`.
#[tactic(auto, using(crate::proofs::Suiting::reference_has_nil, crate::proofs::Suiting::text_has_nil, crate::proofs::Suiting::open_has_none, crate::proofs::Suiting::other_has_none))]
fn has_nil(ty: &Ty) -> bool
    ensures yes { result ≡ true → HasNil (view_ty ty.now) }
    ensures no { result ≡ false → HasNil (view_ty ty.now) → ⊥ }
{
    if is_reference(ty) {
        return true;
    }
    is_text(ty) && !limbo_forms::is_nil(ty)
}

// Whether a variable of a type may begin with a value that comes to this constant, or to none.
fn may_begin(value: &Expr, constant: Option<&Constant>, ty: &Ty) -> bool
    ensures some { (c : source.Constant) → option_copied constant.entry ≡ Some c
        → IsTrue result ↔ (type_of_constant c ≡ view_ty ty.now) }
    ensures none { option_copied constant.entry ≡ None
        → IsTrue result ↔ ((view_expr value.now ≡ tree.Nil) × HasNil (view_ty ty.now)) }
{
    match constant {
        Some(constant) => equal(&type_of(constant), ty),
        None => is_nil(value) && has_nil(ty),
    }
}

// Whether the declaration of a number begins a variable of its type, if it is one of the module.
fn check_beginning(
    table: &Table,
    implemented: u32,
    known: &Known,
    globals: &[TVar],
    number: u32,
) -> Result<(), ContextFault>
    requires there { number < length table.now.entries.items }
    requires known { parts.IsKnown table.now implemented known.now }
    requires globals { GlobalsAre (entries_of table.now.entries.items) implemented (map view_var globals.now) }
    ensures begins { OnOk result (BeginsSo (entries_of table.now.entries.items) implemented (map view_var globals.now) number) }
    ensures fails { IfErr result (λ e. Fails table.now.entries.items implemented e) }
{
    let Some(global) = global_at(&known.meant.meanings, number) else {
        return Ok(());
    };
    let Some(value) = initial_in(table.entries[number as usize].row.declared) else {
        return Ok(());
    };
    match globals.get(global as usize) {
        None => Err(ContextFault::NoMemory),
        Some(variable) => {
            if may_begin(value, initial_at(&known.initials, number), &variable.ty) {
                Ok(())
            } else {
                Err(ContextFault::BadInitial { number })
            }
        }
    }
}

/// Whether each variable of the module begins with a value of its type.
///
/// # Errors
/// `BadInitial` exactly where one doesn't: the first such. Want of memory.
pub(crate) fn check_beginnings(
    table: &Table,
    implemented: u32,
    known: &Known,
    globals: &[TVar],
) -> Result<(), ContextFault>
    requires known { parts.IsKnown table.now implemented known.now }
    requires globals { GlobalsAre (entries_of table.now.entries.items) implemented (map view_var globals.now) }
    ensures begin { OnOk result (AllBeginSo (entries_of table.now.entries.items) implemented (map view_var globals.now)) }
    ensures fails { IfErr result (λ e. Fails table.now.entries.items implemented e) }
{
    for number in 0..table.entries.len() as u32 {
        check_beginning(table, implemented, known, globals, number)?;
    }
    Ok(())
}
