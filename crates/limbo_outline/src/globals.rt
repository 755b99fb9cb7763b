//! The variables of the module.

ghost use Rattle.std.specs.Prelude.{◌≡◌, ◌<◌, ◌+◌, ℕ, true, length, map, IfOk, IfErr, OnOk};
ghost use Rattle.limbo_types.specs.View.{view_ty};
ghost use Rattle.limbo_typed.specs.View.{view_var};
ghost use Rattle.limbo_entries.specs.Entries as entries;
ghost use Rattle.limbo_entries.specs.Entries.{IsEntry};
ghost use Rattle.limbo_entries.specs.View.{entries_of};
ghost use Rattle.limbo_source_adts.specs.Definitions.{AreHeaded};
ghost use Rattle.limbo_meanings.specs.declared.kind.Kind.TheVariants as kind;
ghost use Rattle.limbo_meanings.specs.Kinds.{place, has_kind};
ghost use Rattle.limbo_outline.specs.Outline.{GlobalsTo, GlobalsAre, HasType, AreInitial, HasNoType};
ghost use Rattle.limbo_outline.specs.declared.fault.OutlineFault.TheVariants.{NoType};

use crate::constants::{known, type_of};
use crate::fault::OutlineFault;
use inf_text::Text;
use limbo_constants::Constant;
use limbo_entries::Table;
use limbo_headers::Heading;
use limbo_meanings::{Kind, is_of_kind};
use limbo_typed::TVar;
use limbo_types::{Ty, copy};
use std::alloc::{AllocError, Global};

// The type of the variable of a number.
fn variable_type(
    alloc: Global,
    table: &Table,
    implemented: u32,
    headings: &[Heading],
    initials: &[Option<Constant>],
    number: u32,
) -> Result<Box<Ty>, OutlineFault>
    requires there { number < length table.now.entries.items }
    requires many { length headings.now ≡ length table.now.entries.items }
    requires headed { AreHeaded (entries_of table.now.entries.items) implemented headings.now }
    requires initial { AreInitial (entries_of table.now.entries.items) implemented initials.now }
    requires global { (e : entries.Entry) → IsEntry (entries_of table.now.entries.items) number e
        → has_kind (entries_of table.now.entries.items) implemented (place kind.Global) e ≡ true }
    ensures typed { IfOk result (λ t. (e : entries.Entry) → IsEntry (entries_of table.now.entries.items) number e
        → HasType (entries_of table.now.entries.items) implemented e (view_ty t.value)) }
    ensures no_type { IfErr result (λ e. (n : ℕ) → e ≡ NoType n → HasNoType (entries_of table.now.entries.items) initials.now n) }
{
    match &headings[number as usize] {
        Heading::Variable(ty) => {
            let ty = copy(alloc, ty)?;
            Ok(Box::new(alloc, ty)?)
        }
        _ => match known(initials, number) {
            None => Err(OutlineFault::NoType { number }),
            Some(constant) => {
                let ty = type_of(constant);
                Ok(Box::new(alloc, ty)?)
            }
        },
    }
}

// A variable of a name and a type.
fn variable(name: &Text, ty: Box<Ty>) -> Result<TVar, AllocError>
    ensures name { IfOk result (λ v. v.name ≡ name.now) }
    ensures ty { IfOk result (λ v. view_ty v.ty ≡ view_ty ty.value) }
{
    Ok(TVar {
        name: name.clone()?,
        ty: Box::into_inner(ty),
    })
}

// Adds a declaration, if it is a variable of the module.
fn push_global(
    alloc: Global,
    table: &Table,
    implemented: u32,
    headings: &[Heading],
    initials: &[Option<Constant>],
    number: u32,
    globals: &mut Vec<TVar>,
) -> Result<(), OutlineFault>
    requires there { number < length table.now.entries.items }
    requires many { length headings.now ≡ length table.now.entries.items }
    requires headed { AreHeaded (entries_of table.now.entries.items) implemented headings.now }
    requires initial { AreInitial (entries_of table.now.entries.items) implemented initials.now }
    ensures globals { OnOk result (GlobalsTo (entries_of table.now.entries.items) implemented number (map view_var globals.old.items)
        → GlobalsTo (entries_of table.now.entries.items) implemented (number + 1) (map view_var globals.new.items)) }
    ensures no_type { IfErr result (λ e. (n : ℕ) → e ≡ NoType n → HasNoType (entries_of table.now.entries.items) initials.now n) }
{
    let entry = table.entries[number as usize];
    if !is_of_kind(table, implemented, Kind::Global, entry) {
        return Ok(());
    }
    match variable_type(alloc, table, implemented, headings, initials, number) {
        Ok(ty) => {
            let made = variable(&entry.row.name.text, ty)?;
            globals.push(made)?;
            Ok(())
        }
        Err(fault) => Err(fault),
    }
}

/// The variables of the module, in order: those of the top level and those that the implemented module declares. Of variables that are
/// declared by `:=` the values are given to which their initial values come.
///
/// # Errors
/// Want of memory. `NoType` only where no value is given of a variable that is declared by `:=`.
pub fn list_globals(
    alloc: Global,
    table: &Table,
    implemented: u32,
    headings: &[Heading],
    initials: &[Option<Constant>],
) -> Result<Vec<TVar>, OutlineFault>
    requires many { length headings.now ≡ length table.now.entries.items }
    requires headed { AreHeaded (entries_of table.now.entries.items) implemented headings.now }
    requires initial { AreInitial (entries_of table.now.entries.items) implemented initials.now }
    ensures globals { IfOk result (λ all. GlobalsAre (entries_of table.now.entries.items) implemented (map view_var all.items)) }
    ensures no_type { IfErr result (λ e. (n : ℕ) → e ≡ NoType n → HasNoType (entries_of table.now.entries.items) initials.now n) }
{
    let mut globals = Vec::new(alloc);
    for number in 0..table.entries.len() as u32 {
        match push_global(
            alloc,
            table,
            implemented,
            headings,
            initials,
            number,
            &mut globals,
        ) {
            Ok(()) => {}
            Err(fault) => return Err(fault),
        }
    }
    Ok(globals)
}
