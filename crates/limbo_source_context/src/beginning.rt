//! The constants with which the variables of a module begin.

ghost use Rattle.std.specs.Prelude.{◌≡◌, ◌<◌, ◌+◌, ℕ, length, IfOk, IfSome, IfNone, OnOk};
ghost use Rattle.limbo_constants.specs.declared.constant.Constant as constant;
ghost use Rattle.limbo_entries.specs.View.{entries_of};
ghost use Rattle.limbo_constant_values.specs.Answers.{IsKnown};
ghost use Rattle.limbo_imports.specs.Imports.{meaning_at};
ghost use Rattle.limbo_source_context.specs.Beginning.{AreBeginnings, AreBeginningsTo, global_in};
ghost use Rattle.limbo_source_context.specs.Parts as parts;

use crate::known::Known;
use limbo_constants::Constant;
use limbo_entries::Table;
use limbo_outline::value_of;
use limbo_scope::Meaning;
use limbo_typed::Initial;
use std::alloc::{AllocError, Global};

/// The number of a variable of the module, by its declaration's number.
pub(crate) fn global_at(meanings: &[Option<Meaning>], number: u32) -> Option<u32>
    ensures { result ≡ global_in (meaning_at meanings.now number) }
{
    match meanings.get(number as usize) {
        Some(Some(Meaning::Global(global))) => Some(*global),
        _ => None,
    }
}

/// The constant to which the initial value of a declaration comes, if it comes to one.
pub(crate) fn initial_at(initials: &[Option<Constant>], number: u32) -> Option<&Constant>
    ensures some { IfSome result (λ c. IsKnown initials.now number c.now) }
    ensures none { IfNone result ((c : constant.Constant) → IsKnown initials.now number c → ⊥) }
{
    if number as usize >= initials.len() {
        return None;
    }
    match &initials[number as usize] {
        Some(constant) => Some(constant),
        None => None,
    }
}

// Adds a declaration, if it is a variable of the module that begins with a constant.
fn push_beginning(
    table: &Table,
    implemented: u32,
    known: &Known,
    number: u32,
    beginnings: &mut Vec<Initial>,
) -> Result<(), AllocError>
    requires there { number < length table.now.entries.items }
    requires known { parts.IsKnown table.now implemented known.now }
    ensures { OnOk result (AreBeginningsTo (entries_of table.now.entries.items) implemented number beginnings.old.items
        → AreBeginningsTo (entries_of table.now.entries.items) implemented (number + 1) beginnings.new.items) }
{
    match global_at(&known.meant.meanings, number) {
        None => Ok(()),
        Some(global) => match initial_at(&known.initials, number) {
            None => Ok(()),
            Some(constant) => {
                let value = value_of(constant)?;
                beginnings.push(Initial { global, value })?;
                Ok(())
            }
        },
    }
}

/// The constants with which the variables of the module begin, by what is known of its table.
///
/// # Errors
/// Want of memory.
pub(crate) fn find_beginnings(
    alloc: Global,
    table: &Table,
    implemented: u32,
    known: &Known,
) -> Result<Vec<Initial>, AllocError>
    requires known { parts.IsKnown table.now implemented known.now }
    ensures { IfOk result (λ all. AreBeginnings (entries_of table.now.entries.items) implemented all.items) }
{
    let mut beginnings = Vec::new(alloc);
    for number in 0..table.entries.len() as u32 {
        push_beginning(table, implemented, known, number, &mut beginnings)?;
    }
    Ok(beginnings)
}
