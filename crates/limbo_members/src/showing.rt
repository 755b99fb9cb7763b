//! Rows that show the names of members.

ghost use Rattle.std.specs.Prelude.{◌≡◌, ◌<◌, ◌∷◌, [], length, IfErr, OnOk, IfOk};
ghost use Rattle.limbo_tree.specs.View.{names_of};
ghost use Rattle.limbo_scope.specs.declared.meaning.Meaning.TheVariants as meaning;
ghost use Rattle.limbo_scope.specs.Laws.{declared_all};
ghost use Rattle.limbo_causes.specs.declared.fault.Cause.TheVariants.{NoMemory};
ghost use Rattle.limbo_locals.specs.limbo_local.Points.{meaning_from};
ghost use Rattle.limbo_locals.specs.limbo_local.Members.{changed};
ghost use Rattle.limbo_locals.specs.Named.{means};

use limbo_causes::{Cause, TypingFault};
use limbo_locals::{Lead, declare_names};
use limbo_scope::{Meaning, Scopes};
use limbo_tree::Name;

/// A cause that isn't told.
pub fn untold(_cause: Cause) -> TypingFault
    ensures { result.cause ≡ NoMemory }
{
    TypingFault::no_memory()
}

/// Shows names in a row. A row shows each name once, as its scope does, so that nothing but memory is wanting.
///
/// # Errors
/// Want of memory or of numbers.
pub fn show_names(
    rows: &mut Vec<Scopes>,
    row: u32,
    names: &[Name],
    lead: Lead,
    first: usize,
) -> Result<(), TypingFault>
    requires there { row < length rows.old.items }
    ensures shown { OnOk result (rows.new.items
        ≡ changed row (declared_all (meaning_from (means lead) first (names_of names.now))) rows.old.items) }
    ensures refused { IfErr result (λ f. f.cause ≡ NoMemory) }
{
    match declare_names(&mut rows[row as usize], names, lead, first) {
        Ok(()) => Ok(()),
        Err(cause) => Err(untold(cause)),
    }
}

/// Shows the name of an adt in a row, as above.
///
/// # Errors
/// Want of memory.
pub fn show_adt(
    rows: &mut Vec<Scopes>,
    row: u32,
    name: &Name,
    number: u32,
) -> Result<(), TypingFault>
    requires there { row < length rows.old.items }
    ensures shown { OnOk result (rows.new.items
        ≡ changed row (declared_all ((name.now.text, meaning.Adt number) ∷ [])) rows.old.items) }
    ensures refused { IfErr result (λ f. f.cause ≡ NoMemory) }
{
    match rows[row as usize].declare(&name.text, Meaning::Adt(number)) {
        Ok(()) => Ok(()),
        Err(_) => Err(TypingFault::no_memory()),
    }
}
