//! The function that a definition is of.

ghost use Rattle.std.specs.Prelude.{◌≡◌, ◌<◌, ℕ, true, Some, length, IfSome, IfNone};
ghost use Rattle.limbo_tree.specs.View.{name_of};
ghost use Rattle.limbo_entries.specs.Entries as entries;
ghost use Rattle.limbo_entries.specs.Entries.{IsEntry, IsMember, AreOnce};
ghost use Rattle.limbo_entries.specs.View.{entries_of};
ghost use Rattle.limbo_naming.specs.Naming.{is_adt};
ghost use Rattle.limbo_meanings.specs.Meanings.{AreMeanings, meaning_of};
ghost use Rattle.limbo_scope.specs.declared.meaning.Meaning.TheVariants as meaning;
ghost use Rattle.limbo_bodies.specs.Definitions as definitions;
ghost use Rattle.limbo_bodies.specs.Definitions.{IsOf, IsUndeclared};

use inf_text::Text;
use limbo_declarations::Declared;
use limbo_entries::Table;
use limbo_scope::Meaning;
use limbo_tree::Function;

// The member of this name of the declaration of a number, where that is an adt.
fn member_of_adt(table: &Table, outer: u32, name: &Text) -> Option<u32>
    requires there { outer < length table.now.entries.items }
    ensures some { IfSome result (λ k. (e : entries.Entry) × IsEntry (entries_of table.now.entries.items) outer e
        × (is_adt e.row.means ≡ true) × IsMember (entries_of table.now.entries.items) (Some outer) name.now k) }
    ensures none { IfNone result ((k : ℕ) (e : entries.Entry) → IsEntry (entries_of table.now.entries.items) outer e
        → is_adt e.row.means ≡ true → IsMember (entries_of table.now.entries.items) (Some outer) name.now k → ⊥) }
{
    match table.entries[outer as usize].row.declared {
        Declared::Adt { .. } => table.member(Some(outer), name),
        _ => None,
    }
}

// The declaration that a definition is of.
fn declaration(table: &Table, implemented: u32, function: &Function) -> Option<u32>
    requires once { AreOnce (entries_of table.now.entries.items) }
    ensures some { IfSome result (λ k. IsOf (entries_of table.now.entries.items) implemented function.now.name.text
        (name_of function.now.part) k) }
    ensures none { IfNone result ((k : ℕ) → IsOf (entries_of table.now.entries.items) implemented function.now.name.text
        (name_of function.now.part) k → ⊥) }
{
    match table.find(implemented, None, &function.name.text) {
        None => None,
        Some(found) => match &function.part {
            None => Some(found),
            Some(part) => member_of_adt(table, found, &part.text),
        },
    }
}

// The function that the declaration of a number is, by what the names of all declarations mean.
fn function_at(meanings: &[Option<Meaning>], number: u32) -> Option<u32>
    ensures { result ≡ definitions.function_at meanings.now number }
{
    match meanings.get(number as usize) {
        Some(Some(Meaning::Function(function))) => Some(*function),
        _ => None,
    }
}

/// The declaration of the function that a definition is of, by its number, and the number of the function. `None` exactly where no function
/// of the module is declared under the definition's name.
pub fn function_of(
    table: &Table,
    implemented: u32,
    meanings: &[Option<Meaning>],
    function: &Function,
) -> Option<(u32, u32)>
    requires once { AreOnce (entries_of table.now.entries.items) }
    requires meanings { AreMeanings (entries_of table.now.entries.items) implemented meanings.now }
    ensures some { IfSome result (λ found. (e : entries.Entry)
        × IsOf (entries_of table.now.entries.items) implemented function.now.name.text (name_of function.now.part) found.0
        × IsEntry (entries_of table.now.entries.items) found.0 e
        × (meaning_of (entries_of table.now.entries.items) implemented found.0 e ≡ Some (meaning.Function found.1))) }
    ensures none { IfNone result (IsUndeclared (entries_of table.now.entries.items) implemented function.now.name.text
        (name_of function.now.part)) }
{
    match declaration(table, implemented, function) {
        None => None,
        Some(number) => match function_at(meanings, number) {
            None => None,
            Some(place) => Some((number, place)),
        },
    }
}
