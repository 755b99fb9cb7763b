//! Which definition defines each function.

ghost use Rattle.std.specs.Prelude.{◌≡◌, ◌∷◌, ◌++◌, [], ◌<◌, ℕ, List, length, Option, None, Some, slice_get, IfOk, IfErr};
ghost use Rattle.limbo_top.specs.Tops.{Placed};
ghost use Rattle.limbo_top.specs.View.{placed, view_standing};
ghost use Rattle.limbo_entries.specs.Entries.{Entry, AreOnce};
ghost use Rattle.limbo_entries.specs.View.{entries_of};
ghost use Rattle.limbo_meanings.specs.Meanings.{AreMeanings};
ghost use Rattle.limbo_modules.specs.Definitions.{HasNone, AreDefinitions};
ghost use Rattle.limbo_modules.specs.declared.finding.Found as code_found;
ghost use Rattle.limbo_modules.specs.declared.finding.FindFault.TheVariants as fault;
ghost use Rattle.limbo_modules.specs.Found.{standing, IsNoted, AreFound, view_found};

use inf_text::Text;
use limbo_entries::Table;
use limbo_functions::limbo_bodies::function_of;
use limbo_includes::Standing;
use limbo_scope::Meaning;
use limbo_tree::{Function, Top};
use std::alloc::{AllocError, AllocFailed, Global};

/// A definition, and the path of the text in which it stands.
#[derive(Clone, Copy)]
pub(crate) struct Found<'a> {
    pub(crate) path: &'a Text,
    pub(crate) function: &'a Function,
}

/// Why not each function is defined.
#[derive(Clone, Copy)]
pub(crate) enum FindFault {
    /// Want of memory.
    NoMemory,
    /// No definition has the function of this number.
    Undefined { number: usize },
}

impl From<AllocError> for FindFault {
    ghost use Rattle.std.specs.Prelude.{◌≡◌};
    ghost use Rattle.limbo_modules.specs.declared.finding.FindFault.TheVariants.{NoMemory};

    ghost from_gives = { λ _ e. e ≡ NoMemory };

    fn from(_error: AllocError) -> FindFault {
        FindFault::NoMemory
    }
}

impl<T: Drop> From<AllocFailed<T>> for FindFault {
    ghost use Rattle.std.specs.Prelude.{◌≡◌};
    ghost use Rattle.limbo_modules.specs.declared.finding.FindFault.TheVariants.{NoMemory};

    ghost from_gives = { λ _ e. e ≡ NoMemory };

    fn from(_error: AllocFailed<T>) -> FindFault {
        FindFault::NoMemory
    }
}

// Nothing is found of so many functions.
fn none_found<'a>(alloc: Global, many: usize) -> Result<Vec<Option<Found<'a>>>, AllocError>
    ensures many { IfOk result (λ found. length found.items ≡ many) }
    ensures none { IfOk result (λ found. (es : List Entry) (m : ℕ) → AreFound es m [] found.items) }
{
    let mut found = Vec::with_capacity(alloc, many)?;
    for _ in 0..many {
        found.push(None)?;
    }
    Ok(found)
}

// Notes a definition of the function of a number, if none is found of it.
fn put<'a>(found: &mut [Option<Found<'a>>], number: u32, definition: Found<'a>)
    ensures many { length found.new ≡ length found.old }
    ensures kept { (n : ℕ) (o : Option code_found.Found) → slice_get found.new n ≡ Some o
        → IsNoted found.old number definition.entry n o }
    ensures put { slice_get found.new number ≡ Some None → ⊥ }
{
    let place = number as usize;
    if place < found.len() && found[place].is_none() {
        found[place] = Some(definition);
    }
}

// Notes a definition as it stands in a text.
fn note_definition<'a>(
    table: &Table,
    implemented: u32,
    meanings: &[Option<Meaning>],
    definition: Found<'a>,
    found: &mut [Option<Found<'a>>],
)
    requires once { AreOnce (entries_of table.now.entries.items) }
    requires meanings { AreMeanings (entries_of table.now.entries.items) implemented meanings.now }
    ensures many { length found.new ≡ length found.old }
    ensures found { (before : List Placed) → AreFound (entries_of table.now.entries.items) implemented before found.old
        → AreFound (entries_of table.now.entries.items) implemented
        (before ++ standing definition.entry.path.now definition.entry.function.now ∷ []) found.new }
{
    match function_of(table, implemented, meanings, definition.function) {
        Some((_declaration, number)) => put(found, number, definition),
        None => {}
    }
}

// Notes what stands at the top level.
fn note<'a>(
    table: &Table,
    implemented: u32,
    meanings: &[Option<Meaning>],
    standing: Standing<'a>,
    found: &mut [Option<Found<'a>>],
)
    requires once { AreOnce (entries_of table.now.entries.items) }
    requires meanings { AreMeanings (entries_of table.now.entries.items) implemented meanings.now }
    ensures many { length found.new ≡ length found.old }
    ensures found { (before : List Placed) → AreFound (entries_of table.now.entries.items) implemented before found.old
        → AreFound (entries_of table.now.entries.items) implemented (before ++ view_standing standing.entry ∷ []) found.new }
{
    match standing.top {
        Top::Define { function } => {
            let definition = Found {
                path: standing.path,
                function,
            };
            note_definition(table, implemented, meanings, definition, found);
        }
        _ => {}
    }
}

// Of each function the first definition that stands at the top level, if there is one.
fn find_all<'a>(
    alloc: Global,
    table: &Table,
    implemented: u32,
    meanings: &[Option<Meaning>],
    tops: &[Standing<'a>],
    many: usize,
) -> Result<Vec<Option<Found<'a>>>, AllocError>
    requires once { AreOnce (entries_of table.now.entries.items) }
    requires meanings { AreMeanings (entries_of table.now.entries.items) implemented meanings.now }
    ensures many { IfOk result (λ found. length found.items ≡ many) }
    ensures found { IfOk result (λ found. AreFound (entries_of table.now.entries.items) implemented (placed tops.now) found.items) }
{
    let mut found = none_found(alloc, many)?;
    for standing in tops {
        note(table, implemented, meanings, *standing, &mut found);
    }
    Ok(found)
}

/// The definitions of so many functions, in the order of their numbers.
///
/// # Errors
/// Want of memory. `Undefined` exactly where none defines a function: the first such.
pub(crate) fn find_definitions<'a>(
    alloc: Global,
    table: &Table,
    implemented: u32,
    meanings: &[Option<Meaning>],
    tops: &[Standing<'a>],
    many: usize,
) -> Result<Vec<Found<'a>>, FindFault>
    requires once { AreOnce (entries_of table.now.entries.items) }
    requires meanings { AreMeanings (entries_of table.now.entries.items) implemented meanings.now }
    ensures definitions { IfOk result (λ ds. AreDefinitions (entries_of table.now.entries.items) implemented (placed tops.now) many
        (view_found ds.items)) }
    ensures undefined { IfErr result (λ e. (n : ℕ) → e ≡ fault.Undefined n
        → (n < many) × HasNone (entries_of table.now.entries.items) implemented (placed tops.now) n) }
{
    let found = find_all(alloc, table, implemented, meanings, tops, many)?;
    let mut definitions = Vec::with_capacity(alloc, many)?;
    for (number, definition) in found.iter().enumerate() {
        match definition {
            Some(definition) => definitions.push(*definition)?,
            None => return Err(FindFault::Undefined { number }),
        }
    }
    Ok(definitions)
}
