//! The numbers of adts, modules and variants, in one walk over the declarations.

ghost use Rattle.std.specs.Prelude.{◌≡◌, ◌<◌, ℕ, Some, true, length, IfOk};
ghost use Rattle.limbo_entries.specs.Entries as entries;
ghost use Rattle.limbo_naming.specs.Naming.{is_variant};
ghost use Rattle.limbo_entries.specs.View.{entries_of, view_entry};
ghost use Rattle.limbo_type_names.specs.Numbers.{AreNumbers};
ghost use Rattle.limbo_type_names.specs.Counts.{HasRoom, CountsOn};

use limbo_declarations::Declared;
use limbo_entries::{Entry, Table};
use std::alloc::{AllocError, Global};

// How many adts and modules there were so far, and how many variants inside each declaration.
#[derive(Drop)]
struct Counts {
    adts: u32,
    modules: u32,
    variants: Vec<u32>,
}

// The number of a variant that stands inside a declaration.
fn next_variant(counts: &mut Counts, outer: Option<u32>) -> u32
    requires room { HasRoom counts.old }
    requires there { (a : ℕ) → outer ≡ Some a → a < length counts.old.variants.items }
    ensures many { length counts.new.variants.items ≡ length counts.old.variants.items }
    ensures counts { (e : entries.Entry) → is_variant e.row.means ≡ true → e.within ≡ outer → CountsOn e counts.old result counts.new }
{
    match outer {
        None => 0,
        Some(outer) => {
            let number = counts.variants[outer as usize];
            counts.variants[outer as usize] = number + 1;
            number
        }
    }
}

// The number of a declaration that stands behind those that were counted.
fn next(counts: &mut Counts, entry: Entry) -> u32
    requires room { HasRoom counts.old }
    requires there { (a : ℕ) → entry.within ≡ Some a → a < length counts.old.variants.items }
    ensures many { length counts.new.variants.items ≡ length counts.old.variants.items }
    ensures counts { CountsOn (view_entry entry.entry) counts.old result counts.new }
{
    match entry.row.declared {
        Declared::Adt { .. } => {
            let number = counts.adts;
            counts.adts = number + 1;
            number
        }
        Declared::Module(_members) => {
            let number = counts.modules;
            counts.modules = number + 1;
            number
        }
        Declared::Case(_fields) => next_variant(counts, entry.within),
        _ => 0,
    }
}

/// The numbers of the declarations of a table: of each adt, module and variant how many stand before it, of variants those of its adt.
///
/// # Errors
/// Want of memory.
pub(crate) fn number_all(alloc: Global, table: &Table) -> Result<Vec<u32>, AllocError>
    ensures { IfOk result (λ numbers. AreNumbers (entries_of table.now.entries.items) numbers.items) }
{
    let mut counts = Counts {
        adts: 0,
        modules: 0,
        variants: vec![in alloc; 0; table.entries.len()]?,
    };
    let mut numbers = Vec::with_capacity(alloc, table.entries.len())?;
    for entry in &table.entries {
        numbers.push(next(&mut counts, *entry))?;
    }
    Ok(numbers)
}
