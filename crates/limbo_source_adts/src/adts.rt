//! The adts of a source, with what is read of them.

ghost use Rattle.std.specs.Prelude.{◌≡◌, ◌<◌, ◌++◌, ◌∷◌, [], ℕ, List, length, IfOk, IfErr, OnOk};
ghost use Rattle.limbo_types.specs.Types.{Adt};
ghost use Rattle.limbo_declarations.specs.Rows as rows;
ghost use Rattle.limbo_entries.specs.Entries.{IsTable};
ghost use Rattle.limbo_entries.specs.View.{entries_of, view_entry};
ghost use Rattle.limbo_layout.specs.Adts as adts;
ghost use Rattle.limbo_layout.specs.Layout.{Fits};
ghost use Rattle.limbo_layout.specs.declared.def.AdtsFault.TheVariants.{TooLarge};
ghost use Rattle.limbo_adts.specs.Table.{defs_of};
ghost use Rattle.limbo_source_adts.specs.Definitions.{AdtsAre, AreHeaded};
ghost use Rattle.limbo_source_adts.specs.Modules.{modules_of};

use crate::definitions::define_adts;
use inf_text::Text;
use limbo_adts::Adts;
use limbo_declarations::Declared;
use limbo_entries::{Entry, Table};
use limbo_headers::Heading;
use limbo_layout::AdtsFault;
use std::alloc::{AllocError, Global};

// Adds the name of a declaration, if it is a module.
fn push_module(names: &mut Vec<Text>, entry: Entry) -> Result<(), AllocError>
    ensures { OnOk result (names.new.items ≡ names.old.items ++ modules_of (view_entry entry.entry ∷ [])) }
{
    match entry.row.declared {
        Declared::Module(_members) => {
            names.push(entry.row.name.text.clone()?)?;
            Ok(())
        }
        _ => Ok(()),
    }
}

// The names of the modules of a table, in order.
fn module_names(alloc: Global, table: &Table) -> Result<Vec<Text>, AllocError>
    ensures { IfOk result (λ names. names.items ≡ modules_of (entries_of table.now.entries.items)) }
{
    let mut names = Vec::new(alloc);
    for entry in &table.entries {
        push_module(&mut names, *entry)?;
    }
    Ok(names)
}

/// The adts that a table declares, with their layouts and what they reach, by what is told of its declarations; and the names of its
/// modules.
///
/// # Errors
/// Want of memory. `TooLarge` exactly where an adt holds itself as a value, through adts and tuples, or takes more than 65,536 bytes.
pub fn source_adts(alloc: Global, table: &Table, headings: &[Heading]) -> Result<Adts, AdtsFault>
    requires many { length headings.now ≡ length table.now.entries.items }
    requires table { (top : List rows.Row) × IsTable top (entries_of table.now.entries.items) }
    requires headed { (m : ℕ) × AreHeaded (entries_of table.now.entries.items) m headings.now }
    ensures adts { IfOk result (λ a. (m : ℕ) → AreHeaded (entries_of table.now.entries.items) m headings.now
        → AdtsAre (entries_of table.now.entries.items) m 0 (entries_of table.now.entries.items) (defs_of a)) }
    ensures modules { IfOk result (λ a. a.modules ≡ modules_of (entries_of table.now.entries.items)) }
    ensures fits { IfOk result (λ a. (n : ℕ) → n < length a.adts → Fits (defs_of a) (Adt n)) }
    ensures too_large { IfErr result (λ e. (n m : ℕ) → e ≡ TooLarge n → AreHeaded (entries_of table.now.entries.items) m headings.now
        → (defs : List adts.Def) × AdtsAre (entries_of table.now.entries.items) m 0 (entries_of table.now.entries.items) defs
        × (Fits defs (Adt n) → ⊥)) }
{
    let defs = define_adts(alloc, table, headings)?;
    let modules = module_names(alloc, table)?;
    Adts::new(alloc, defs, modules)
}
