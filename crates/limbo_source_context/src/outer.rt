//! The adts, the variables and the imports of a source: what can be refused.

ghost use Rattle.std.specs.Prelude.{◌≡◌, ℕ, List, length, map, count_by, IfOk, IfErr};
ghost use Rattle.limbo_typed.specs.View.{view_var};
ghost use Rattle.limbo_adts.specs.Table.{defs_of};
ghost use Rattle.limbo_declarations.specs.Rows as rows;
ghost use Rattle.limbo_declarations.specs.View.{view_declared};
ghost use Rattle.limbo_entries.specs.Entries.{IsTable, AreOnce};
ghost use Rattle.limbo_entries.specs.View.{entries_of};
ghost use Rattle.limbo_naming.specs.Naming as naming;
ghost use Rattle.limbo_naming.specs.Told.{IsNaming};
ghost use Rattle.limbo_type_names.specs.Counts.{is_adt_entry};
ghost use Rattle.limbo_source_adts.specs.Definitions.{AdtsAre, AreHeaded};
ghost use Rattle.limbo_source_adts.specs.Modules.{modules_of};
ghost use Rattle.limbo_outline.specs.Outline.{GlobalsAre};
ghost use Rattle.limbo_imports.specs.Imports.{ImportsAre};
ghost use Rattle.limbo_source_context.specs.SourceContext.{AllFit, Fails};
ghost use Rattle.limbo_source_context.specs.Parts.{IsMeant, IsKnown, IsOuter};

use crate::fault::ContextFault;
use crate::known::{Known, Meant};
use limbo_adts::Adts;
use limbo_context::Imported;
use limbo_declarations::Declared;
use limbo_entries::Table;
use limbo_headers::Heading;
use limbo_imports::{ImportFault, list_imports};
use limbo_layout::AdtsFault;
use limbo_naming::Naming;
use limbo_outline::{OutlineFault, list_globals};
use limbo_source_adts::source_adts;
use limbo_typed::TVar;
use std::alloc::Global;

/// The adts, the variables of the module, and the names that are imported.
#[derive(Drop)]
pub(crate) struct Outer {
    pub(crate) adts: Adts,
    pub(crate) globals: Vec<TVar>,
    pub(crate) imports: Vec<Imported>,
}

// Whether it is an adt.
fn is_adt(declared: Declared) -> bool
    ensures { result ≡ naming.is_adt (view_declared declared.entry) }
{
    match declared {
        Declared::Adt { .. } => true,
        _ => false,
    }
}

// How many adts a table declares.
fn count_adts(table: &Table) -> usize
    ensures { result ≡ count_by is_adt_entry (entries_of table.now.entries.items) }
{
    let mut count = 0;
    for entry in &table.entries {
        if is_adt(entry.row.declared) {
            count += 1;
        }
    }
    count
}

// The adts of a table.
fn find_adts(
    alloc: Global,
    table: &Table,
    implemented: u32,
    headings: &[Heading],
) -> Result<Adts, ContextFault>
    requires many { length headings.now ≡ length table.now.entries.items }
    requires table { (top : List rows.Row) × IsTable top (entries_of table.now.entries.items) }
    requires headed { AreHeaded (entries_of table.now.entries.items) implemented headings.now }
    ensures adts { IfOk result (λ a. AdtsAre (entries_of table.now.entries.items) implemented 0 (entries_of table.now.entries.items)
        (defs_of a)) }
    ensures modules { IfOk result (λ a. a.modules ≡ modules_of (entries_of table.now.entries.items)) }
    ensures laid { IfOk result (λ a. AllFit (defs_of a)) }
    ensures fails { IfErr result (λ e. Fails table.now.entries.items implemented e) }
{
    match source_adts(alloc, table, headings) {
        Ok(adts) => Ok(adts),
        Err(AdtsFault::NoMemory) => Err(ContextFault::NoMemory),
        Err(AdtsFault::TooLarge { adt }) => {
            // No other number is told.
            if adt as usize >= count_adts(table) {
                return Err(ContextFault::NoMemory);
            }
            Err(ContextFault::TooLarge { adt })
        }
    }
}

// The variables of the module.
fn find_globals(
    alloc: Global,
    table: &Table,
    implemented: u32,
    known: &Known,
) -> Result<Vec<TVar>, ContextFault>
    requires table { (top : List rows.Row) × IsTable top (entries_of table.now.entries.items) }
    requires known { IsKnown table.now implemented known.now }
    ensures globals { IfOk result (λ all. GlobalsAre (entries_of table.now.entries.items) implemented (map view_var all.items)) }
    ensures fails { IfErr result (λ e. Fails table.now.entries.items implemented e) }
{
    match list_globals(alloc, table, implemented, &known.headings, &known.initials) {
        Ok(globals) => Ok(globals),
        Err(OutlineFault::NoMemory) => Err(ContextFault::NoMemory),
        Err(OutlineFault::NoType { number }) => Err(ContextFault::NoType { number }),
    }
}

// The names that are imported.
fn find_imports(
    alloc: Global,
    table: &Table,
    naming: &Naming,
    implemented: u32,
    meant: &Meant,
) -> Result<Vec<Imported>, ContextFault>
    requires naming { IsNaming table.now implemented naming.now }
    requires once { AreOnce (entries_of table.now.entries.items) }
    requires meant { IsMeant table.now implemented meant.now }
    ensures imports { IfOk result (λ all. ImportsAre (entries_of table.now.entries.items) implemented meant.now.meanings.items
        meant.now.others.items all.items) }
    ensures fails { IfErr result (λ e. Fails table.now.entries.items implemented e) }
{
    match list_imports(alloc, naming, implemented, &meant.meanings, &meant.others) {
        Ok(imports) => Ok(imports),
        Err(ImportFault::NoMemory) => Err(ContextFault::NoMemory),
        Err(ImportFault::NotThere { number }) => Err(ContextFault::NotThere { number }),
    }
}

/// The adts, the variables and the imports of a table, by what is known of it.
///
/// # Errors
/// Want of memory. `TooLarge`, `NoType` and `NotThere` exactly where an adt has no layout, a variable no type, and an import no module.
pub(crate) fn find_outer(
    alloc: Global,
    table: &Table,
    naming: &Naming,
    implemented: u32,
    known: &Known,
) -> Result<Outer, ContextFault>
    requires naming { IsNaming table.now implemented naming.now }
    requires once { AreOnce (entries_of table.now.entries.items) }
    requires table { (top : List rows.Row) × IsTable top (entries_of table.now.entries.items) }
    requires known { IsKnown table.now implemented known.now }
    ensures outer { IfOk result (λ o. IsOuter (entries_of table.now.entries.items) implemented known.now.meant o) }
    ensures fails { IfErr result (λ e. Fails table.now.entries.items implemented e) }
{
    let adts = find_adts(alloc, table, implemented, &known.headings)?;
    let globals = find_globals(alloc, table, implemented, known)?;
    let imports = find_imports(alloc, table, naming, implemented, &known.meant)?;
    Ok(Outer {
        adts,
        globals,
        imports,
    })
}
