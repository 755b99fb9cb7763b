//! What is known around the functions of a source.

ghost use Rattle.std.specs.Prelude.{ℕ, List, length, IfOk, IfErr};
ghost use Rattle.limbo_declarations.specs.Rows as rows;
ghost use Rattle.limbo_top.specs.Tops.{Placed};
ghost use Rattle.limbo_entries.specs.Entries.{IsTable, AreOnce};
ghost use Rattle.limbo_entries.specs.View.{entries_of};
ghost use Rattle.limbo_naming.specs.Told.{IsNaming};
ghost use Rattle.limbo_type_names.specs.Told.{AreTypesOf};
ghost use Rattle.limbo_constant_values.specs.Valuing.{AreValues};
ghost use Rattle.limbo_modules.specs.Faults.{FailsWith};
ghost use Rattle.limbo_modules.specs.Failing.{FailsModule};
ghost use Rattle.limbo_modules.specs.Known.{IsKnown};

use crate::fault::ModuleFault;
use crate::refusing::{of_context, of_permitted, of_types};
use inf_text::Text;
use limbo_declare::Declarations;
use limbo_declared_types::permit_all;
use limbo_naming::Naming;
use limbo_source_context::{SourceContext, source_context};
use limbo_type_names::TypeNames;
use std::alloc::Global;

// The same, by what names name and what types they mean.
fn find_context(
    alloc: Global,
    name: &Text,
    declarations: &Declarations<'_>,
    naming: &Naming<'_, '_>,
    names: &TypeNames<'_, '_, '_>,
) -> Result<SourceContext, ModuleFault>
    requires naming { IsNaming declarations.now.table declarations.now.implemented naming.now }
    requires types { AreTypesOf naming.now names.now }
    requires once { AreOnce (entries_of declarations.now.table.entries.items) }
    requires table { (top : List rows.Row) × IsTable top (entries_of declarations.now.table.entries.items) }
    requires values { AreValues (entries_of declarations.now.table.entries.items) declarations.now.implemented
        declarations.now.values.items }
    ensures known { IfOk result (IsKnown (entries_of declarations.now.table.entries.items) declarations.now.implemented name.now) }
    ensures fails { IfErr result (λ f. (tops : List Placed) → FailsWith f
        (FailsModule name.now tops (entries_of declarations.now.table.entries.items) declarations.now.implemented)) }
{
    let Declarations {
        table,
        implemented,
        values,
    } = declarations;
    match source_context(alloc, table, naming, names, *implemented, name, values) {
        Err(fault) => Err(of_context(alloc, table, fault)),
        Ok(known) => {
            match permit_all(
                alloc,
                table,
                names,
                *implemented,
                &known.context,
                &known.headings,
            ) {
                Ok(()) => Ok(known),
                Err(forbidden) => Err(of_permitted(table, forbidden.number, forbidden.fault)),
            }
        }
    }
}

/// What is known around the functions of a source that declares this.
///
/// # Errors
/// Want of memory. 42, 50 and 55 where a type that is declared means none, an import is none, an adt has no layout, or a variable begins
/// with another value than one of its type; 51, 53 and 55 where values may not have a type.
pub(crate) fn find_known(
    alloc: Global,
    name: &Text,
    declarations: &Declarations<'_>,
) -> Result<SourceContext, ModuleFault>
    requires once { AreOnce (entries_of declarations.now.table.entries.items) }
    requires table { (top : List rows.Row) × IsTable top (entries_of declarations.now.table.entries.items) }
    requires values { AreValues (entries_of declarations.now.table.entries.items) declarations.now.implemented
        declarations.now.values.items }
    ensures known { IfOk result (IsKnown (entries_of declarations.now.table.entries.items) declarations.now.implemented name.now) }
    ensures fails { IfErr result (λ f. (tops : List Placed) → FailsWith f
        (FailsModule name.now tops (entries_of declarations.now.table.entries.items) declarations.now.implemented)) }
{
    let naming = Naming::new(alloc, &declarations.table, declarations.implemented)?;
    match TypeNames::new(alloc, &naming) {
        Ok(names) => find_context(alloc, name, declarations, &naming, &names),
        Err(fault) => Err(of_types(alloc, &declarations.table, fault)),
    }
}
