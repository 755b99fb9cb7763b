//! What a source declares, put together.

ghost use Rattle.std.specs.Prelude.{IfOk, IfErr};
ghost use Rattle.limbo_entries.specs.View.{entries_of};
ghost use Rattle.limbo_top.specs.View.{placed};
ghost use Rattle.limbo_constant_values.specs.Valuing.{AreValues};
ghost use Rattle.limbo_declare.specs.Declares.{Declares, Fails};

use crate::fault::NameFault;
use crate::meanings::find_meanings;
use crate::stages::{check_defined, check_scopes, find_top, make_table};
use inf_text::Text;
use limbo_constants::Constant;
use limbo_entries::Table;
use limbo_includes::Standing;
use std::alloc::Global;

/// What a source declares, with the texts that it includes.
#[derive(Drop)]
pub struct Declarations<'a> {
    /// All declarations, by number.
    pub table: Table<'a>,
    /// The number of the implemented module.
    pub implemented: u32,
    /// Of each constant its value, by its number.
    pub values: Vec<Option<Constant>>,
}

/// What a source declares that implements the module of this name, with what stands at its top level (Limbo Language Reference,
/// declarations, modules and scope).
///
/// # Errors
/// Want of memory. `NoModule` exactly where the module isn't declared. `Twice`, `Unknown` and `NotConstant` only where the source has
/// a place of that kind. Of several refusals that hold the first of these is told: a name of the top level that is declared twice, or
/// no module; a name that is declared twice further in; functions that aren't defined as they are declared; names of what stands
/// inside modules and adts that are declared twice; names that aren't there; what isn't constant.
pub fn declare<'a>(
    alloc: Global,
    implements: &Text,
    tops: &[Standing<'a>],
) -> Result<Declarations<'a>, NameFault<'a>>
    ensures declares { IfOk result (λ d. Declares implements.now (placed tops.now) (entries_of d.table.entries.items) d.implemented) }
    ensures values { IfOk result (λ d. AreValues (entries_of d.table.entries.items) d.implemented d.values.items) }
    ensures fails { IfErr result (λ e. Fails implements.now (placed tops.now) e) }
{
    let top = match find_top(alloc, implements, tops) {
        Ok(top) => top,
        Err(fault) => return Err(fault),
    };
    if let Err(fault) = check_scopes(alloc, tops) {
        return Err(fault);
    }
    if let Err(fault) = check_defined(alloc, &top) {
        return Err(fault);
    }
    let table = match make_table(alloc, &top) {
        Ok(table) => table,
        Err(fault) => return Err(fault),
    };
    let implemented = match table.member(None, implements) {
        Some(number) => number,
        None => return Err(NameFault::NoModule),
    };
    match find_meanings(alloc, &table, implemented) {
        Ok(values) => Ok(Declarations {
            table,
            implemented,
            values,
        }),
        Err(fault) => Err(fault),
    }
}
