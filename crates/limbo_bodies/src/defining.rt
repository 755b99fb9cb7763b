//! What a definition defines.

ghost use Rattle.std.specs.Prelude.{◌≡◌, length, map, IfOk, IfErr};
ghost use Rattle.limbo_tree.specs.View as tree;
ghost use Rattle.limbo_types.specs.View.{view_fn};
ghost use Rattle.limbo_entries.specs.Entries.{AreOnce};
ghost use Rattle.limbo_entries.specs.View.{entries_of};
ghost use Rattle.limbo_naming.specs.Told.{IsNaming};
ghost use Rattle.limbo_naming.specs.declared.naming.Naming as naming;
ghost use Rattle.limbo_type_names.specs.Told.{AreTypesOf};
ghost use Rattle.limbo_context.specs.View.{view_callee};
ghost use Rattle.limbo_meanings.specs.Meanings.{AreMeanings};
ghost use Rattle.limbo_outline.specs.Outline.{FunctionsAre};
ghost use Rattle.limbo_bodies.specs.Definitions.{TakesItself, Defines, Fails};

use crate::declared::function_of;
use crate::fault::DefinitionFault;
use crate::sameness::is_same;
use limbo_context::Callee;
use limbo_entries::Table;
use limbo_headers::{Header, function_header};
use limbo_scope::Meaning;
use limbo_tree::Function;
use limbo_type_names::{TypeFault, TypeNames};
use limbo_types::FnTy;
use std::alloc::Global;

/// What a definition defines: the function of this number, which takes and answers this.
#[derive(Drop)]
pub struct Defined {
    pub function: u32,
    pub of: FnTy,
}

// What a definition takes and answers by its own words.
fn header_of(
    alloc: Global,
    table: &Table,
    names: &TypeNames,
    implemented: u32,
    function: &Function,
) -> Result<FnTy, DefinitionFault>
    requires types { (n : naming.Naming) × IsNaming table.now implemented n × AreTypesOf n names.now }
    ensures takes { IfOk result (λ of. TakesItself (entries_of table.now.entries.items) implemented (tree.view_fn function.now.of)
        (view_fn of)) }
    ensures fails { IfErr result (λ e. Fails (entries_of table.now.entries.items) implemented function.now.name.text
        (tree.name_of function.now.part) function.now.of (tree.view_fn function.now.of) e) }
{
    match function_header(alloc, names, None, &function.of) {
        Ok(header) => {
            let Header { of, .. } = header;
            Ok(of)
        }
        Err(TypeFault::NoMemory) => Err(DefinitionFault::NoMemory),
        Err(TypeFault::Unknown { at }) => Err(DefinitionFault::Unknown { at }),
        Err(TypeFault::NotAType { at }) => Err(DefinitionFault::NotAType { at }),
    }
}

/// What a definition defines that stands at the top level of a source: the table has its declarations, the names of which mean these, and
/// lead to these functions.
///
/// # Errors
/// Want of memory. `Undeclared` exactly where no function of the module is declared under its name; `Unknown` and `NotAType` exactly
/// where a type of a parameter, or of the answer, fails so; `Differs` exactly where the function is declared with other types.
pub fn head_definition(
    alloc: Global,
    table: &Table,
    names: &TypeNames,
    implemented: u32,
    meanings: &[Option<Meaning>],
    functions: &[Callee],
    function: &Function,
) -> Result<Defined, DefinitionFault>
    requires types { (n : naming.Naming) × IsNaming table.now implemented n × AreTypesOf n names.now }
    requires once { AreOnce (entries_of table.now.entries.items) }
    requires meanings { AreMeanings (entries_of table.now.entries.items) implemented meanings.now }
    requires functions { FunctionsAre (entries_of table.now.entries.items) implemented (map view_callee functions.now) }
    ensures defines { IfOk result (λ d. Defines (entries_of table.now.entries.items) implemented function.now.name.text
        (tree.name_of function.now.part) (tree.view_fn function.now.of) d.function (view_fn d.of)) }
    ensures fails { IfErr result (λ e. Fails (entries_of table.now.entries.items) implemented function.now.name.text
        (tree.name_of function.now.part) function.now.of (tree.view_fn function.now.of) e) }
{
    let Some((_number, place)) = function_of(table, implemented, meanings, function) else {
        return Err(DefinitionFault::Undeclared);
    };
    let of = header_of(alloc, table, names, implemented, function)?;
    match functions.get(place as usize) {
        None => Err(DefinitionFault::NoMemory),
        Some(callee) => {
            if is_same(&callee.of, &of) {
                Ok(Defined {
                    function: place,
                    of,
                })
            } else {
                Err(DefinitionFault::Differs)
            }
        }
    }
}
