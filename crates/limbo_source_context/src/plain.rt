//! The constants, the types, the functions and the exceptions of a source.

ghost use Rattle.std.specs.Prelude.{◌≡◌, IfOk};
ghost use Rattle.limbo_entries.specs.View.{entries_of};
ghost use Rattle.limbo_naming.specs.Told.{IsNaming};
ghost use Rattle.limbo_naming.specs.declared.naming.Naming as naming;
ghost use Rattle.limbo_type_names.specs.Told.{AreTypesOf};
ghost use Rattle.limbo_constant_values.specs.Valuing.{AreValues};
ghost use Rattle.limbo_source_context.specs.Parts.{IsKnown, IsPlain};

use crate::known::Known;
use inf_text::Text;
use limbo_constants::Constant;
use limbo_context::{Callee, Valued};
use limbo_entries::Table;
use limbo_outline::{list_constants, list_exceptions, list_functions, list_types};
use limbo_type_names::TypeNames;
use limbo_typed::TException;
use limbo_types::Ty;
use std::alloc::{AllocError, Global};

/// The constants, what names by `type` stand for, the functions of the module, and the exceptions.
#[derive(Drop)]
pub(crate) struct Plain {
    pub(crate) constants: Vec<Valued>,
    pub(crate) types: Vec<Ty>,
    pub(crate) functions: Vec<Callee>,
    pub(crate) exceptions: Vec<TException>,
}

/// The constants, types, functions and exceptions of a table, by what is known of it. The implemented module has this name.
///
/// # Errors
/// Want of memory.
pub(crate) fn find_plain(
    alloc: Global,
    table: &Table,
    names: &TypeNames,
    implemented: u32,
    module_name: &Text,
    values: &[Option<Constant>],
    known: &Known,
) -> Result<Plain, AllocError>
    requires types { (n : naming.Naming) × IsNaming table.now implemented n × AreTypesOf n names.now }
    requires values { AreValues (entries_of table.now.entries.items) implemented values.now }
    requires known { IsKnown table.now implemented known.now }
    ensures { IfOk result (λ p. IsPlain (entries_of table.now.entries.items) implemented module_name.now p) }
{
    let headings = &known.headings;
    let constants = list_constants(alloc, table, implemented, values)?;
    let types = list_types(alloc, table, names)?;
    let functions = list_functions(alloc, table, implemented, &known.meant.meanings, headings)?;
    let exceptions = list_exceptions(alloc, table, module_name, headings)?;
    Ok(Plain {
        constants,
        types,
        functions,
        exceptions,
    })
}
