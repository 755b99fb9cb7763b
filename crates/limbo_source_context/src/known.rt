//! What is found out of a source first: what is told of its declarations, what its names mean, and what its variables begin with.

ghost use Rattle.std.specs.Prelude.{◌≡◌, ◌+◌, IfOk, IfErr};
ghost use Rattle.limbo_entries.specs.View.{entries_of};
ghost use Rattle.limbo_naming.specs.Told.{IsNaming};
ghost use Rattle.limbo_type_names.specs.Told.{AreTypesOf};
ghost use Rattle.limbo_constant_values.specs.Valuing.{AreValues};
ghost use Rattle.limbo_source_context.specs.SourceContext.{Fails};
ghost use Rattle.limbo_source_context.specs.Parts.{IsMeant, IsKnown};

use crate::fault::{ContextFault, of_types};
use limbo_constant_values::find_initials;
use limbo_constants::Constant;
use limbo_entries::Table;
use limbo_exports::{find_exports, find_fd, find_system};
use limbo_headers::{Heading, head_all};
use limbo_meanings::find_meanings;
use limbo_naming::Naming;
use limbo_scope::Meaning;
use limbo_type_names::TypeNames;
use std::alloc::{AllocError, Global};

/// What the names of all declarations mean in the implemented module, and to others; and the numbers of the declarations of the built-in
/// module and of its adt of file descriptors.
#[derive(Drop)]
pub(crate) struct Meant {
    pub(crate) meanings: Vec<Option<Meaning>>,
    pub(crate) others: Vec<Option<Meaning>>,
    pub(crate) builtin: Option<u32>,
    pub(crate) fd: Option<u32>,
}

/// What is told of all declarations, what their names mean, and the constants to which initial values come.
#[derive(Drop)]
pub(crate) struct Known {
    pub(crate) headings: Vec<Heading>,
    pub(crate) meant: Meant,
    pub(crate) initials: Vec<Option<Constant>>,
}

// What the names of a table mean.
fn find_meant(alloc: Global, table: &Table, implemented: u32) -> Result<Meant, AllocError>
    ensures { IfOk result (λ s. IsMeant table.now implemented s) }
{
    let meanings = find_meanings(alloc, table, implemented)?;
    let builtin = find_system(table);
    let others = find_exports(alloc, table, builtin, &meanings)?;
    let fd = find_fd(table, builtin);
    Ok(Meant {
        meanings,
        others,
        builtin,
        fd,
    })
}

/// What is found out first of a table whose names name this, and whose constants have these values.
///
/// # Errors
/// Want of memory. `Unknown` and `NotAType` exactly where a type that a declaration writes fails so.
pub(crate) fn find_known(
    alloc: Global,
    table: &Table,
    naming: &Naming,
    names: &TypeNames,
    implemented: u32,
    values: &[Option<Constant>],
) -> Result<Known, ContextFault>
    requires naming { IsNaming table.now implemented naming.now }
    requires types { AreTypesOf naming.now names.now }
    requires values { AreValues (entries_of table.now.entries.items) implemented values.now }
    ensures known { IfOk result (λ k. IsKnown table.now implemented k) }
    ensures fails { IfErr result (λ e. Fails table.now.entries.items implemented e) }
{
    let headings = match head_all(alloc, names) {
        Ok(headings) => headings,
        Err(fault) => return Err(of_types(fault)),
    };
    let meant = find_meant(alloc, table, implemented)?;
    let initials = find_initials(alloc, table, naming, implemented, values)?;
    Ok(Known {
        headings,
        meant,
        initials,
    })
}
