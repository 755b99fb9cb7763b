//! The context of a source, put together.

ghost use Rattle.std.specs.Prelude.{◌≡◌, ℕ, List, length, map, IfOk, IfErr};
ghost use Rattle.limbo_typed.specs.View.{view_var};
ghost use Rattle.limbo_declarations.specs.Rows as rows;
ghost use Rattle.limbo_entries.specs.Entries.{IsTable, AreOnce};
ghost use Rattle.limbo_entries.specs.View.{entries_of};
ghost use Rattle.limbo_naming.specs.Told.{IsNaming};
ghost use Rattle.limbo_type_names.specs.Told.{AreTypesOf};
ghost use Rattle.limbo_source_adts.specs.Definitions.{AreHeaded};
ghost use Rattle.limbo_constant_values.specs.Valuing.{AreValues};
ghost use Rattle.limbo_context.specs.View.{view_context};
ghost use Rattle.limbo_meanings.specs.Meanings.{AreMeanings};
ghost use Rattle.limbo_meanings.specs.Names.{outermost_scopes};
ghost use Rattle.limbo_source_context.specs.SourceContext.{IsContext, AllFit, Fails};
ghost use Rattle.limbo_source_context.specs.Beginning.{AreBeginnings, AllBeginSo};
ghost use Rattle.limbo_source_context.specs.Parts.{IsKnown};

use crate::beginning::find_beginnings;
use crate::fault::ContextFault;
use crate::fitting::check_beginnings;
use crate::inner::{Inner, find_inner};
use crate::known::{Known, Meant, find_known};
use crate::outer::{Outer, find_outer};
use crate::plain::{Plain, find_plain};
use inf_text::Text;
use limbo_constants::Constant;
use limbo_context::Context;
use limbo_entries::Table;
use limbo_exports::{fd_number, system_number};
use limbo_headers::Heading;
use limbo_meanings::top_scopes;
use limbo_naming::Naming;
use limbo_scope::{Meaning, ScopeFault, Scopes};
use limbo_type_names::TypeNames;
use limbo_typed::Initial;
use std::alloc::{AllocError, Global};

/// What is known in the bodies of a source's functions, and where they begin.
#[derive(Drop)]
pub struct SourceContext {
    pub context: Context,
    /// The scopes in which a body begins.
    pub scopes: Scopes,
    /// Of each declaration the types that it is declared with.
    pub headings: Vec<Heading>,
    /// Of each declaration what its name means.
    pub meanings: Vec<Option<Meaning>>,
    /// The constants with which variables of the module begin.
    pub initials: Vec<Initial>,
}

// The lists to which names lead.
fn find_context(
    alloc: Global,
    table: &Table,
    naming: &Naming,
    names: &TypeNames,
    implemented: u32,
    module_name: &Text,
    values: &[Option<Constant>],
    known: &Known,
) -> Result<Context, ContextFault>
    requires naming { IsNaming table.now implemented naming.now }
    requires types { AreTypesOf naming.now names.now }
    requires once { AreOnce (entries_of table.now.entries.items) }
    requires table { (top : List rows.Row) × IsTable top (entries_of table.now.entries.items) }
    requires values { AreValues (entries_of table.now.entries.items) implemented values.now }
    requires known { IsKnown table.now implemented known.now }
    ensures context { IfOk result (λ c. IsContext (entries_of table.now.entries.items) implemented module_name.now (view_context c)) }
    ensures laid { IfOk result (λ c. AllFit (view_context c).adts) }
    ensures fails { IfErr result (λ e. Fails table.now.entries.items implemented e) }
{
    let outer = find_outer(alloc, table, naming, implemented, known)?;
    let inner = find_inner(alloc, table, implemented, known)?;
    let plain = find_plain(alloc, table, names, implemented, module_name, values, known)?;
    let Outer {
        adts,
        globals,
        imports,
    } = outer;
    let Inner {
        members,
        interfaces,
        exports,
    } = inner;
    let Plain {
        constants,
        types,
        functions,
        exceptions,
    } = plain;
    let system = system_number(&known.meant.meanings, known.meant.builtin);
    let fd = fd_number(&known.meant.meanings, known.meant.fd);
    Ok(Context {
        adts,
        members,
        interfaces,
        exports,
        globals,
        constants,
        types,
        functions,
        imports,
        exceptions,
        system,
        fd,
    })
}

// The scopes in which a body begins. None has a name twice.
fn find_scopes(
    alloc: Global,
    table: &Table,
    implemented: u32,
    meanings: &[Option<Meaning>],
) -> Result<Scopes, AllocError>
    requires many { length meanings.now ≡ length table.now.entries.items }
    requires once { AreOnce (entries_of table.now.entries.items) }
    ensures { IfOk result (λ s. s ≡ outermost_scopes implemented meanings.now (entries_of table.now.entries.items)) }
{
    match top_scopes(alloc, table, implemented, meanings) {
        Ok(scopes) => Ok(scopes),
        Err(ScopeFault::NoMemory) => Err(AllocError),
        Err(ScopeFault::Twice) => Err(AllocError),
    }
}

/// What is known in the bodies of a source's functions, by the table of its declarations: what its names name, what types they mean, and
/// the values of its constants. The implemented module has this number and this name.
///
/// # Errors
/// Want of memory. `Unknown` and `NotAType` exactly where a type that a variable, a field, a function or an exception is declared with
/// fails so; else `TooLarge`, `NoType`, `NotThere` and `BadInitial` exactly where an adt has no layout, a variable no type, an import no
/// module, and a variable begins with a value of another type. What is refused has no such context (`fails_or_context`).
pub fn source_context(
    alloc: Global,
    table: &Table,
    naming: &Naming,
    names: &TypeNames,
    implemented: u32,
    module_name: &Text,
    values: &[Option<Constant>],
) -> Result<SourceContext, ContextFault>
    requires naming { IsNaming table.now implemented naming.now }
    requires types { AreTypesOf naming.now names.now }
    requires once { AreOnce (entries_of table.now.entries.items) }
    requires table { (top : List rows.Row) × IsTable top (entries_of table.now.entries.items) }
    requires values { AreValues (entries_of table.now.entries.items) implemented values.now }
    ensures context { IfOk result (λ s. IsContext (entries_of table.now.entries.items) implemented module_name.now
        (view_context s.context)) }
    ensures laid { IfOk result (λ s. AllFit (view_context s.context).adts) }
    ensures headed { IfOk result (λ s. AreHeaded (entries_of table.now.entries.items) implemented s.headings.items) }
    ensures many_headings { IfOk result (λ s. length s.headings.items ≡ length table.now.entries.items) }
    ensures meanings { IfOk result (λ s. AreMeanings (entries_of table.now.entries.items) implemented s.meanings.items) }
    ensures many { IfOk result (λ s. length s.meanings.items ≡ length table.now.entries.items) }
    ensures scopes { IfOk result (λ s. s.scopes
        ≡ outermost_scopes implemented s.meanings.items (entries_of table.now.entries.items)) }
    ensures initials { IfOk result (λ s. AreBeginnings (entries_of table.now.entries.items) implemented s.initials.items) }
    ensures fit { IfOk result (λ s. AllBeginSo (entries_of table.now.entries.items) implemented
        (map view_var s.context.globals.items)) }
    ensures fails { IfErr result (λ e. Fails table.now.entries.items implemented e) }
{
    let known = find_known(alloc, table, naming, names, implemented, values)?;
    let context = find_context(
        alloc,
        table,
        naming,
        names,
        implemented,
        module_name,
        values,
        &known,
    )?;
    check_beginnings(table, implemented, &known, &context.globals)?;
    let scopes = find_scopes(alloc, table, implemented, &known.meant.meanings)?;
    let initials = find_beginnings(alloc, table, implemented, &known)?;
    let Known {
        headings,
        meant,
        ..
    } = known;
    let Meant { meanings, .. } = meant;
    Ok(SourceContext {
        context,
        scopes,
        headings,
        meanings,
        initials,
    })
}
