//! What a source declares.

ghost use Rattle.std.specs.Prelude.{List, IfOk, IfErr};
ghost use Rattle.inf_ports.specs.Outside.{Told};
ghost use Rattle.limbo_tree.specs.Sources as sources;
ghost use Rattle.limbo_tree.specs.View.{view_source};
ghost use Rattle.limbo_tree.specs.declared.source.Source as code_source;
ghost use Rattle.limbo_top.specs.Tops.{Placed};
ghost use Rattle.limbo_top.specs.View.{placed};
ghost use Rattle.limbo_entries.specs.View.{entries_of};
ghost use Rattle.limbo_constant_values.specs.Valuing.{AreValues};
ghost use Rattle.limbo_includes.specs.Includes.{most};
ghost use Rattle.limbo_includes.specs.Refusals.{Says};
ghost use Rattle.limbo_includes.specs.declared.included.Included as code_included;
ghost use Rattle.limbo_includes.specs.View.{given};
ghost use Rattle.limbo_declare.specs.Declares as scope;
ghost use Rattle.source_names.specs.Included.{Flattens};
ghost use Rattle.source_names.specs.Declares.{FailsBy, HasRow};
ghost use Rattle.source_names.specs.View.{AreRead};

use crate::refusal::{NamesFault, Refusal, refused};
use inf_text::{Span, Text};
use limbo_declare::{Declarations, NameFault, declare};
use limbo_includes::{IncludeFault, Included, Standing, flatten};
use limbo_tree::{Name, Source};
use std::alloc::Global;

// Where a refusal stands that has no place of its own.
const START: Span = Span {
    line: 1,
    col: 1,
    len: 0,
};

// The refusal of includes.
fn of_includes(fault: IncludeFault, first: &Text) -> NamesFault
    ensures { (told : Told) (source : code_source.Source) (texts : List code_included.Included) → Says (given first.now source texts) fault
        → AreRead told first.now source texts → FailsBy told first.now (view_source source) result }
{
    match fault {
        IncludeFault::NoMemory => NamesFault::NoMemory,
        IncludeFault::NoInclude { path, at } => NamesFault::Refused {
            refusal: Refusal::NoInclude,
            path,
            at,
        },
        IncludeFault::Twice { path, at } => NamesFault::Refused {
            refusal: Refusal::Twice,
            path,
            at,
        },
        IncludeFault::TooDeep => refused(Refusal::TooDeep, first, START),
    }
}

// The row of declarations of a source.
fn find_row<'a>(
    alloc: Global,
    path: &'a Text,
    source: &'a Source,
    texts: &'a [Included],
) -> Result<Vec<Standing<'a>>, NamesFault>
    ensures flat { IfOk result (λ row. (told : Told) → AreRead told path.now source.now texts.now
        → Flattens told most path.now (view_source source.now).tops (placed row.items)) }
    ensures fails { IfErr result (λ e. (told : Told) → AreRead told path.now source.now texts.now
        → FailsBy told path.now (view_source source.now) e) }
{
    match flatten(alloc, path, source, texts) {
        Ok(row) => Ok(row),
        Err(fault) => Err(of_includes(fault, path)),
    }
}

// The refusal of names.
fn of_names(fault: NameFault<'_>, first: &Text, name: &Name) -> NamesFault
    ensures { (told : Told) (tree : sources.Source) (row : List Placed) → HasRow told first.now tree name.now.text row
        → scope.Fails name.now.text row fault.entry → FailsBy told first.now tree result }
{
    match fault {
        NameFault::NoMemory => NamesFault::NoMemory,
        NameFault::Twice { path, at } => refused(Refusal::Twice, path, at),
        NameFault::Unknown { path, at } => refused(Refusal::Unknown, path, at),
        NameFault::NoModule => refused(Refusal::Unknown, first, name.span),
        NameFault::NotConstant { path, at } => refused(Refusal::NotConstant, path, at),
    }
}

/// The name of the module that a source implements, the row of declarations to which it flattens with the texts that it includes, and what
/// these declare.
#[derive(Drop)]
pub struct Named<'a> {
    pub name: &'a Text,
    pub row: Vec<Standing<'a>>,
    pub declarations: Declarations<'a>,
}

/// What a source declares, with the texts that it includes; these are what was read for it (Limbo Language Reference, include,
/// declarations, modules and scope).
///
/// # Errors
/// Want of memory. `Refused` with the refusal, the path of the text and the place in it; of several that hold the first of these is
/// told: `TooDeep`, `NoInclude`, a text that is included twice, and then as `limbo_declare::declare` says.
pub fn names_of<'a>(
    alloc: Global,
    path: &'a Text,
    source: &'a Source,
    texts: &'a [Included],
) -> Result<Named<'a>, NamesFault>
    ensures row { IfOk result (λ n. (told : Told) → AreRead told path.now source.now texts.now
        → HasRow told path.now (view_source source.now) n.name.now (placed n.row.items)) }
    ensures declares { IfOk result (λ n. scope.Declares n.name.now (placed n.row.items) (entries_of n.declarations.table.entries.items)
        n.declarations.implemented) }
    ensures values { IfOk result (λ n. AreValues (entries_of n.declarations.table.entries.items) n.declarations.implemented
        n.declarations.values.items) }
    ensures fails { IfErr result (λ e. (told : Told) → AreRead told path.now source.now texts.now
        → FailsBy told path.now (view_source source.now) e) }
{
    let Some(name) = &source.implements else {
        return Err(refused(Refusal::Unknown, path, START));
    };
    let row = find_row(alloc, path, source, texts)?;
    match declare(alloc, &name.text, &row) {
        Ok(declarations) => Ok(Named {
            name: &name.text,
            row,
            declarations,
        }),
        Err(fault) => Err(of_names(fault, path, name)),
    }
}
