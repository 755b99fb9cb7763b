//! The rows and the definitions of the top level.

ghost use Rattle.std.specs.Prelude.{◌≡◌, ◌++◌, ℕ, List, IfOk, IfSome, IfNone};
ghost use Rattle.limbo_tree.specs.Decls.{Members};
ghost use Rattle.limbo_tree.specs.View.{view_top, view_members};
ghost use Rattle.limbo_declarations.specs.View.{view_declared, rows_of};
ghost use Rattle.limbo_top.specs.Tops as told;
ghost use Rattle.limbo_top.specs.View.{view_standing, placed, definitions_of};

use inf_text::Text;
use limbo_declarations::{Declared, Names, Row, push_decl};
use limbo_includes::Standing;
use limbo_tree::{Function, Member, Top};
use std::alloc::{AllocError, Global};

/// A function where it is defined, in the text of this path.
#[derive(Clone, Copy)]
pub struct Definition<'a> {
    pub path: &'a Text,
    pub function: &'a Function,
}

// Adds what a declaration declares.
fn push_top<'a>(rows: &mut Vec<Row<'a>>, s: Standing<'a>) -> Result<(), AllocError>
    ensures { IfOk result (λ _. rows_of rows.new.items ≡ rows_of rows.old.items
        ++ told.rows_of_top s.entry.path.now (view_top s.entry.top.now)) }
{
    match s.top {
        Top::Declare { decl } => push_decl(rows, s.path, decl),
        Top::Include { .. } => Ok(()),
        Top::Define { .. } => Ok(()),
    }
}

/// What the declarations declare.
///
/// # Errors
/// Want of memory.
pub fn declared<'a>(alloc: Global, tops: &[Standing<'a>]) -> Result<Vec<Row<'a>>, AllocError>
    ensures { IfOk result (λ rows. rows_of rows.items ≡ told.declared (placed tops.now)) }
{
    let mut rows = Vec::new(alloc);
    for s in tops {
        push_top(&mut rows, *s)?;
    }
    Ok(rows)
}

// Adds the function that is defined there.
fn push_definition<'a>(
    definitions: &mut Vec<Definition<'a>>,
    s: Standing<'a>,
) -> Result<(), AllocError>
    ensures { IfOk result (λ _. definitions_of definitions.new.items
        ≡ definitions_of definitions.old.items ++ told.definitions_of s.entry.path.now (view_top s.entry.top.now)) }
{
    match s.top {
        Top::Define { function } => {
            definitions.push(Definition {
                path: s.path,
                function,
            })?;
            Ok(())
        }
        Top::Include { .. } => Ok(()),
        Top::Declare { .. } => Ok(()),
    }
}

/// The functions that are defined.
///
/// # Errors
/// Want of memory.
pub fn definitions<'a>(
    alloc: Global,
    tops: &[Standing<'a>],
) -> Result<Vec<Definition<'a>>, AllocError>
    ensures { IfOk result (λ ds. definitions_of ds.items ≡ told.definitions (placed tops.now)) }
{
    let mut definitions = Vec::new(alloc);
    for s in tops {
        push_definition(&mut definitions, *s)?;
    }
    Ok(definitions)
}
