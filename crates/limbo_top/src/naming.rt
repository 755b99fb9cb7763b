//! The names of the top level.

ghost use Rattle.std.specs.Prelude.{◌≡◌, ◌++◌, ℕ, List, IfOk, IfErr};
ghost use Rattle.std.specs.Borrow.{Bor};
ghost use Rattle.inf_text.specs.declared.span.Span.{Span};
ghost use Rattle.limbo_declarations.specs.Names.{names, AreOnce};
ghost use Rattle.limbo_declarations.specs.View.{rows_of};
ghost use Rattle.limbo_top.specs.TopLevel.{IsTopLevel, HasNoModule, HasNoTopLevel, DeclaresTwice};
ghost use Rattle.limbo_top.specs.Parts.{AreParts};
ghost use Rattle.limbo_top.specs.View.{placed};
ghost use Rattle.limbo_top.specs.declared.fault.TopFault.TheVariants.{Twice, Unknown};

use crate::fault::TopFault;
use crate::module::{alone, implemented};
use crate::tops::{Definition, declared, definitions};
use inf_text::Text;
use limbo_declarations::{Names, Row, RowsFault, module_rows};
use limbo_includes::Standing;
use std::alloc::{AllocError, Global};

// A scope, if its rows are one.
fn scope_of<'a>(alloc: Global, rows: Vec<Row<'a>>) -> Result<Names<'a>, TopFault<'a>>
    ensures rows { IfOk result (λ n. n.rows ≡ rows.entry) }
    ensures once { IfOk result (λ _. AreOnce (names rows.entry.items)) }
    ensures known { IfErr result (λ e. e ≡ Unknown → ⊥) }
    ensures twice { IfErr result (λ e. (p : Bor (List ℕ)) (at : Span) → e ≡ Twice p at → AreOnce (names rows.entry.items) → ⊥) }
{
    match Names::new(alloc, rows) {
        Ok(names) => Ok(names),
        Err(RowsFault::NoMemory) => Err(TopFault::NoMemory),
        Err(RowsFault::Twice { row }) => Err(TopFault::Twice {
            path: row.path,
            at: row.name.span,
        }),
    }
}

// Adds rows.
fn push_all<'a>(rows: &mut Vec<Row<'a>>, more: &[Row<'a>]) -> Result<(), AllocError>
    ensures { IfOk result (λ _. rows.new.items ≡ rows.old.items ++ more.now) }
{
    for row in more {
        rows.push(*row)?;
    }
    Ok(())
}

// The rows of the top level, by those of the declarations and of the implemented module's members.
fn joined<'a>(
    alloc: Global,
    declared: &[Row<'a>],
    members: &[Row<'a>],
    alone: &[Row<'a>],
) -> Result<Vec<Row<'a>>, AllocError>
    ensures { IfOk result (λ rows. rows.items ≡ declared.now ++ members.now ++ alone.now) }
{
    let mut rows = Vec::new(alloc);
    push_all(&mut rows, declared)?;
    push_all(&mut rows, members)?;
    push_all(&mut rows, alone)?;
    Ok(rows)
}

/// The top level of a source: its names, and whence they come.
#[derive(Drop)]
pub struct TopLevel<'a> {
    /// What the declarations declare.
    pub declared: Names<'a>,
    /// The members of the implemented module.
    pub members: Names<'a>,
    /// The functions that are defined and that the module doesn't declare.
    pub alone: Vec<Row<'a>>,
    /// The functions that are defined.
    pub definitions: Vec<Definition<'a>>,
    /// All names of the top level: those of the declarations, of the members, and of the functions that declare themselves.
    pub names: Names<'a>,
}

/// The top level of a source that implements the module of this name.
///
/// # Errors
/// Want of memory. `Unknown` exactly where the source declares no such module at its top level. `Twice` only where a name is declared
/// twice, so that there is no top level.
pub fn top_level<'a>(
    alloc: Global,
    implements: &Text,
    tops: &[Standing<'a>],
) -> Result<TopLevel<'a>, TopFault<'a>>
    ensures top_level { IfOk result (λ t. IsTopLevel implements.now (placed tops.now) (rows_of t.names.rows.items)) }
    ensures parts { IfOk result (λ t. AreParts implements.now (placed tops.now) t) }
    ensures unknown { IfErr result (λ e. e ≡ Unknown → HasNoModule implements.now (placed tops.now)) }
    ensures twice { IfErr result (λ e. (p : Bor (List ℕ)) (at : Span) → e ≡ Twice p at → DeclaresTwice implements.now (placed tops.now)) }
    ensures none { IfErr result (λ e. (p : Bor (List ℕ)) (at : Span) → e ≡ Twice p at → HasNoTopLevel implements.now (placed tops.now)) }
{
    let rows = declared(alloc, tops)?;
    let outer = scope_of(alloc, rows)?;
    let (path, members) = match implemented(&outer, implements) {
        Some(module) => module,
        None => return Err(TopFault::Unknown),
    };
    let listed = module_rows(alloc, path, members)?;
    let inner = scope_of(alloc, listed)?;
    let definitions = definitions(alloc, tops)?;
    let alone = alone(alloc, &inner, &definitions)?;
    let all = joined(alloc, &outer.rows, &inner.rows, &alone)?;
    let names = scope_of(alloc, all)?;
    Ok(TopLevel {
        declared: outer,
        members: inner,
        alone,
        definitions,
        names,
    })
}
