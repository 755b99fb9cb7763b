//! What is found out of a source, one after the other.

ghost use Rattle.std.specs.Prelude.{◌≡◌, ◌++◌, ℕ, List, IfOk, IfErr, OnOk};
ghost use Rattle.inf_text.specs.declared.span.Span.{Span};
ghost use Rattle.limbo_tree.specs.View.{view_top};
ghost use Rattle.limbo_declarations.specs.View.{rows_of};
ghost use Rattle.limbo_declarations.specs.declared.scopes.OnceFault.TheVariants as once_fault;
ghost use Rattle.limbo_entries.specs.Entries.{IsTable, AreOnce};
ghost use Rattle.limbo_entries.specs.View.{entries_of};
ghost use Rattle.limbo_defined.specs.Defined.{AllDefined, AllKnown, AreDefinedOnce};
ghost use Rattle.limbo_top.specs.Tops.{Placed};
ghost use Rattle.limbo_top.specs.TopLevel.{IsTopLevel};
ghost use Rattle.limbo_top.specs.Parts.{AreParts};
ghost use Rattle.limbo_top.specs.View.{placed, definitions_of};
ghost use Rattle.limbo_declare.specs.Declares.{IsOnceIn, AreOnceInside, Fails};

use crate::fault::NameFault;
use inf_text::Text;
use limbo_declarations::{OnceFault, Row, RowsFault, decl_once, fn_once};
use limbo_defined::{DefinedFault, all_defined};
use limbo_entries::Table;
use limbo_includes::Standing;
use limbo_top::{TopFault, TopLevel, top_level};
use limbo_tree::Top;
use std::alloc::{AllocError, Global};

/// The top level.
pub(crate) fn find_top<'a>(
    alloc: Global,
    implements: &Text,
    tops: &[Standing<'a>],
) -> Result<TopLevel<'a>, NameFault<'a>>
    ensures top_level { IfOk result (λ t. IsTopLevel implements.now (placed tops.now) (rows_of t.names.rows.items)) }
    ensures parts { IfOk result (λ t. AreParts implements.now (placed tops.now) t) }
    ensures fails { IfErr result (λ e. Fails implements.now (placed tops.now) e) }
{
    match top_level(alloc, implements, tops) {
        Ok(top) => Ok(top),
        Err(TopFault::NoMemory) => Err(NameFault::NoMemory),
        Err(TopFault::Twice { path, at }) => Err(NameFault::Twice { path, at }),
        Err(TopFault::Unknown) => Err(NameFault::NoModule),
    }
}

// Whether the scopes inside a declaration, or a function's parameters, declare each name once.
fn once_inside(alloc: Global, top: &Top) -> Result<(), OnceFault>
    ensures once { OnOk result (IsOnceIn (view_top top.now)) }
    ensures twice { IfErr result (λ e. (at : Span) → e ≡ once_fault.Twice at → IsOnceIn (view_top top.now) → ⊥) }
{
    match top {
        Top::Include { .. } => Ok(()),
        Top::Declare { decl } => decl_once(alloc, decl),
        Top::Define { function } => fn_once(alloc, &function.of),
    }
}

/// Whether each scope inside a declaration declares each name once.
pub(crate) fn check_scopes<'a>(alloc: Global, tops: &[Standing<'a>]) -> Result<(), NameFault<'a>>
    ensures once { OnOk result (AreOnceInside (placed tops.now)) }
    ensures fails { IfErr result (λ e. (implements : List ℕ) → Fails implements (placed tops.now) e) }
{
    for s in tops {
        match once_inside(alloc, s.top) {
            Ok(()) => {}
            Err(OnceFault::NoMemory) => return Err(NameFault::NoMemory),
            Err(OnceFault::Twice { at }) => return Err(NameFault::Twice { path: s.path, at }),
        }
    }
    Ok(())
}

// Adds rows.
fn push_all<'a>(rows: &mut Vec<Row<'a>>, more: &[Row<'a>]) -> Result<(), AllocError>
    ensures { IfOk result (λ _. rows.new.items ≡ rows.old.items ++ more.now) }
{
    for row in more {
        rows.push(*row)?;
    }
    Ok(())
}

// Rows, and more behind them.
fn with_more<'a>(
    alloc: Global,
    rows: &[Row<'a>],
    more: &[Row<'a>],
) -> Result<Vec<Row<'a>>, AllocError>
    ensures { IfOk result (λ all. all.items ≡ rows.now ++ more.now) }
{
    let mut all = Vec::new(alloc);
    push_all(&mut all, rows)?;
    push_all(&mut all, more)?;
    Ok(all)
}

/// The table of all declarations.
pub(crate) fn make_table<'a>(alloc: Global, top: &TopLevel<'a>) -> Result<Table<'a>, NameFault<'a>>
    ensures table { IfOk result (λ t. IsTable (rows_of (top.now.declared.rows.items ++ top.now.alone.items)) (entries_of t.entries.items)) }
    ensures once { IfOk result (λ t. AreOnce (entries_of t.entries.items)) }
    ensures fails { IfErr result (λ e. (implements : List ℕ) (tops : List Placed) → AreParts implements tops top.now
        → Fails implements tops e) }
{
    let rows = with_more(alloc, &top.declared.rows, &top.alone)?;
    match Table::new(alloc, rows) {
        Ok(table) => Ok(table),
        Err(RowsFault::NoMemory) => Err(NameFault::NoMemory),
        Err(RowsFault::Twice { row }) => Err(NameFault::Twice {
            path: row.path,
            at: row.name.span,
        }),
    }
}

/// Whether the functions are defined as they are declared.
pub(crate) fn check_defined<'a>(alloc: Global, top: &TopLevel<'a>) -> Result<(), NameFault<'a>>
    ensures once { OnOk result (AreDefinedOnce (definitions_of top.now.definitions.items)) }
    ensures defined { OnOk result (AllDefined (rows_of top.now.members.rows.items) (rows_of top.now.names.rows.items)
        (definitions_of top.now.definitions.items)) }
    ensures known { OnOk result (AllKnown (rows_of top.now.members.rows.items) (rows_of top.now.names.rows.items)
        (definitions_of top.now.definitions.items)) }
    ensures fails { IfErr result (λ e. (implements : List ℕ) (tops : List Placed) → AreParts implements tops top.now
        → Fails implements tops e) }
{
    match all_defined(alloc, &top.members, &top.names, &top.definitions) {
        Ok(()) => Ok(()),
        Err(DefinedFault::NoMemory) => Err(NameFault::NoMemory),
        Err(DefinedFault::Twice { path, at }) => Err(NameFault::Twice { path, at }),
        Err(DefinedFault::Undefined { path, at }) => Err(NameFault::Unknown { path, at }),
        Err(DefinedFault::Undeclared { path, at }) => Err(NameFault::Unknown { path, at }),
    }
}
