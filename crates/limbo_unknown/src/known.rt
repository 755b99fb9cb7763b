//! Whether all names are there.

ghost use Rattle.std.specs.Prelude.{◌≡◌, ◌++◌, ℕ, option_map, IfOk, IfErr, OnOk};
ghost use Rattle.limbo_tree.specs.View.{view_expr, view_type};
ghost use Rattle.limbo_declarations.specs.View.{view_row};
ghost use Rattle.limbo_entries.specs.View.{entries_of};
ghost use Rattle.limbo_naming.specs.Told.{Knows, IsNaming};
ghost use Rattle.limbo_unknown.specs.Written.{in_type, in_value, written};
ghost use Rattle.limbo_unknown.specs.Lacking.{HasUnknown, IsTold};
ghost use Rattle.limbo_unknown.specs.Refusing.{Refuses};

use crate::exprs::missing_in_expr;
use crate::names::missing_import;
use crate::types::{missing_in_function, missing_in_type, missing_in_types};
use inf_text::{Span, Text};
use limbo_declarations::{Declared, Row};
use limbo_entries::Table;
use limbo_naming::Naming;
use limbo_tree::{Expr, TypeTree};
use std::alloc::{AllocError, Global};

/// Why not all names are there.
#[derive(Clone, Copy)]
pub enum UnknownFault<'a> {
    /// Want of memory.
    NoMemory,
    /// Refusal 42: a name that a declaration of the text of this path writes isn't there.
    Unknown { path: &'a Text, at: Span },
}

impl<'a> From<AllocError> for UnknownFault<'a> {
    ghost use Rattle.std.specs.Prelude.{◌≡◌};
    ghost use Rattle.limbo_unknown.specs.declared.known.UnknownFault.TheVariants.{NoMemory};

    ghost from_gives = { λ _ e. e ≡ NoMemory };

    fn from(_error: AllocError) -> UnknownFault<'a> {
        UnknownFault::NoMemory
    }
}

// Where a name stands that an initial value asks for and that isn't there.
fn missing_in_value(
    alloc: Global,
    naming: &Naming,
    scope: Option<u32>,
    value: Option<&Expr>,
) -> Result<Option<Span>, AllocError>
    requires names { Knows naming.now }
    ensures { IfOk result (λ found. IsTold naming.now scope (in_value (option_map (λ e. view_expr e.now) value.entry)) found) }
{
    match value {
        None => Ok(None),
        Some(value) => missing_in_expr(alloc, naming, scope, false, value),
    }
}

// Where a name stands that a variable's declaration writes and that isn't there.
fn missing_in_variable(
    alloc: Global,
    naming: &Naming,
    scope: Option<u32>,
    of: &TypeTree,
    value: Option<&Expr>,
) -> Result<Option<Span>, AllocError>
    requires names { Knows naming.now }
    ensures { IfOk result (λ found. IsTold naming.now scope (in_type (view_type of.now)
        ++ in_value (option_map (λ e. view_expr e.now) value.entry)) found) }
{
    match missing_in_type(naming, scope, of) {
        Some(at) => Ok(Some(at)),
        None => missing_in_value(alloc, naming, scope, value),
    }
}

// Where a name stands that a declaration writes and that isn't there.
#[tactic(auto, unfolding(limbo_tree::specs::View::view_types))]
fn missing_in_row(
    alloc: Global,
    naming: &Naming,
    scope: Option<u32>,
    row: Row,
) -> Result<Option<Span>, AllocError>
    requires names { Knows naming.now }
    ensures { IfOk result (λ found. IsTold naming.now scope (written (view_row row.entry)) found) }
{
    match row.declared {
        Declared::Constant { value, .. } => missing_in_expr(alloc, naming, scope, true, value),
        Declared::Alias(of) => Ok(missing_in_type(naming, scope, of)),
        Declared::Variable { of, value } => missing_in_variable(alloc, naming, scope, of, value),
        Declared::Inferred(value) => missing_in_expr(alloc, naming, scope, false, value),
        Declared::Imported(source) => Ok(missing_import(naming, scope, source, row.name)),
        Declared::Exception(types) => Ok(missing_in_types(naming, scope, types)),
        Declared::Function(of) => Ok(missing_in_function(naming, scope, of)),
        Declared::Module(_members) => Ok(None),
        Declared::Adt { .. } => Ok(None),
        Declared::Case(_fields) => Ok(None),
    }
}

/// That each name that a declaration of a table writes is there.
///
/// # Errors
/// Want of memory. `Unknown` exactly where one isn't: the path of the text in which its declaration stands, and where in it.
pub fn all_known<'a>(
    alloc: Global,
    table: &Table<'a>,
    naming: &Naming<'_, 'a>,
) -> Result<(), UnknownFault<'a>>
    requires names { Knows naming.now }
    ensures known { OnOk result ((m : ℕ) → IsNaming table.now m naming.now → HasUnknown (entries_of table.now.entries.items) m → ⊥) }
    ensures unknown { IfErr result (λ e. (m : ℕ) → IsNaming table.now m naming.now → Refuses (entries_of table.now.entries.items) m e) }
{
    for entry in &table.entries {
        if let Some(at) = missing_in_row(alloc, naming, entry.within, entry.row)? {
            let path = entry.row.path;
            return Err(UnknownFault::Unknown { path, at });
        }
    }
    Ok(())
}
