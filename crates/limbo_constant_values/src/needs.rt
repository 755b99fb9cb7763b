//! Which declarations the constants need.

ghost use Rattle.std.specs.Prelude.{◌≡◌, ◌<◌, ◌∷◌, ◌++◌, [], ℕ, List, None, Some, length, slice_get, IfOk, OnOk, IfSome, IfNone};
ghost use Rattle.limbo_tree.specs.Exprs as tree;
ghost use Rattle.limbo_tree.specs.View.{view_expr};
ghost use Rattle.limbo_constants.specs.Asked.{asked};
ghost use Rattle.limbo_declarations.specs.Rows as told;
ghost use Rattle.limbo_declarations.specs.View.{view_declared};
ghost use Rattle.limbo_order.specs.View.{rows};
ghost use Rattle.limbo_naming.specs.Told.{Knows};
ghost use Rattle.limbo_constant_values.specs.Asking.{AreNeeds, AreNeedsOf};

use limbo_constants::asked;
use limbo_declarations::Declared;
use limbo_entries::Table;
use limbo_naming::{Named, Naming};
use limbo_tree::Expr;
use std::alloc::{AllocError, Global};

// The expression of a constant.
pub(crate) fn constant_in<'a>(declared: Declared<'a>) -> Option<(&'a Expr, usize)>
    ensures some { IfSome result (λ c. view_declared declared.entry ≡ told.Constant (view_expr c.0.now) c.1) }
    ensures none { IfNone result ((e : tree.Expr) (i : ℕ) → view_declared declared.entry ≡ told.Constant e i → ⊥) }
{
    match declared {
        Declared::Constant { value, iota } => Some((value, iota)),
        _ => None,
    }
}

// Adds what a part names.
fn push_need(
    row: &mut Vec<u32>,
    naming: &Naming,
    scope: Option<u32>,
    part: &Expr,
) -> Result<(), AllocError>
    requires names { Knows naming.now }
    ensures { OnOk result ((parts : List tree.Expr) → AreNeeds naming.now scope parts row.old.items
        → AreNeeds naming.now scope (parts ++ view_expr part.now ∷ []) row.new.items) }
{
    match naming.expr_named(scope, part) {
        None => Ok(()),
        Some(named) => match named {
            Named::Found(number) => {
                row.push(number)?;
                Ok(())
            }
            Named::Unknown => Ok(()),
            Named::Nothing => Ok(()),
        },
    }
}

// What the names in an expression name.
fn needs_in(
    alloc: Global,
    naming: &Naming,
    scope: Option<u32>,
    e: &Expr,
) -> Result<Vec<u32>, AllocError>
    requires names { Knows naming.now }
    ensures { IfOk result (λ row. AreNeeds naming.now scope (asked (view_expr e.now)) row.items) }
{
    let parts = asked(alloc, e)?;
    let mut row = Vec::new(alloc);
    for part in &parts {
        push_need(&mut row, naming, scope, part)?;
    }
    Ok(row)
}

// What a declaration needs: the constants and whatever else its expression names, if it is a constant.
fn needs_of(
    alloc: Global,
    table: &Table,
    naming: &Naming,
    number: u32,
) -> Result<Vec<u32>, AllocError>
    requires names { Knows naming.now }
    requires table { naming.now.table.now ≡ table.now }
    requires there { number < length table.now.entries.items }
    ensures { IfOk result (λ row. AreNeedsOf naming.now number row.items) }
{
    let entry = table.entry(number);
    match constant_in(entry.row.declared) {
        None => Ok(Vec::new(alloc)),
        Some((value, _iota)) => needs_in(alloc, naming, entry.within, value),
    }
}

/// What each declaration of a table needs.
///
/// # Errors
/// Want of memory.
pub(crate) fn all_needs(
    alloc: Global,
    table: &Table,
    naming: &Naming,
) -> Result<Vec<Vec<u32>>, AllocError>
    requires names { Knows naming.now }
    requires table { naming.now.table.now ≡ table.now }
    ensures many { IfOk result (λ all. length all.items ≡ length table.now.entries.items) }
    ensures each { IfOk result (λ all. (k : ℕ) (row : List ℕ) → slice_get (rows all.items) k ≡ Some row → AreNeedsOf naming.now k row) }
{
    let mut all = Vec::with_capacity(alloc, table.entries.len())?;
    for number in 0..table.entries.len() as u32 {
        let row = needs_of(alloc, table, naming, number)?;
        all.push(row)?;
    }
    Ok(all)
}
