//! Which declarations a declaration needs.

ghost use Rattle.std.specs.Prelude.{◌≡◌, ◌<◌, ◌∷◌, ◌++◌, [], ℕ, List, Option, Some, length, map, slice_get, IfOk, OnOk};
ghost use Rattle.limbo_tree.specs.View.{view_qual, view_type, tys_of};
ghost use Rattle.limbo_naming.specs.Qualified.{Qualified, Simple, Member, of_type};
ghost use Rattle.limbo_naming.specs.Told.{Knows};
ghost use Rattle.limbo_naming.specs.declared.naming.Naming as naming;
ghost use Rattle.limbo_naming.specs.Direct.{DeclaresOf};
ghost use Rattle.limbo_order.specs.View.{rows};
ghost use Rattle.limbo_unknown.specs.Written.{in_type, in_types};
ghost use Rattle.limbo_type_names.specs.Working.{AreNeeds, AreNeedsOf};

use limbo_declarations::Declared;
use limbo_naming::{Named, Naming};
use limbo_tree::TypeTree;
use std::alloc::{AllocError, Global};

// Adds what a name names.
fn push_named(row: &mut Vec<u32>, named: Named) -> Result<(), AllocError>
    ensures { OnOk result ((n : naming.Naming) (scope : Option ℕ) (q : Qualified) (names : List Qualified) → Knows n
        → DeclaresOf n scope q named
        → AreNeeds n scope names row.old.items → AreNeeds n scope (names ++ q ∷ []) row.new.items) }
{
    match named {
        Named::Found(number) => {
            row.push(number)?;
            Ok(())
        }
        Named::Unknown => Ok(()),
        Named::Nothing => Ok(()),
    }
}

// Adds what the names in a type name.
#[tactic(auto, using(limbo_tree::proofs::Exprs::the_type_views), unfolding(limbo_tree::specs::View::view_types))]
#[cycle(needing)]
fn push_needs(
    row: &mut Vec<u32>,
    naming: &Naming,
    scope: Option<u32>,
    of: &TypeTree,
) -> Result<(), AllocError>
    requires names { Knows naming.now }
    ensures { OnOk result ((names : List Qualified) → AreNeeds naming.now scope names row.old.items
        → AreNeeds naming.now scope (names ++ in_type (view_type of.now)) row.new.items) }
{
    match of {
        TypeTree::Named { name, .. } => push_named(row, naming.declared(scope, name)),
        TypeTree::Ref { of, .. } => push_named(row, naming.declared(scope, of)),
        TypeTree::Array { element, .. } => push_needs(row, naming, scope, element),
        TypeTree::List { element, .. } => push_needs(row, naming, scope, element),
        TypeTree::Chan { element, .. } => push_needs(row, naming, scope, element),
        TypeTree::Tuple { parts, .. } => push_all_needs(row, naming, scope, parts),
        _ => Ok(()),
    }
}

// The same of several types.
#[cycle(needing)]
fn push_all_needs(
    row: &mut Vec<u32>,
    naming: &Naming,
    scope: Option<u32>,
    types: &[TypeTree],
) -> Result<(), AllocError>
    requires names { Knows naming.now }
    ensures { OnOk result ((names : List Qualified) → AreNeeds naming.now scope names row.old.items
        → AreNeeds naming.now scope (names ++ in_types (tys_of (map view_type types.now))) row.new.items) }
{
    for of in types {
        push_needs(row, naming, scope, of)?;
    }
    Ok(())
}

// What a declaration needs.
fn needs_of(alloc: Global, naming: &Naming, number: u32) -> Result<Vec<u32>, AllocError>
    requires names { Knows naming.now }
    requires there { number < length naming.now.table.now.entries.items }
    ensures { IfOk result (λ row. AreNeedsOf naming.now number row.items) }
{
    let entry = naming.table().entry(number);
    match entry.row.declared {
        Declared::Alias(of) => {
            let mut row = Vec::new(alloc);
            push_needs(&mut row, naming, entry.within, of)?;
            Ok(row)
        }
        Declared::Imported(source) => {
            let mut row = Vec::new(alloc);
            let named = naming.import_declared(entry.within, &source.text, &entry.row.name.text);
            push_named(&mut row, named)?;
            Ok(row)
        }
        _ => Ok(Vec::new(alloc)),
    }
}

/// What each declaration of a table needs for the type that it stands for.
///
/// # Errors
/// Want of memory.
pub(crate) fn all_needs(alloc: Global, naming: &Naming) -> Result<Vec<Vec<u32>>, AllocError>
    requires names { Knows naming.now }
    ensures many { IfOk result (λ all. length all.items ≡ length naming.now.table.now.entries.items) }
    ensures each { IfOk result (λ all. (k : ℕ) (row : List ℕ) → slice_get (rows all.items) k ≡ Some row → AreNeedsOf naming.now k row) }
{
    let table = naming.table();
    let mut all = Vec::with_capacity(alloc, table.entries.len())?;
    for number in 0..table.entries.len() as u32 {
        let row = needs_of(alloc, naming, number)?;
        all.push(row)?;
    }
    Ok(all)
}
