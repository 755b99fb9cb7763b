//! The rows of trees.

ghost use Rattle.std.specs.Prelude.{◌≡◌, ◌++◌, map, option_map, IfOk};
ghost use Rattle.limbo_tree.specs.View.{names_of, view_expr, view_boxed, view_decl, view_member, view_members, members_of, view_variant};
ghost use Rattle.limbo_tree.specs.View.{view_field};
ghost use Rattle.limbo_declarations.specs.Rows as told;
ghost use Rattle.limbo_declarations.specs.View.{view_declared, rows_of};

use crate::row::{Declared, Row};
use inf_text::Text;
use limbo_tree::{Decl, Expr, Field, Member, Name, Variant};
use std::alloc::{AllocError, Global};
use std::slice;

// Names that are declared alike.
fn push_each<'a>(
    rows: &mut Vec<Row<'a>>,
    path: &'a Text,
    names: &'a [Name],
    declared: Declared<'a>,
) -> Result<(), AllocError>
    ensures { IfOk result (λ _. rows_of rows.new.items ≡ rows_of rows.old.items
        ++ told.each path.now (names_of names.now) (view_declared declared.entry)) }
{
    for name in names {
        rows.push(Row {
            path,
            name,
            declared,
        })?;
    }
    Ok(())
}

// Constants of one value, which `iota` counts.
fn push_counted<'a>(
    rows: &mut Vec<Row<'a>>,
    path: &'a Text,
    names: &'a [Name],
    value: &'a Expr,
) -> Result<(), AllocError>
    ensures { IfOk result (λ _. rows_of rows.new.items ≡ rows_of rows.old.items
        ++ told.counted path.now 0 (names_of names.now) (view_expr value.now)) }
{
    for (iota, name) in names.iter().enumerate() {
        rows.push(Row {
            path,
            name,
            declared: Declared::Constant { value, iota },
        })?;
    }
    Ok(())
}

// What a box holds, if there is one.
fn boxed<'a>(value: &'a Option<Box<Expr>>) -> Option<&'a Expr>
    ensures { option_map (λ e. view_expr e.now) result ≡ view_boxed value.now }
{
    match value {
        None => None,
        Some(value) => Some(&**value),
    }
}

// What the variants of an adt are, if it is a pick adt.
fn listed<'a>(pick: &'a Option<Vec<Variant>>) -> Option<&'a [Variant]>
    ensures { option_map (λ vs. map view_variant vs.now) result ≡ option_map (λ vs. map view_variant vs.items) pick.now }
{
    match pick {
        None => None,
        Some(variants) => Some(variants.as_slice()),
    }
}

/// Adds what a declaration declares.
///
/// # Errors
/// Want of memory.
pub fn push_decl<'a>(rows: &mut Vec<Row<'a>>, path: &'a Text, d: &'a Decl) -> Result<(), AllocError>
    ensures { IfOk result (λ _. rows_of rows.new.items ≡ rows_of rows.old.items ++ told.rows_of_decl path.now (view_decl d.now)) }
{
    match d {
        Decl::Con { names, value, .. } => push_counted(rows, path, names, value),
        Decl::Type { names, of, .. } => push_each(rows, path, names, Declared::Alias(of)),
        Decl::Var {
            names,
            of,
            value,
            ..
        } => {
            let value = boxed(value);
            push_each(rows, path, names, Declared::Variable { of, value })
        }
        Decl::Define { names, value, .. } => push_each(
            rows,
            path,
            names,
            Declared::Inferred(value),
        ),
        Decl::Import { names, module, .. } => push_each(
            rows,
            path,
            names,
            Declared::Imported(module),
        ),
        Decl::Exception { names, values, .. } => {
            push_each(rows, path, names, Declared::Exception(values))
        }
        Decl::Module { name, members, .. } => {
            push_each(rows, path, slice::from_ref(name), Declared::Module(members))
        }
        Decl::Adt {
            name,
            members,
            pick,
            ..
        } => {
            let pick = listed(pick);
            push_each(
                rows,
                path,
                slice::from_ref(name),
                Declared::Adt { members, pick },
            )
        }
    }
}

// Adds what a member declares.
#[tactic(auto, using(limbo_tree::proofs::Members::the_members))]
fn push_member<'a>(rows: &mut Vec<Row<'a>>, path: &'a Text, m: &'a Member) -> Result<(), AllocError>
    ensures { IfOk result (λ _. rows_of rows.new.items ≡ rows_of rows.old.items ++ told.rows_of_member path.now (view_member m.now)) }
{
    match m {
        Member::Var { names, of, .. } => {
            push_each(rows, path, names, Declared::Variable { of, value: None })
        }
        Member::Function { names, of, .. } => push_each(rows, path, names, Declared::Function(of)),
        Member::Con { names, value, .. } => push_counted(rows, path, names, value),
        Member::Type { names, of, .. } => push_each(rows, path, names, Declared::Alias(of)),
        Member::Adt {
            name,
            members,
            pick,
            ..
        } => {
            let pick = listed(pick);
            push_each(
                rows,
                path,
                slice::from_ref(name),
                Declared::Adt { members, pick },
            )
        }
    }
}

/// Adds what members declare: those of a module, or of an adt.
///
/// # Errors
/// Want of memory.
#[tactic(auto, unfolding(limbo_tree::specs::View::view_members))]
pub fn push_members<'a>(
    rows: &mut Vec<Row<'a>>,
    path: &'a Text,
    members: &'a [Member],
) -> Result<(), AllocError>
    ensures { IfOk result (λ _. rows_of rows.new.items ≡ rows_of rows.old.items
        ++ told.rows_of_members path.now (view_members members.now)) }
{
    for m in members {
        push_member(rows, path, m)?;
    }
    Ok(())
}

// Adds the names of variants.
fn push_variants<'a>(
    rows: &mut Vec<Row<'a>>,
    path: &'a Text,
    variants: &'a [Variant],
) -> Result<(), AllocError>
    ensures { IfOk result (λ _. rows_of rows.new.items ≡ rows_of rows.old.items
        ++ told.rows_of_variants path.now (map view_variant variants.now)) }
{
    for v in variants {
        push_each(rows, path, &v.names, Declared::Case(&v.fields))?;
    }
    Ok(())
}

/// The scope of an adt: its members, and the names of its variants.
///
/// # Errors
/// Want of memory.
pub fn adt_rows<'a>(
    alloc: Global,
    path: &'a Text,
    members: &'a [Member],
    pick: Option<&'a [Variant]>,
) -> Result<Vec<Row<'a>>, AllocError>
    ensures { IfOk result (λ rows. rows_of rows.items ≡ told.rows_of_adt path.now (view_members members.now) (option_map
        (λ vs. map view_variant vs.now) pick.entry)) }
{
    let mut rows = Vec::new(alloc);
    push_members(&mut rows, path, members)?;
    if let Some(variants) = pick {
        push_variants(&mut rows, path, variants)?;
    }
    Ok(rows)
}

/// The scope of a module: its members.
///
/// # Errors
/// Want of memory.
pub fn module_rows<'a>(
    alloc: Global,
    path: &'a Text,
    members: &'a [Member],
) -> Result<Vec<Row<'a>>, AllocError>
    ensures { IfOk result (λ rows. rows_of rows.items ≡ told.rows_of_members path.now (view_members members.now)) }
{
    let mut rows = Vec::new(alloc);
    push_members(&mut rows, path, members)?;
    Ok(rows)
}

/// The fields of a variant.
///
/// # Errors
/// Want of memory.
pub fn field_rows<'a>(
    alloc: Global,
    path: &'a Text,
    fields: &'a [Field],
) -> Result<Vec<Row<'a>>, AllocError>
    ensures { IfOk result (λ rows. rows_of rows.items ≡ told.rows_of_fields path.now (map view_field fields.now)) }
{
    let mut rows = Vec::new(alloc);
    for field in fields {
        let declared = Declared::Variable {
            of: &field.of,
            value: None,
        };
        push_each(&mut rows, path, &field.names, declared)?;
    }
    Ok(rows)
}
