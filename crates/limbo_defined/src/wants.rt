//! The functions that must be defined.

ghost use Rattle.std.specs.Prelude.{◌≡◌, ◌++◌, None, Some, map, IfOk};
ghost use Rattle.limbo_tree.specs.View.{view_member, members_of, names_of};
ghost use Rattle.limbo_declarations.specs.Rows.{rows_of_member, rows_of_members};
ghost use Rattle.limbo_declarations.specs.View.{view_declared, rows_of};
ghost use Rattle.limbo_defined.specs.Places as places;
ghost use Rattle.limbo_defined.specs.View.{wanted_of, places_of};
ghost use Rattle.limbo_defined.specs.Wanted as told;

use inf_text::{Span, Text};
use limbo_declarations::{Declared, Row};
use limbo_tree::{Member, Name};
use std::alloc::{AllocError, Global};

/// A function that must be defined: by its name, or by its adt's name and its own. It is declared in the text of this path, there.
#[derive(Clone, Copy)]
pub struct Wanted<'a> {
    pub path: &'a Text,
    pub name: &'a Text,
    pub part: Option<&'a Text>,
    pub at: Span,
}

// Adds what a row of a module's member declares as a function.
fn push_function<'a>(all: &mut Vec<Wanted<'a>>, row: Row<'a>) -> Result<(), AllocError>
    ensures wanted { IfOk result (λ _. wanted_of all.new.items ≡ wanted_of all.old.items
        ++ told.of_function row.entry.path.now None row.entry.name.now.text (view_declared row.entry.declared)) }
    ensures places { IfOk result (λ _. places_of all.new.items ≡ places_of all.old.items
        ++ places.function_places row.entry row.entry.declared) }
{
    match row.declared {
        Declared::Function(_of) => {
            all.push(Wanted {
                path: row.path,
                name: &row.name.text,
                part: None,
                at: row.name.span,
            })?;
            Ok(())
        }
        _ => Ok(()),
    }
}

// Adds the functions of a module.
fn push_functions<'a>(all: &mut Vec<Wanted<'a>>, rows: &[Row<'a>]) -> Result<(), AllocError>
    ensures wanted { IfOk result (λ _. wanted_of all.new.items ≡ wanted_of all.old.items ++ told.functions_in None (rows_of rows.now)) }
    ensures places { IfOk result (λ _. places_of all.new.items ≡ places_of all.old.items ++ places.module_places rows.now) }
{
    for row in rows {
        push_function(all, *row)?;
    }
    Ok(())
}

// Adds functions of an adt.
fn push_names<'a>(
    all: &mut Vec<Wanted<'a>>,
    path: &'a Text,
    adt: &'a Text,
    names: &'a [Name],
) -> Result<(), AllocError>
    ensures wanted { IfOk result (λ _. wanted_of all.new.items ≡ wanted_of all.old.items
        ++ map (told.of_name path.now (Some adt.now)) (names_of names.now)) }
    ensures places { IfOk result (λ _. places_of all.new.items ≡ places_of all.old.items
        ++ map (places.place path.now (Some adt.now)) names.now) }
{
    for name in names {
        all.push(Wanted {
            path,
            name: adt,
            part: Some(&name.text),
            at: name.span,
        })?;
    }
    Ok(())
}

// Adds what a member of an adt declares as functions.
fn push_member<'a>(
    all: &mut Vec<Wanted<'a>>,
    path: &'a Text,
    adt: &'a Text,
    m: &'a Member,
) -> Result<(), AllocError>
    ensures wanted { IfOk result (λ _. wanted_of all.new.items ≡ wanted_of all.old.items
        ++ told.functions_in (Some adt.now) (rows_of_member path.now (view_member m.now))) }
    ensures places { IfOk result (λ _. places_of all.new.items ≡ places_of all.old.items
        ++ map (places.place path.now (Some adt.now)) (places.own_names m.now)) }
{
    match m {
        Member::Function { names, .. } => push_names(all, path, adt, names),
        Member::Adt { .. } => Ok(()),
        Member::Var { .. } => Ok(()),
        Member::Con { .. } => Ok(()),
        Member::Type { .. } => Ok(()),
    }
}

// Adds the functions of an adt with these members.
fn push_members<'a>(
    all: &mut Vec<Wanted<'a>>,
    path: &'a Text,
    adt: &'a Text,
    members: &'a [Member],
) -> Result<(), AllocError>
    ensures wanted { IfOk result (λ _. wanted_of all.new.items ≡ wanted_of all.old.items
        ++ told.functions_in (Some adt.now) (rows_of_members path.now (members_of (map view_member members.now)))) }
    ensures places { IfOk result (λ _. places_of all.new.items ≡ places_of all.old.items
        ++ places.places_in path.now (Some adt.now) members.now) }
{
    for m in members {
        push_member(all, path, adt, m)?;
    }
    Ok(())
}

// Adds the functions of an adt.
#[tactic(auto, unfolding(limbo_tree::specs::View::view_members))]
fn push_adt<'a>(all: &mut Vec<Wanted<'a>>, row: Row<'a>) -> Result<(), AllocError>
    ensures wanted { IfOk result (λ _. wanted_of all.new.items ≡ wanted_of all.old.items
        ++ told.of_adt row.entry.path.now row.entry.name.now.text (view_declared row.entry.declared)) }
    ensures places { IfOk result (λ _. places_of all.new.items ≡ places_of all.old.items
        ++ places.adt_places row.entry row.entry.declared) }
{
    match row.declared {
        Declared::Adt { members, .. } => push_members(all, row.path, &row.name.text, members),
        _ => Ok(()),
    }
}

// Adds the functions of the adts of the top level.
fn push_adts<'a>(all: &mut Vec<Wanted<'a>>, rows: &[Row<'a>]) -> Result<(), AllocError>
    ensures wanted { IfOk result (λ _. wanted_of all.new.items ≡ wanted_of all.old.items ++ told.adt_functions_in (rows_of rows.now)) }
    ensures places { IfOk result (λ _. places_of all.new.items ≡ places_of all.old.items ++ places.places_of_adts rows.now) }
{
    for row in rows {
        push_adt(all, *row)?;
    }
    Ok(())
}

/// The functions that must be defined, by the rows of the implemented module's members and of the top level.
///
/// # Errors
/// Want of memory.
pub fn all_wanted<'a>(
    alloc: Global,
    members: &[Row<'a>],
    rows: &[Row<'a>],
) -> Result<Vec<Wanted<'a>>, AllocError>
    ensures wanted { IfOk result (λ all. wanted_of all.items ≡ told.wanted_in (rows_of members.now) (rows_of rows.now)) }
    ensures places { IfOk result (λ all. places_of all.items ≡ places.places members.now rows.now) }
{
    let mut all = Vec::new(alloc);
    push_functions(&mut all, members)?;
    push_adts(&mut all, rows)?;
    Ok(all)
}
