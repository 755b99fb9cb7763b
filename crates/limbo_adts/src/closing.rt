//! For each adt, the adts that its values may come to hold.

ghost use Rattle.std.specs.Prelude.{◌≡◌, [], ◌∷◌, ◌<◌, ◌^◌, map, length, OnOk, IfOk};
ghost use Rattle.limbo_types.specs.View.{view_ty, view_tys};
ghost use Rattle.limbo_layout.specs.Adts.{types_of, variant_types, field_types};
ghost use Rattle.limbo_layout.specs.View.{view_def, view_defs, view_fields, view_variant};
ghost use Rattle.limbo_adts.specs.Searching.{Finds};
ghost use Rattle.limbo_adts.specs.Closed.{named, all_named, named_in, NamesOnly, IsClosed, AreClosed, rows};

use limbo_layout::{AdtDef, Field, Variant};
use limbo_types::Ty;
use std::alloc::{AllocError, Global};

// What was found so far: marks for each adt, and the adts that are marked in the order found.
#[derive(Drop)]
struct Search {
    marks: Vec<bool>,
    found: Vec<u32>,
}

// Finds an adt, where there is one of this number.
fn visit(search: &mut Search, number: u32) -> Result<(), AllocError>
    ensures { OnOk result (Finds (number ∷ []) search.old search.new) }
{
    if search.marks.get(number as usize).copied().unwrap_or(true) {
        return Ok(());
    }
    search.found.push(number)?;
    search.marks[number as usize] = true;
    Ok(())
}

// Finds the adts that a type names.
#[tactic(auto, using(limbo_types::proofs::View::the_types))]
#[cycle(visiting)]
fn visit_type(search: &mut Search, t: &Ty) -> Result<(), AllocError>
    ensures { OnOk result (Finds (named (view_ty t.now)) search.old search.new) }
{
    match t {
        Ty::Array(item) => visit_type(search, item),
        Ty::List(item) => visit_type(search, item),
        Ty::Chan(item) => visit_type(search, item),
        Ty::Tuple(parts) => visit_tuple(search, parts),
        Ty::Adt(number) => visit(search, *number),
        Ty::RefAdt(number) => visit(search, *number),
        Ty::RefPick { adt, .. } => visit(search, *adt),
        Ty::Byte => Ok(()),
        Ty::Int => Ok(()),
        Ty::Big => Ok(()),
        Ty::Chars => Ok(()),
        Ty::Nothing => Ok(()),
        Ty::Nil => Ok(()),
        Ty::Module(_) => Ok(()),
    }
}

#[cycle(visiting)]
fn visit_tuple(search: &mut Search, parts: &[Ty]) -> Result<(), AllocError>
    ensures { OnOk result (Finds (all_named (view_tys parts.now)) search.old search.new) }
{
    for t in parts {
        visit_type(search, t)?;
    }
    Ok(())
}

fn visit_fields(search: &mut Search, fields: &[Field]) -> Result<(), AllocError>
    ensures { OnOk result (Finds (named_in (types_of (view_fields fields.now))) search.old search.new) }
{
    for field in fields {
        visit_type(search, &field.ty)?;
    }
    Ok(())
}

fn visit_variants(search: &mut Search, picks: &[Variant]) -> Result<(), AllocError>
    ensures { OnOk result (Finds (named_in (variant_types (map view_variant picks.now))) search.old search.new) }
{
    for variant in picks {
        visit_fields(search, &variant.fields)?;
    }
    Ok(())
}

// Finds the adts that an adt's fields name.
fn visit_def(search: &mut Search, def: &AdtDef) -> Result<(), AllocError>
    ensures { OnOk result (Finds (named_in (field_types (view_def def.now))) search.old search.new) }
{
    visit_fields(search, &def.fields)?;
    visit_variants(search, &def.picks)
}

// The adts to which a way leads from one.
fn closure(alloc: Global, defs: &[AdtDef], from: u32) -> Result<Vec<u32>, AllocError>
    requires from { from < length defs.now }
    requires named { NamesOnly (view_defs defs.now) }
    ensures { IfOk result (λ row. IsClosed (view_defs defs.now) from row.items) }
{
    let mut search = Search {
        marks: vec![in alloc; false; defs.len()]?,
        found: vec![in alloc; from]?,
    };
    search.marks[from as usize] = true;
    let mut next = 0;
    'looking: while next < search.found.len() {
        let number = search.found[next] as usize;
        visit_def(&mut search, &defs[number])?;
        next += 1;
    }
    let Search { marks: _, found } = search;
    Ok(found)
}

/// For each adt, the adts to which a way leads from it, itself among them: each that it names, and so on.
pub(crate) fn close(alloc: Global, defs: &[AdtDef]) -> Result<Vec<Vec<u32>>, AllocError>
    requires few { length defs.now < 2 ^ 32 }
    requires named { NamesOnly (view_defs defs.now) }
    ensures { IfOk result (λ closed. AreClosed (view_defs defs.now) (rows closed.items)) }
{
    let mut closed = Vec::with_capacity(alloc, defs.len())?;
    for number in 0..defs.len() as u32 {
        closed.push(closure(alloc, defs, number)?)?;
    }
    Ok(closed)
}
