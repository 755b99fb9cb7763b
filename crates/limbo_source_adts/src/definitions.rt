//! The definitions of adts.

ghost use Rattle.std.specs.Prelude.{◌≡◌, ◌<◌, ◌+◌, ◌++◌, ◌∷◌, [], ℕ, List, Some, length, slice_get, map, IfOk, OnOk};
ghost use Rattle.limbo_entries.specs.View.{entries_of};
ghost use Rattle.limbo_layout.specs.View.{view_fields, view_variant, view_def, view_defs};
ghost use Rattle.limbo_order.specs.View.{rows};
ghost use Rattle.limbo_source_adts.specs.Inside.{AreInside};
ghost use Rattle.limbo_source_adts.specs.Definitions.{FieldsAre, VariantsAre, AdtsAre, AdtsTo, AreHeaded};

use crate::inside::find_inside;
use limbo_declarations::Declared;
use limbo_entries::Table;
use limbo_headers::Heading;
use limbo_layout::{AdtDef, Field, Variant};
use limbo_types::copy;
use std::alloc::{AllocError, Global};

// Adds a declaration to the fields, if it is one.
fn push_field(
    alloc: Global,
    table: &Table,
    headings: &[Heading],
    number: u32,
    fields: &mut Vec<Field>,
) -> Result<(), AllocError>
    requires there { number < length table.now.entries.items }
    requires many { length headings.now ≡ length table.now.entries.items }
    ensures { OnOk result ((m : ℕ) (ks : List ℕ) → AreHeaded (entries_of table.now.entries.items) m headings.now
        → FieldsAre (entries_of table.now.entries.items) m ks (view_fields fields.old.items)
        → FieldsAre (entries_of table.now.entries.items) m (ks ++ number ∷ []) (view_fields fields.new.items)) }
{
    match &headings[number as usize] {
        Heading::Variable(ty) => {
            let entry = table.entries[number as usize];
            let name = entry.row.name.text.clone()?;
            let ty = copy(alloc, ty)?;
            fields.push(Field { name, ty })?;
            Ok(())
        }
        _ => Ok(()),
    }
}

// The fields among some declarations.
fn fields_of(
    alloc: Global,
    table: &Table,
    headings: &[Heading],
    numbers: &[u32],
) -> Result<Vec<Field>, AllocError>
    requires there { (i n : ℕ) → slice_get numbers.now i ≡ Some n → n < length table.now.entries.items }
    requires many { length headings.now ≡ length table.now.entries.items }
    ensures { IfOk result (λ fields. (m : ℕ) → AreHeaded (entries_of table.now.entries.items) m headings.now
        → FieldsAre (entries_of table.now.entries.items) m numbers.now (view_fields fields.items)) }
{
    let mut fields = Vec::new(alloc);
    for number in numbers {
        push_field(alloc, table, headings, *number, &mut fields)?;
    }
    Ok(fields)
}

// Adds a declaration to the variants, if it is one.
fn push_variant(
    alloc: Global,
    table: &Table,
    headings: &[Heading],
    inside: &[Vec<u32>],
    number: u32,
    variants: &mut Vec<Variant>,
) -> Result<(), AllocError>
    requires there { number < length table.now.entries.items }
    requires many { length headings.now ≡ length table.now.entries.items }
    requires inside { AreInside (entries_of table.now.entries.items) (rows inside.now) }
    ensures { OnOk result ((m : ℕ) (ks : List ℕ) → AreHeaded (entries_of table.now.entries.items) m headings.now
        → VariantsAre (entries_of table.now.entries.items) m ks (map view_variant variants.old.items)
        → VariantsAre (entries_of table.now.entries.items) m (ks ++ number ∷ []) (map view_variant variants.new.items)) }
{
    let entry = table.entries[number as usize];
    match entry.row.declared {
        Declared::Case(_fields) => {
            let fields = fields_of(alloc, table, headings, &inside[number as usize])?;
            let name = entry.row.name.text.clone()?;
            variants.push(Variant { name, fields })?;
            Ok(())
        }
        _ => Ok(()),
    }
}

// The variants among some declarations.
fn variants_of(
    alloc: Global,
    table: &Table,
    headings: &[Heading],
    inside: &[Vec<u32>],
    numbers: &[u32],
) -> Result<Vec<Variant>, AllocError>
    requires there { (i n : ℕ) → slice_get numbers.now i ≡ Some n → n < length table.now.entries.items }
    requires many { length headings.now ≡ length table.now.entries.items }
    requires inside { AreInside (entries_of table.now.entries.items) (rows inside.now) }
    ensures { IfOk result (λ variants. (m : ℕ) → AreHeaded (entries_of table.now.entries.items) m headings.now
        → VariantsAre (entries_of table.now.entries.items) m numbers.now (map view_variant variants.items)) }
{
    let mut variants = Vec::new(alloc);
    for number in numbers {
        push_variant(alloc, table, headings, inside, *number, &mut variants)?;
    }
    Ok(variants)
}

// Adds a declaration to the adts, if it is one.
fn push_adt(
    alloc: Global,
    table: &Table,
    headings: &[Heading],
    inside: &[Vec<u32>],
    number: u32,
    adts: &mut Vec<AdtDef>,
) -> Result<(), AllocError>
    requires there { number < length table.now.entries.items }
    requires many { length headings.now ≡ length table.now.entries.items }
    requires inside { AreInside (entries_of table.now.entries.items) (rows inside.now) }
    ensures { OnOk result ((m : ℕ) → AreHeaded (entries_of table.now.entries.items) m headings.now
        → AdtsTo (entries_of table.now.entries.items) m number (view_defs adts.old.items)
        → AdtsTo (entries_of table.now.entries.items) m (number + 1) (view_defs adts.new.items)) }
{
    let entry = table.entries[number as usize];
    match entry.row.declared {
        Declared::Adt { .. } => {
            let numbers = &inside[number as usize];
            let fields = fields_of(alloc, table, headings, numbers)?;
            let picks = variants_of(alloc, table, headings, inside, numbers)?;
            let name = entry.row.name.text.clone()?;
            adts.push(AdtDef {
                name,
                fields,
                picks,
            })?;
            Ok(())
        }
        _ => Ok(()),
    }
}

/// The adts that a table declares, each at the number by which types name it, by what is told of its declarations.
///
/// # Errors
/// Want of memory.
pub fn define_adts(
    alloc: Global,
    table: &Table,
    headings: &[Heading],
) -> Result<Vec<AdtDef>, AllocError>
    requires many { length headings.now ≡ length table.now.entries.items }
    ensures { IfOk result (λ adts. (m : ℕ) → AreHeaded (entries_of table.now.entries.items) m headings.now
        → AdtsAre (entries_of table.now.entries.items) m 0 (entries_of table.now.entries.items) (view_defs adts.items)) }
{
    let inside = find_inside(alloc, table)?;
    let mut adts = Vec::new(alloc);
    for number in 0..table.entries.len() as u32 {
        push_adt(alloc, table, headings, &inside, number, &mut adts)?;
    }
    Ok(adts)
}
