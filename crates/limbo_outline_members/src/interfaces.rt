//! The module types of a source.

ghost use Rattle.std.specs.Prelude.{◌≡◌, ◌<◌, ◌+◌, ℕ, length, map, IfOk, OnOk};
ghost use Rattle.limbo_types.specs.View.{view_fn};
ghost use Rattle.limbo_typed.specs.View.{view_signature, view_interface};
ghost use Rattle.limbo_entries.specs.View.{entries_of};
ghost use Rattle.limbo_outline.specs.limbo_source_adts.Definitions.{AreHeaded};
ghost use Rattle.limbo_outline_members.specs.Members.{SignaturesTo, SignaturesAre, InterfacesTo, InterfacesAre};

use inf_text::Text;
use limbo_entries::Table;
use limbo_exports::is_called;
use limbo_headers::{Header, Heading};
use limbo_meanings::{Kind, is_of_kind};
use limbo_typed::{Interface, Signature};
use limbo_types::copy_fn;
use std::alloc::{AllocError, Global};

// A function as a module type declares it.
fn signature(alloc: Global, name: &Text, header: &Header) -> Result<Signature, AllocError>
    ensures name { IfOk result (λ s. s.name ≡ name.now) }
    ensures of { IfOk result (λ s. view_fn s.of ≡ view_fn header.now.of) }
{
    let name = name.clone()?;
    Ok(Signature {
        name,
        of: copy_fn(alloc, &header.of)?,
    })
}

// Adds a declaration, if it is a function of the module type of a number.
fn push_signature(
    alloc: Global,
    table: &Table,
    builtin: Option<u32>,
    headings: &[Heading],
    outer: u32,
    number: u32,
    signatures: &mut Vec<Signature>,
) -> Result<(), AllocError>
    requires there { number < length table.now.entries.items }
    requires many { length headings.now ≡ length table.now.entries.items }
    ensures { OnOk result ((m : ℕ) → AreHeaded (entries_of table.now.entries.items) m headings.now
        → SignaturesTo (entries_of table.now.entries.items) m builtin outer number (map view_signature signatures.old.items)
        → SignaturesTo (entries_of table.now.entries.items) m builtin outer (number + 1) (map view_signature signatures.new.items)) }
{
    let entry = table.entries[number as usize];
    if !is_called(builtin, Some(outer), entry) {
        return Ok(());
    }
    match &headings[number as usize] {
        Heading::Function(header) => {
            let told = signature(alloc, &entry.row.name.text, header)?;
            signatures.push(told)?;
            Ok(())
        }
        _ => Err(AllocError),
    }
}

// The functions of the module type of a number, in order, but for the prints of the built-in module.
fn list_signatures(
    alloc: Global,
    table: &Table,
    builtin: Option<u32>,
    headings: &[Heading],
    outer: u32,
) -> Result<Vec<Signature>, AllocError>
    requires many { length headings.now ≡ length table.now.entries.items }
    ensures { IfOk result (λ all. (m : ℕ) → AreHeaded (entries_of table.now.entries.items) m headings.now
        → SignaturesAre (entries_of table.now.entries.items) m builtin outer (map view_signature all.items)) }
{
    let mut signatures = Vec::new(alloc);
    for number in 0..table.entries.len() as u32 {
        push_signature(
            alloc,
            table,
            builtin,
            headings,
            outer,
            number,
            &mut signatures,
        )?;
    }
    Ok(signatures)
}

// Adds a declaration, if it is a module type.
fn push_interface(
    alloc: Global,
    table: &Table,
    implemented: u32,
    builtin: Option<u32>,
    headings: &[Heading],
    number: u32,
    interfaces: &mut Vec<Interface>,
) -> Result<(), AllocError>
    requires there { number < length table.now.entries.items }
    requires many { length headings.now ≡ length table.now.entries.items }
    requires headed { AreHeaded (entries_of table.now.entries.items) implemented headings.now }
    ensures { OnOk result (InterfacesTo (entries_of table.now.entries.items) implemented builtin number
        (map view_interface interfaces.old.items)
        → InterfacesTo (entries_of table.now.entries.items) implemented builtin (number + 1) (map view_interface interfaces.new.items)) }
{
    let entry = table.entries[number as usize];
    if !is_of_kind(table, implemented, Kind::Module, entry) {
        return Ok(());
    }
    let name = entry.row.name.text.clone()?;
    let functions = list_signatures(alloc, table, builtin, headings, number)?;
    interfaces.push(Interface { name, functions })?;
    Ok(())
}

/// The module types of a table, in order, by what is told of its declarations. The built-in module has this number; its prints are not
/// among its functions.
///
/// # Errors
/// Want of memory.
pub fn list_interfaces(
    alloc: Global,
    table: &Table,
    implemented: u32,
    builtin: Option<u32>,
    headings: &[Heading],
) -> Result<Vec<Interface>, AllocError>
    requires many { length headings.now ≡ length table.now.entries.items }
    requires headed { AreHeaded (entries_of table.now.entries.items) implemented headings.now }
    ensures { IfOk result (λ all. InterfacesAre (entries_of table.now.entries.items) implemented builtin (map view_interface all.items)) }
{
    let mut interfaces = Vec::new(alloc);
    for number in 0..table.entries.len() as u32 {
        push_interface(
            alloc,
            table,
            implemented,
            builtin,
            headings,
            number,
            &mut interfaces,
        )?;
    }
    Ok(interfaces)
}
