//! Lines of types, of the initial data, of links, imports and handlers.

ghost use Rattle.std.specs.Prelude.{◌≡◌, ◌++◌, OnOk};
ghost use Rattle.std.specs.List.{flat_map};
ghost use Rattle.dis_text.specs.Listing.{type_line, item_line, link_line, import_line, arm_text, catch_line};
ghost use Rattle.dis_text.specs.Listing.{numbered, table_lines};

use crate::words::{put_column, put_hex, put_number, put_signature, put_text};
use dis_file::{Catch, CatchArm, Import, Item, LinkEntry, TypeDesc};
use inf_text::Seq;
use std::alloc::{AllocError, Global};

#[tactic(auto, unfolding(crate::specs::Listing::type_line))]
fn put_type(out: &mut Vec<u8>, place: usize, desc: &TypeDesc) -> Result<(), AllocError>
    ensures { OnOk result (out.new.items ≡ out.old.items ++ type_line place desc.now) }
{
    put_number(out, place)?;
    out.extend_from_slice(b" size ")?;
    put_number(out, desc.size as usize)?;
    out.extend_from_slice(b" map ")?;
    put_hex(out, desc.map.as_slice())?;
    out.extend_from_slice(b"\n")
}

/// A line for each type, numbered from 0.
pub fn put_types(out: &mut Vec<u8>, types: &[TypeDesc]) -> Result<(), AllocError>
    ensures { OnOk result (out.new.items ≡ out.old.items ++ numbered type_line 0 types.now) }
{
    for (place, desc) in types.iter().enumerate() {
        put_type(out, place, desc)?;
    }
    Ok(())
}

#[tactic(auto, unfolding(crate::specs::Listing::item_line))]
fn put_item(out: &mut Vec<u8>, item: &Item) -> Result<(), AllocError>
    ensures { OnOk result (out.new.items ≡ out.old.items ++ item_line item.now) }
{
    put_column(out, u32::from(item.kind))?;
    put_column(out, item.count)?;
    put_column(out, item.offset)?;
    put_hex(out, item.content.as_slice())?;
    out.extend_from_slice(b"\n")
}

/// A line for each piece of the initial data.
pub fn put_items(out: &mut Vec<u8>, items: &[Item]) -> Result<(), AllocError>
    ensures { OnOk result (out.new.items ≡ out.old.items ++ flat_map item_line items.now) }
{
    for item in items {
        put_item(out, item)?;
    }
    Ok(())
}

#[tactic(auto, unfolding(crate::specs::Listing::link_line))]
fn put_link(alloc: Global, out: &mut Vec<u8>, link: &LinkEntry) -> Result<(), AllocError>
    ensures { OnOk result (out.new.items ≡ out.old.items ++ link_line link.now) }
{
    put_column(out, link.pc)?;
    put_column(out, link.frame)?;
    put_signature(out, link.sign)?;
    out.extend_from_slice(b" ")?;
    put_text(alloc, out, &link.name)?;
    out.extend_from_slice(b"\n")
}

/// A line for each function that other modules may call.
pub fn put_links(alloc: Global, out: &mut Vec<u8>, links: &[LinkEntry]) -> Result<(), AllocError>
    ensures { OnOk result (out.new.items ≡ out.old.items ++ flat_map link_line links.now) }
{
    for link in links {
        put_link(alloc, out, link)?;
    }
    Ok(())
}

#[tactic(auto, unfolding(crate::specs::Listing::import_line))]
fn put_import(
    alloc: Global,
    out: &mut Vec<u8>,
    table: usize,
    import: &Import,
) -> Result<(), AllocError>
    ensures { OnOk result (out.new.items ≡ out.old.items ++ import_line table import.now) }
{
    out.extend_from_slice(b"table ")?;
    put_number(out, table)?;
    out.extend_from_slice(b" ")?;
    put_signature(out, import.sign)?;
    out.extend_from_slice(b" ")?;
    put_text(alloc, out, &import.name)?;
    out.extend_from_slice(b"\n")
}

fn put_table(
    alloc: Global,
    out: &mut Vec<u8>,
    table: usize,
    imports: &Seq<Import>,
) -> Result<(), AllocError>
    ensures { OnOk result (out.new.items ≡ out.old.items ++ table_lines table imports.now) }
{
    for import in imports.as_slice() {
        put_import(alloc, out, table, import)?;
    }
    Ok(())
}

/// A line for each entry of the tables, which are numbered from 0.
pub fn put_tables(
    alloc: Global,
    out: &mut Vec<u8>,
    tables: &[Seq<Import>],
) -> Result<(), AllocError>
    ensures { OnOk result (out.new.items ≡ out.old.items ++ numbered table_lines 0 tables.now) }
{
    for (number, imports) in tables.iter().enumerate() {
        put_table(alloc, out, number, imports)?;
    }
    Ok(())
}

/// An arm of a handler: its kind, its text in quotes, its pc.
#[tactic(auto, unfolding(crate::specs::Listing::arm_text))]
fn put_arm(alloc: Global, out: &mut Vec<u8>, arm: &CatchArm) -> Result<(), AllocError>
    ensures { OnOk result (out.new.items ≡ out.old.items ++ arm_text arm.now) }
{
    out.extend_from_slice(b" ")?;
    put_number(out, usize::from(arm.kind))?;
    out.extend_from_slice(b" \"")?;
    put_text(alloc, out, &arm.text)?;
    out.extend_from_slice(b"\" ")?;
    put_number(out, arm.pc as usize)
}

fn put_arms(alloc: Global, out: &mut Vec<u8>, arms: &[CatchArm]) -> Result<(), AllocError>
    ensures { OnOk result (out.new.items ≡ out.old.items ++ flat_map arm_text arms.now) }
{
    for arm in arms {
        put_arm(alloc, out, arm)?;
    }
    Ok(())
}

#[tactic(auto, unfolding(crate::specs::Listing::catch_line))]
fn put_catch(alloc: Global, out: &mut Vec<u8>, handler: &Catch) -> Result<(), AllocError>
    ensures { OnOk result (out.new.items ≡ out.old.items ++ catch_line handler.now) }
{
    put_column(out, handler.first)?;
    put_column(out, handler.end)?;
    put_number(out, handler.offset as usize)?;
    put_arms(alloc, out, handler.arms.as_slice())?;
    out.extend_from_slice(b"\n")
}

/// A line for each handler.
pub fn put_catches(alloc: Global, out: &mut Vec<u8>, handlers: &[Catch]) -> Result<(), AllocError>
    ensures { OnOk result (out.new.items ≡ out.old.items ++ flat_map catch_line handlers.now) }
{
    for handler in handlers {
        put_catch(alloc, out, handler)?;
    }
    Ok(())
}
