//! Types, the initial data, links, imports and handlers (dis(6)).

ghost use Rattle.std.specs.List.{flat_map};
ghost use Rattle.dis_format.specs.Parts.{type_parts, types_parts, item_parts, link_parts, import_parts, arm_parts, catch_parts};
ghost use Rattle.dis_format.specs.Parts.{counted};
ghost use Rattle.dis_format.specs.Writing.{Writes, put_all};

use crate::fields::{put_below, put_bytes, put_item_start, put_name, put_natural, put_word};
use dis_file::{Catch, CatchArm, Import, Item, LinkEntry, TypeDesc};
use dis_format::FileFault;
use inf_text::Seq;
use std::alloc::Global;

#[tactic(auto, unfolding(dis_format::specs::Parts::type_parts))]
fn put_type(out: &mut Vec<u8>, place: usize, desc: &TypeDesc) -> Result<(), FileFault>
    ensures { Writes (λ _. out.new.items) result (put_all out.old.items (type_parts place desc.now)) }
{
    put_natural(out, place)?;
    put_natural(out, desc.size as usize)?;
    put_natural(out, desc.map.len())?;
    put_bytes(out, desc.map.as_slice())
}

/// Types, numbered from 0.
pub fn put_types(out: &mut Vec<u8>, types: &[TypeDesc]) -> Result<(), FileFault>
    ensures { Writes (λ _. out.new.items) result (put_all out.old.items (types_parts 0 types.now)) }
{
    for (place, desc) in types.iter().enumerate() {
        put_type(out, place, desc)?;
    }
    Ok(())
}

/// A piece of the initial data.
#[tactic(auto, unfolding(dis_format::specs::Parts::item_parts))]
fn put_item(out: &mut Vec<u8>, item: &Item) -> Result<(), FileFault>
    ensures { Writes (λ _. out.new.items) result (put_all out.old.items (item_parts item.now)) }
{
    put_item_start(out, item.kind, item.count)?;
    put_natural(out, item.offset as usize)?;
    put_bytes(out, item.content.as_slice())
}

pub fn put_items(out: &mut Vec<u8>, items: &[Item]) -> Result<(), FileFault>
    ensures { Writes (λ _. out.new.items) result (put_all out.old.items (flat_map item_parts items.now)) }
{
    for item in items {
        put_item(out, item)?;
    }
    Ok(())
}

#[tactic(auto, unfolding(dis_format::specs::Parts::link_parts))]
fn put_link(alloc: Global, out: &mut Vec<u8>, link: &LinkEntry) -> Result<(), FileFault>
    ensures { Writes (λ _. out.new.items) result (put_all out.old.items (link_parts link.now)) }
{
    put_natural(out, link.pc as usize)?;
    put_natural(out, link.frame as usize)?;
    put_word(out, link.sign)?;
    put_name(alloc, out, &link.name)
}

pub fn put_links(alloc: Global, out: &mut Vec<u8>, links: &[LinkEntry]) -> Result<(), FileFault>
    ensures { Writes (λ _. out.new.items) result (put_all out.old.items (flat_map link_parts links.now)) }
{
    for link in links {
        put_link(alloc, out, link)?;
    }
    Ok(())
}

#[tactic(auto, unfolding(dis_format::specs::Parts::import_parts))]
fn put_import(alloc: Global, out: &mut Vec<u8>, import: &Import) -> Result<(), FileFault>
    ensures { Writes (λ _. out.new.items) result (put_all out.old.items (import_parts import.now)) }
{
    put_word(out, import.sign)?;
    put_name(alloc, out, &import.name)
}

fn put_imports(alloc: Global, out: &mut Vec<u8>, imports: &[Import]) -> Result<(), FileFault>
    ensures { Writes (λ _. out.new.items) result (put_all out.old.items (flat_map import_parts imports.now)) }
{
    for import in imports {
        put_import(alloc, out, import)?;
    }
    Ok(())
}

/// A table of imports behind the number of its entries.
fn put_table(alloc: Global, out: &mut Vec<u8>, table: &Seq<Import>) -> Result<(), FileFault>
    ensures { Writes (λ _. out.new.items) result (put_all out.old.items (counted import_parts table.now)) }
{
    put_natural(out, table.len())?;
    put_imports(alloc, out, table.as_slice())
}

fn put_tables(alloc: Global, out: &mut Vec<u8>, tables: &[Seq<Import>]) -> Result<(), FileFault>
    ensures { Writes (λ _. out.new.items) result (put_all out.old.items (flat_map (counted import_parts) tables.now)) }
{
    for table in tables {
        put_table(alloc, out, table)?;
    }
    Ok(())
}

/// The tables of imports behind their number.
pub fn put_import_section(
    alloc: Global,
    out: &mut Vec<u8>,
    tables: &[Seq<Import>],
) -> Result<(), FileFault>
    ensures { Writes (λ _. out.new.items) result (put_all out.old.items (counted (counted import_parts) tables.now)) }
{
    put_natural(out, tables.len())?;
    put_tables(alloc, out, tables)
}

/// An arm of a handler.
#[tactic(auto, unfolding(dis_format::specs::Parts::arm_parts))]
fn put_arm(alloc: Global, out: &mut Vec<u8>, arm: &CatchArm) -> Result<(), FileFault>
    ensures { Writes (λ _. out.new.items) result (put_all out.old.items (arm_parts arm.now)) }
{
    let text = arm.text.to_utf8(alloc)?;
    put_below(out, 4, arm.kind)?;
    put_natural(out, text.len())?;
    put_bytes(out, text.as_slice())?;
    put_natural(out, arm.pc as usize)
}

fn put_arms(alloc: Global, out: &mut Vec<u8>, arms: &[CatchArm]) -> Result<(), FileFault>
    ensures { Writes (λ _. out.new.items) result (put_all out.old.items (flat_map arm_parts arms.now)) }
{
    for arm in arms {
        put_arm(alloc, out, arm)?;
    }
    Ok(())
}

/// A handler.
#[tactic(auto, unfolding(dis_format::specs::Parts::catch_parts))]
fn put_catch(alloc: Global, out: &mut Vec<u8>, handler: &Catch) -> Result<(), FileFault>
    ensures { Writes (λ _. out.new.items) result (put_all out.old.items (catch_parts handler.now)) }
{
    put_natural(out, handler.first as usize)?;
    put_natural(out, handler.end as usize)?;
    put_natural(out, handler.offset as usize)?;
    put_natural(out, handler.arms.len())?;
    put_arms(alloc, out, handler.arms.as_slice())
}

fn put_catches(alloc: Global, out: &mut Vec<u8>, handlers: &[Catch]) -> Result<(), FileFault>
    ensures { Writes (λ _. out.new.items) result (put_all out.old.items (flat_map catch_parts handlers.now)) }
{
    for handler in handlers {
        put_catch(alloc, out, handler)?;
    }
    Ok(())
}

/// The handlers behind their number.
pub fn put_catch_section(
    alloc: Global,
    out: &mut Vec<u8>,
    handlers: &[Catch],
) -> Result<(), FileFault>
    ensures { Writes (λ _. out.new.items) result (put_all out.old.items (counted catch_parts handlers.now)) }
{
    put_natural(out, handlers.len())?;
    put_catches(alloc, out, handlers)
}
