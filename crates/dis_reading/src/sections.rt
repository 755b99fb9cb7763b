//! Links, imports and handlers (dis(6)).

ghost use Rattle.dis_format.specs.Reading.{Gives, linked_at, link_at, import_at, arm_at, catch_at, many, counted_at, section_at};
ghost use Rattle.dis_format.specs.Parts.{has_imports, has_catches};

use crate::fields::{below_at, name_at, natural_at, refused, utf8_at, word_at};
use dis_file::{Catch, CatchArm, Import, LinkEntry};
use dis_format::{Cause, ReadFault};
use inf_text::Seq;
use std::alloc::Global;

/// The number of an instruction or a type, of which there are so many.
#[tactic(auto, unfolding(dis_format::specs::Reading::linked_at))]
fn linked_at(limit: u32, bytes: &[u8]) -> Result<(u32, &[u8]), ReadFault>
    ensures { Gives (λ x. (x.0, x.1.now)) result (linked_at limit bytes.now) }
{
    let (number, rest) = natural_at(bytes)?;
    if number < limit {
        Ok((number, rest))
    } else {
        Err(refused(Cause::BadLink, bytes))
    }
}

#[tactic(auto, unfolding(dis_format::specs::Reading::link_at))]
fn link_at(
    alloc: Global,
    code: u32,
    types: u32,
    bytes: &[u8],
) -> Result<(LinkEntry, &[u8]), ReadFault>
    ensures { Gives (λ x. (x.0, x.1.now)) result (link_at code types bytes.now) }
{
    let (pc, rest) = linked_at(code, bytes)?;
    let (frame, rest) = linked_at(types, rest)?;
    let (sign, rest) = word_at(rest)?;
    let (name, rest) = name_at(alloc, rest)?;
    let link = LinkEntry {
        pc,
        frame,
        sign,
        name,
    };
    Ok((link, rest))
}

/// So many links, into so many instructions and types.
pub fn links_at(
    alloc: Global,
    code: u32,
    types: u32,
    count: u32,
    bytes: &[u8],
) -> Result<(Vec<LinkEntry>, &[u8]), ReadFault>
    ensures { Gives (λ x. (x.0.items, x.1.now)) result (many (link_at code types) count bytes.now) }
{
    let mut links = Vec::with_capacity(alloc, (count as usize).min(bytes.len()))?;
    let mut rest = bytes;
    for _ in 0..count {
        let (link, after) = link_at(alloc, code, types, rest)?;
        links.push(link)?;
        rest = after;
    }
    Ok((links, rest))
}

#[tactic(auto, unfolding(dis_format::specs::Reading::import_at))]
fn import_at(alloc: Global, bytes: &[u8]) -> Result<(Import, &[u8]), ReadFault>
    ensures { Gives (λ x. (x.0, x.1.now)) result (import_at bytes.now) }
{
    let (sign, rest) = word_at(bytes)?;
    let (name, rest) = name_at(alloc, rest)?;
    Ok((Import { sign, name }, rest))
}

fn imports_at(alloc: Global, count: u32, bytes: &[u8]) -> Result<(Vec<Import>, &[u8]), ReadFault>
    ensures { Gives (λ x. (x.0.items, x.1.now)) result (many import_at count bytes.now) }
{
    let mut imports = Vec::with_capacity(alloc, (count as usize).min(bytes.len()))?;
    let mut rest = bytes;
    for _ in 0..count {
        let (import, after) = import_at(alloc, rest)?;
        imports.push(import)?;
        rest = after;
    }
    Ok((imports, rest))
}

/// A table of imports: the functions of one module.
#[tactic(auto, unfolding(dis_format::specs::Reading::counted_at))]
fn table_at(alloc: Global, bytes: &[u8]) -> Result<(Seq<Import>, &[u8]), ReadFault>
    ensures { Gives (λ x. (x.0, x.1.now)) result (counted_at import_at bytes.now) }
{
    let (count, rest) = natural_at(bytes)?;
    let (imports, rest) = imports_at(alloc, count, rest)?;
    Ok((Seq::from_vec(imports), rest))
}

fn tables_at(
    alloc: Global,
    count: u32,
    bytes: &[u8],
) -> Result<(Vec<Seq<Import>>, &[u8]), ReadFault>
    ensures { Gives (λ x. (x.0.items, x.1.now)) result (many (counted_at import_at) count bytes.now) }
{
    let mut tables = Vec::with_capacity(alloc, (count as usize).min(bytes.len()))?;
    let mut rest = bytes;
    for _ in 0..count {
        let (table, after) = table_at(alloc, rest)?;
        tables.push(table)?;
        rest = after;
    }
    Ok((tables, rest))
}

/// The tables of imports, where a flag says that there are any.
#[tactic(auto, unfolding(dis_format::specs::Reading::section_at, dis_format::specs::Reading::counted_at))]
pub fn import_section(
    alloc: Global,
    there: bool,
    bytes: &[u8],
) -> Result<(Seq<Seq<Import>>, &[u8]), ReadFault>
    ensures { Gives (λ x. (x.0, x.1.now)) result (section_at there (counted_at import_at) bytes.now) }
{
    if !there {
        return Ok((Seq::new(alloc), bytes));
    }
    let (count, rest) = natural_at(bytes)?;
    let (tables, rest) = tables_at(alloc, count, rest)?;
    Ok((Seq::from_vec(tables), rest))
}

/// An arm of a handler.
#[tactic(auto, unfolding(dis_format::specs::Reading::arm_at))]
fn arm_at(alloc: Global, bytes: &[u8]) -> Result<(CatchArm, &[u8]), ReadFault>
    ensures { Gives (λ x. (x.0, x.1.now)) result (arm_at bytes.now) }
{
    let (kind, rest) = below_at(4, bytes)?;
    let (len, rest) = natural_at(rest)?;
    let (text, rest) = utf8_at(alloc, len as usize, rest)?;
    let (pc, rest) = natural_at(rest)?;
    Ok((CatchArm { kind, text, pc }, rest))
}

fn arms_at(alloc: Global, count: u32, bytes: &[u8]) -> Result<(Vec<CatchArm>, &[u8]), ReadFault>
    ensures { Gives (λ x. (x.0.items, x.1.now)) result (many arm_at count bytes.now) }
{
    let mut arms = Vec::with_capacity(alloc, (count as usize).min(bytes.len()))?;
    let mut rest = bytes;
    for _ in 0..count {
        let (arm, after) = arm_at(alloc, rest)?;
        arms.push(arm)?;
        rest = after;
    }
    Ok((arms, rest))
}

#[tactic(auto, unfolding(dis_format::specs::Reading::counted_at))]
fn arm_table_at(alloc: Global, bytes: &[u8]) -> Result<(Seq<CatchArm>, &[u8]), ReadFault>
    ensures { Gives (λ x. (x.0, x.1.now)) result (counted_at arm_at bytes.now) }
{
    let (count, rest) = natural_at(bytes)?;
    let (arms, rest) = arms_at(alloc, count, rest)?;
    Ok((Seq::from_vec(arms), rest))
}

/// A handler.
#[tactic(auto, unfolding(dis_format::specs::Reading::catch_at))]
fn catch_at(alloc: Global, bytes: &[u8]) -> Result<(Catch, &[u8]), ReadFault>
    ensures { Gives (λ x. (x.0, x.1.now)) result (catch_at bytes.now) }
{
    let (first, rest) = natural_at(bytes)?;
    let (end, rest) = natural_at(rest)?;
    let (offset, rest) = natural_at(rest)?;
    let (arms, rest) = arm_table_at(alloc, rest)?;
    let handler = Catch {
        first,
        end,
        offset,
        arms,
    };
    Ok((handler, rest))
}

fn catches_at(alloc: Global, count: u32, bytes: &[u8]) -> Result<(Vec<Catch>, &[u8]), ReadFault>
    ensures { Gives (λ x. (x.0.items, x.1.now)) result (many catch_at count bytes.now) }
{
    let mut handlers = Vec::with_capacity(alloc, (count as usize).min(bytes.len()))?;
    let mut rest = bytes;
    for _ in 0..count {
        let (handler, after) = catch_at(alloc, rest)?;
        handlers.push(handler)?;
        rest = after;
    }
    Ok((handlers, rest))
}

/// The handlers, where a flag says that there are any.
#[tactic(auto, unfolding(dis_format::specs::Reading::section_at, dis_format::specs::Reading::counted_at))]
pub fn catch_section(
    alloc: Global,
    there: bool,
    bytes: &[u8],
) -> Result<(Seq<Catch>, &[u8]), ReadFault>
    ensures { Gives (λ x. (x.0, x.1.now)) result (section_at there catch_at bytes.now) }
{
    if !there {
        return Ok((Seq::new(alloc), bytes));
    }
    let (count, rest) = natural_at(bytes)?;
    let (handlers, rest) = catches_at(alloc, count, rest)?;
    Ok((Seq::from_vec(handlers), rest))
}
