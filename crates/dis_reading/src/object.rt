//! The whole of an object file.

ghost use Rattle.std.specs.Prelude.{◌≡◌};
ghost use Rattle.dis_format.specs.Reading.{Gives, magic_at, flags_at, data_size_at, type_count_at, header_at, Body as Parts};
ghost use Rattle.dis_format.specs.Reading.{body_at, fields_at, object_at};
ghost use Rattle.dis_reading.specs.Body.{body_of};

use crate::data::data_at;
use crate::fields::{name_at, natural_at, operand_at, refused};
use crate::instructions::insts_at;
use crate::sections::{catch_section, import_section, links_at};
use crate::types::types_of;
use dis_file::{Item, LinkEntry, Object, TypeDesc};
use dis_format::{Cause, Header, ReadFault};
use dis_isa::Inst;
use inf_text::{Seq, Text};
use std::alloc::Global;

/// The first number of an object file, and of a signed one.
const MAGIC: i32 = 819_248;

const SIGNED_MAGIC: i32 = 923_426;

#[tactic(auto, unfolding(dis_format::specs::Reading::magic_at))]
fn magic_at(bytes: &[u8]) -> Result<((), &[u8]), ReadFault>
    ensures { Gives (λ x. (x.0, x.1.now)) result (magic_at bytes.now) }
{
    let (number, rest) = operand_at(bytes)?;
    if number == MAGIC {
        Ok(((), rest))
    } else if number == SIGNED_MAGIC {
        Err(refused(Cause::Signed, bytes))
    } else {
        Err(refused(Cause::Magic, bytes))
    }
}

#[tactic(auto, unfolding(dis_format::specs::Reading::flags_at))]
fn flags_at(bytes: &[u8]) -> Result<(u32, &[u8]), ReadFault>
    ensures { Gives (λ x. (x.0, x.1.now)) result (flags_at bytes.now) }
{
    let (number, rest) = operand_at(bytes)?;
    match number {
        0 => Ok((0, rest)),
        0x100 => Ok((0x100, rest)),
        0x200 => Ok((0x200, rest)),
        0x300 => Ok((0x300, rest)),
        _ => Err(refused(Cause::BadFlags, bytes)),
    }
}

#[tactic(auto, unfolding(dis_format::specs::Reading::data_size_at))]
fn data_size_at(bytes: &[u8]) -> Result<(u32, &[u8]), ReadFault>
    ensures { Gives (λ x. (x.0, x.1.now)) result (data_size_at bytes.now) }
{
    let (size, rest) = natural_at(bytes)?;
    if size <= 268_435_456 {
        Ok((size, rest))
    } else {
        Err(refused(Cause::BadData, bytes))
    }
}

/// How many types there are: where there is data, one at least.
#[tactic(auto, unfolding(dis_format::specs::Reading::type_count_at))]
fn type_count_at(data_size: u32, bytes: &[u8]) -> Result<(u32, &[u8]), ReadFault>
    ensures { Gives (λ x. (x.0, x.1.now)) result (type_count_at data_size bytes.now) }
{
    let (count, rest) = natural_at(bytes)?;
    if data_size == 0 || count > 0 {
        Ok((count, rest))
    } else {
        Err(refused(Cause::BadType, bytes))
    }
}

#[tactic(auto, unfolding(dis_format::specs::Reading::header_at))]
fn header_at(bytes: &[u8]) -> Result<(Header, &[u8]), ReadFault>
    ensures { Gives (λ x. (x.0, x.1.now)) result (header_at bytes.now) }
{
    let (_, rest) = magic_at(bytes)?;
    let (flags, rest) = flags_at(rest)?;
    let (stack, rest) = natural_at(rest)?;
    let (code, rest) = natural_at(rest)?;
    let (data_size, rest) = data_size_at(rest)?;
    let (types, rest) = type_count_at(data_size, rest)?;
    let (links, rest) = natural_at(rest)?;
    let (entry_pc, rest) = natural_at(rest)?;
    let (entry_type, rest) = natural_at(rest)?;
    let header = Header {
        flags,
        stack,
        code,
        data_size,
        types,
        links,
        entry_pc,
        entry_type,
    };
    Ok((header, rest))
}

/// What stands between the header and the sections behind flags.
#[derive(Drop)]
pub struct Body {
    pub insts: Seq<Inst>,
    pub types: Seq<TypeDesc>,
    pub items: Seq<Item>,
    pub name: Text,
    pub links: Seq<LinkEntry>,
}

#[tactic(auto, unfolding(dis_format::specs::Reading::body_at))]
fn body_at<'a>(
    alloc: Global,
    header: &Header,
    bytes: &'a [u8],
) -> Result<(Body, &'a [u8]), ReadFault>
    ensures { Gives (λ x. (body_of x.0, x.1.now)) result (body_at header.now bytes.now) }
{
    let (insts, rest) = insts_at(alloc, header.code, bytes)?;
    let (types, rest) = types_of(alloc, header.data_size, header.types, rest)?;
    let (items, rest) = data_at(alloc, types.as_slice(), header.data_size, rest)?;
    let (name, rest) = name_at(alloc, rest)?;
    let (links, rest) = links_at(alloc, header.code, header.types, header.links, rest)?;
    let body = Body {
        insts: Seq::from_vec(insts),
        types: Seq::from_vec(types),
        items: Seq::from_vec(items),
        name,
        links: Seq::from_vec(links),
    };
    Ok((body, rest))
}

#[tactic(auto, unfolding(dis_format::specs::Reading::fields_at))]
fn fields_at(alloc: Global, bytes: &[u8]) -> Result<(Object, &[u8]), ReadFault>
    ensures { Gives (λ x. (x.0, x.1.now)) result (fields_at bytes.now) }
{
    let (header, rest) = header_at(bytes)?;
    let (body, rest) = body_at(alloc, &header, rest)?;
    let has_imports = header.flags == 0x100 || header.flags == 0x300;
    let (imports, rest) = import_section(alloc, has_imports, rest)?;
    let has_catches = header.flags == 0x200 || header.flags == 0x300;
    let (catches, rest) = catch_section(alloc, has_catches, rest)?;
    let Body {
        insts,
        types,
        items,
        name,
        links,
    } = body;
    let object = Object {
        flags: header.flags,
        stack: header.stack,
        data_size: header.data_size,
        entry_pc: header.entry_pc,
        entry_type: header.entry_type,
        insts,
        types,
        items,
        module: name,
        links,
        imports,
        catches,
    };
    Ok((object, rest))
}

/// The object that all of the bytes spell.
#[tactic(auto, unfolding(dis_format::specs::Reading::object_at))]
pub fn object_of(alloc: Global, bytes: &[u8]) -> Result<Object, ReadFault>
    ensures { Gives (λ o. o) result (object_at bytes.now) }
{
    let (object, rest) = fields_at(alloc, bytes)?;
    if rest.is_empty() {
        Ok(object)
    } else {
        Err(refused(Cause::Trailing, rest))
    }
}
