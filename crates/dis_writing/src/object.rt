//! An object's parts, one after the other.

ghost use Rattle.std.specs.Prelude.{◌≡◌, ◌++◌, ◌∷◌, [], length, pos, if◌then◌else◌};
ghost use Rattle.std.specs.List.{flat_map};
ghost use Rattle.dis_format.specs.Operands.{any};
ghost use Rattle.dis_format.specs.Parts as part;
ghost use Rattle.dis_format.specs.Parts.{object_parts, header_parts, body_parts, last_parts, has_imports, has_catches};
ghost use Rattle.dis_format.specs.Writing.{Writes, put, put_all, write_of};

use crate::fields::{put_any, put_byte, put_name, put_natural};
use crate::instructions::put_insts;
use crate::sections::{put_catch_section, put_import_section, put_items, put_links, put_types};
use dis_file::Object;
use dis_format::FileFault;
use std::alloc::Global;

/// The number that an object file begins with (dis(6), "Header").
const MAGIC: i32 = 819248;

fn put_flags(out: &mut Vec<u8>, flags: u32) -> Result<(), FileFault>
    ensures { Writes (λ _. out.new.items) result (put out.old.items (part.number any (pos flags))) }
{
    put_natural(out, flags as usize)
}

/// The numbers of how many there are of each thing.
fn put_counts(out: &mut Vec<u8>, o: &Object) -> Result<(), FileFault>
    ensures { Writes (λ _. out.new.items) result (put_all out.old.items
        (part.natural (length o.now.insts) ∷ part.natural o.now.data_size ∷ part.natural (length o.now.types)
        ∷ part.natural (length o.now.links) ∷ part.natural o.now.entry_pc ∷ part.natural o.now.entry_type ∷ [])) }
{
    put_natural(out, o.insts.len())?;
    put_natural(out, o.data_size as usize)?;
    put_natural(out, o.types.len())?;
    put_natural(out, o.links.len())?;
    put_natural(out, o.entry_pc as usize)?;
    put_natural(out, o.entry_type as usize)
}

#[tactic(auto, unfolding(dis_format::specs::Parts::header_parts))]
fn put_header(out: &mut Vec<u8>, o: &Object) -> Result<(), FileFault>
    ensures { Writes (λ _. out.new.items) result (put_all out.old.items (header_parts o.now)) }
{
    put_any(out, MAGIC)?;
    put_flags(out, o.flags)?;
    put_natural(out, o.stack as usize)?;
    put_counts(out, o)
}

/// The byte 0 that ends the data, the name, and the links.
fn put_behind_data(alloc: Global, out: &mut Vec<u8>, o: &Object) -> Result<(), FileFault>
    ensures { Writes (λ _. out.new.items) result (put_all out.old.items
        (part.byte 0 ∷ part.name o.now.«module» ∷ flat_map part.link_parts o.now.links)) }
{
    put_byte(out, 0)?;
    put_name(alloc, out, &o.module)?;
    put_links(alloc, out, o.links.as_slice())
}

/// The data and what stands behind it.
#[tactic(auto, using(crate::proofs::Steps::sections))]
fn put_behind_types(alloc: Global, out: &mut Vec<u8>, o: &Object) -> Result<(), FileFault>
    ensures { Writes (λ _. out.new.items) result (put_all out.old.items
        (flat_map part.item_parts o.now.items
        ++ (part.byte 0 ∷ part.name o.now.«module» ∷ flat_map part.link_parts o.now.links))) }
{
    put_items(out, o.items.as_slice())?;
    put_behind_data(alloc, out, o)
}

/// The types and what stands behind them.
#[tactic(auto, using(crate::proofs::Steps::sections))]
fn put_behind_code(alloc: Global, out: &mut Vec<u8>, o: &Object) -> Result<(), FileFault>
    ensures { Writes (λ _. out.new.items) result (put_all out.old.items
        (part.types_parts 0 o.now.types ++ (flat_map part.item_parts o.now.items
        ++ (part.byte 0 ∷ part.name o.now.«module» ∷ flat_map part.link_parts o.now.links)))) }
{
    put_types(out, o.types.as_slice())?;
    put_behind_types(alloc, out, o)
}

#[tactic(auto, using(crate::proofs::Steps::sections), unfolding(dis_format::specs::Parts::body_parts))]
fn put_body(alloc: Global, out: &mut Vec<u8>, o: &Object) -> Result<(), FileFault>
    ensures { Writes (λ _. out.new.items) result (put_all out.old.items (body_parts o.now)) }
{
    put_insts(out, o.insts.as_slice())?;
    put_behind_code(alloc, out, o)
}

fn has_imports(flags: u32) -> bool
    ensures { result ≡ has_imports flags }
{
    flags == 0x100 || flags == 0x300
}

fn has_catches(flags: u32) -> bool
    ensures { result ≡ has_catches flags }
{
    flags == 0x200 || flags == 0x300
}

/// The tables of imports, where a flag says that there are any.
fn put_flagged_imports(alloc: Global, out: &mut Vec<u8>, o: &Object) -> Result<(), FileFault>
    ensures { Writes (λ _. out.new.items) result (put_all out.old.items
        (if has_imports o.now.flags then part.counted (part.counted part.import_parts) o.now.imports else [])) }
{
    if has_imports(o.flags) {
        put_import_section(alloc, out, o.imports.as_slice())
    } else {
        Ok(())
    }
}

/// The handlers, where a flag says that there are any.
fn put_flagged_catches(alloc: Global, out: &mut Vec<u8>, o: &Object) -> Result<(), FileFault>
    ensures { Writes (λ _. out.new.items) result (put_all out.old.items
        (if has_catches o.now.flags then part.counted part.catch_parts o.now.catches else [])) }
{
    if has_catches(o.flags) {
        put_catch_section(alloc, out, o.catches.as_slice())
    } else {
        Ok(())
    }
}

#[tactic(auto, using(crate::proofs::Steps::sections), unfolding(dis_format::specs::Parts::last_parts))]
fn put_last(alloc: Global, out: &mut Vec<u8>, o: &Object) -> Result<(), FileFault>
    ensures { Writes (λ _. out.new.items) result (put_all out.old.items (last_parts o.now)) }
{
    put_flagged_imports(alloc, out, o)?;
    put_flagged_catches(alloc, out, o)
}

#[tactic(auto, using(crate::proofs::Steps::sections))]
fn put_behind_header(alloc: Global, out: &mut Vec<u8>, o: &Object) -> Result<(), FileFault>
    ensures { Writes (λ _. out.new.items) result (put_all out.old.items (body_parts o.now ++ last_parts o.now)) }
{
    put_body(alloc, out, o)?;
    put_last(alloc, out, o)
}

/// All parts of an object.
#[tactic(auto, using(crate::proofs::Steps::sections))]
fn put_object(alloc: Global, out: &mut Vec<u8>, o: &Object) -> Result<(), FileFault>
    ensures { Writes (λ _. out.new.items) result (put_all out.old.items (object_parts o.now)) }
{
    put_header(out, o)?;
    put_behind_header(alloc, out, o)
}

pub fn object(alloc: Global, o: &Object) -> Result<Vec<u8>, FileFault>
    ensures { Writes (λ v. v.items) result (write_of o.now) }
{
    let mut out = Vec::new(alloc);
    put_object(alloc, &mut out, o)?;
    Ok(out)
}
