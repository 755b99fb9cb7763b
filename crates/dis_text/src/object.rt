//! The sections of a listing, one after the other.

ghost use Rattle.std.specs.Prelude.{◌≡◌, ◌++◌, OnOk, codes, length, encode_utf8_all};
ghost use Rattle.std.specs.Fmt.{decimal};
ghost use Rattle.std.specs.List.{flat_map};
ghost use Rattle.dis_format.specs.Parts.{has_imports, has_catches};
ghost use Rattle.dis_text.specs.Listing.{◌␣◌, listing_of, entry_line, head_line, numbered, imports_lines, catches_lines};
ghost use Rattle.dis_text.specs.Listing.{inst_line, type_line, item_line, link_line};

use crate::instructions::put_insts;
use crate::sections::{put_catches, put_items, put_links, put_tables, put_types};
use crate::words::{put_head, put_number, put_text};
use dis_file::Object;
use std::alloc::{AllocError, Global};

/// The module's name.
fn put_title(alloc: Global, out: &mut Vec<u8>, o: &Object) -> Result<(), AllocError>
    ensures { OnOk result (out.new.items ≡ out.old.items
        ++ (codes "module" ␣ (encode_utf8_all o.now.«module» ++ codes "\n"))) }
{
    out.extend_from_slice(b"module ")?;
    put_text(alloc, out, &o.module)?;
    out.extend_from_slice(b"\n")
}

/// A name and a number behind it.
fn put_named(out: &mut Vec<u8>, name: &[u8], number: u32) -> Result<(), AllocError>
    ensures { OnOk result (out.new.items ≡ out.old.items ++ (name.now ++ decimal number)) }
{
    out.extend_from_slice(name)?;
    put_number(out, number as usize)
}

/// The flags, the stack's growth, and where the module starts.
#[tactic(auto, unfolding(crate::specs::Listing::entry_line))]
fn put_entry(out: &mut Vec<u8>, o: &Object) -> Result<(), AllocError>
    ensures { OnOk result (out.new.items ≡ out.old.items ++ entry_line o.now) }
{
    put_named(out, b"flags ", o.flags)?;
    put_named(out, b" stack ", o.stack)?;
    put_named(out, b" entry ", o.entry_pc)?;
    put_named(out, b" type ", o.entry_type)?;
    out.extend_from_slice(b"\n")
}

fn put_code_section(out: &mut Vec<u8>, o: &Object) -> Result<(), AllocError>
    ensures { OnOk result (out.new.items ≡ out.old.items
        ++ head_line (codes "code") (length o.now.insts) ++ numbered inst_line 0 o.now.insts) }
{
    put_head(out, b"code", o.insts.len())?;
    put_insts(out, o.insts.as_slice())
}

fn put_type_section(out: &mut Vec<u8>, o: &Object) -> Result<(), AllocError>
    ensures { OnOk result (out.new.items ≡ out.old.items
        ++ head_line (codes "types") (length o.now.types) ++ numbered type_line 0 o.now.types) }
{
    put_head(out, b"types", o.types.len())?;
    put_types(out, o.types.as_slice())
}

fn put_data_section(out: &mut Vec<u8>, o: &Object) -> Result<(), AllocError>
    ensures { OnOk result (out.new.items ≡ out.old.items
        ++ head_line (codes "data") o.now.data_size ++ flat_map item_line o.now.items) }
{
    put_head(out, b"data", o.data_size as usize)?;
    put_items(out, o.items.as_slice())
}

fn put_link_section(alloc: Global, out: &mut Vec<u8>, o: &Object) -> Result<(), AllocError>
    ensures { OnOk result (out.new.items ≡ out.old.items
        ++ head_line (codes "links") (length o.now.links) ++ flat_map link_line o.now.links) }
{
    put_head(out, b"links", o.links.len())?;
    put_links(alloc, out, o.links.as_slice())
}

/// The tables of imports, where a flag says that there are any.
#[tactic(auto, unfolding(crate::specs::Listing::imports_lines))]
fn put_import_section(alloc: Global, out: &mut Vec<u8>, o: &Object) -> Result<(), AllocError>
    ensures { OnOk result (out.new.items ≡ out.old.items ++ imports_lines o.now) }
{
    if o.flags != 0x100 && o.flags != 0x300 {
        return Ok(());
    }
    put_head(out, b"imports", o.imports.len())?;
    put_tables(alloc, out, o.imports.as_slice())
}

/// The handlers, where a flag says that there are any.
#[tactic(auto, unfolding(crate::specs::Listing::catches_lines))]
fn put_catch_section(alloc: Global, out: &mut Vec<u8>, o: &Object) -> Result<(), AllocError>
    ensures { OnOk result (out.new.items ≡ out.old.items ++ catches_lines o.now) }
{
    if o.flags != 0x200 && o.flags != 0x300 {
        return Ok(());
    }
    put_head(out, b"catches", o.catches.len())?;
    put_catches(alloc, out, o.catches.as_slice())
}

/// The sections from the data on.
fn put_behind_types(alloc: Global, out: &mut Vec<u8>, o: &Object) -> Result<(), AllocError>
    ensures { OnOk result (out.new.items ≡ out.old.items
        ++ (head_line (codes "data") o.now.data_size
        ++ (flat_map item_line o.now.items
        ++ (head_line (codes "links") (length o.now.links)
        ++ (flat_map link_line o.now.links
        ++ (imports_lines o.now ++ catches_lines o.now)))))) }
{
    put_data_section(out, o)?;
    put_link_section(alloc, out, o)?;
    put_import_section(alloc, out, o)?;
    put_catch_section(alloc, out, o)
}

/// All sections.
pub fn put_object(alloc: Global, out: &mut Vec<u8>, o: &Object) -> Result<(), AllocError>
    ensures { OnOk result (out.new.items ≡ out.old.items ++ listing_of o.now) }
{
    put_title(alloc, out, o)?;
    put_entry(out, o)?;
    put_code_section(out, o)?;
    put_type_section(out, o)?;
    put_behind_types(alloc, out, o)
}
