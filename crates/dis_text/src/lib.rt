//! The content of an object file of the Dis machine as text, line by line: what the command `dump` writes.
//!
//! `specs/Listing.antt` has the text.
#![tactic(auto)]

ghost use Rattle.std.specs.Prelude.{◌≡◌, IfOk};
ghost use Rattle.dis_text.specs.Listing.{listing_of};

mod instructions;
pub mod laws;
mod names;
mod object;
mod sections;
mod words;

use dis_file::Object;
use std::alloc::{AllocError, Global};

/// An object as text: module, flags, code, types, data, links, and where their flags are set imports and handlers. A
/// line for each thing, numbers in decimal, bytes in hexadecimal.
///
/// # Errors
/// Want of memory.
pub fn listing(alloc: Global, o: &Object) -> Result<Vec<u8>, AllocError>
    ensures { IfOk result (λ v. v.items ≡ listing_of o.now) }
{
    let mut out = Vec::new(alloc);
    object::put_object(alloc, &mut out, o)?;
    Ok(out)
}
