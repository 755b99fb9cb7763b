//! A text that is being written, from its front.

ghost use Rattle.std.specs.Prelude.{◌≡◌, [], map, OnOk, encode_utf8_all};
ghost use Rattle.std.specs.Fmt.{decimal};
ghost use Rattle.link_sign.specs.Drafts.{Adds, items_of, view_item};

use inf_text::Text;
use itoa::Buffer;
use limbo_layout::{Field, Variant};
use limbo_types::Ty;
use std::alloc::{AllocError, Global};

/// What is still to be written.
#[derive(Clone, Copy)]
pub enum Pending<'a> {
    /// One byte of the text.
    Letter(u8),
    /// A type.
    Type(&'a Ty),
    /// Types, each behind a comma.
    Types(&'a [Ty]),
    /// The fields of an adt or of a variant.
    Fields(&'a [Field]),
    /// The variants of an adt.
    Variants(&'a [Variant]),
    /// An adt, by its number.
    Whole(u32),
}

/// What is written of a text, and what is still to be written behind it: the last of these is the next.
#[derive(Drop)]
pub struct Draft<'a> {
    pub text: Vec<u8>,
    pub pending: Vec<Pending<'a>>,
}

impl<'a> Draft<'a> {
    /// Nothing is written, and nothing is to be written.
    pub fn new(alloc: Global) -> Draft<'a>
        ensures text { result.text.items ≡ [] }
        ensures pending { items_of result ≡ [] }
    {
        Draft {
            text: Vec::new(alloc),
            pending: Vec::new(alloc),
        }
    }

    /// Writes bytes.
    pub fn put(&mut self, bytes: &[u8]) -> Result<(), AllocError>
        ensures { OnOk result (Adds bytes.now [] self.old self.new) }
    {
        self.text.extend_from_slice(bytes)
    }

    /// Writes a number in decimal.
    pub fn put_number(&mut self, number: usize) -> Result<(), AllocError>
        ensures { OnOk result (Adds (decimal number) [] self.old self.new) }
    {
        let mut buffer = Buffer::new();
        self.put(buffer.format(number).as_bytes())
    }

    /// Writes a name in UTF-8.
    pub fn put_name(&mut self, alloc: Global, name: &Text) -> Result<(), AllocError>
        ensures { OnOk result (Adds (encode_utf8_all name.now) [] self.old self.new) }
    {
        let spelling = name.to_utf8(alloc)?;
        self.put(spelling.as_slice())
    }

    /// Leaves items to be written next, the last of them first.
    pub fn leave(&mut self, items: &[Pending<'a>]) -> Result<(), AllocError>
        ensures { OnOk result (Adds [] (map view_item items.now) self.old self.new) }
    {
        self.pending.extend_from_slice(items)
    }
}
