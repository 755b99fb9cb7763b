//! Strings, arrays, slices and lists on the blocks of a heap.
//!
//! A string is a compact block with the codes of its characters, and nil is the empty one (`specs/Texts.antt`). An array is
//! a block with the words of its elements, one element after the other; a slice refers to the array itself, also where it
//! is a slice of a slice; the number that the heap keeps of an array's elements is how many bytes one takes
//! (`specs/Arrays.antt`). A cell of a list has a reference word with the rest, and then the words of
//! its element (`specs/Lists.antt`). An array without references is kept as numbers, an array of bytes with four in each
//! (`specs/Bytes.antt`). Each call is told as the operation on the lists that the blocks stand for.
//!
//! Read `texts`, `conversions` (numbers as strings and back, by the definitions of `limbo_values`), `arrays`, `bytes`,
//! `copies`, `references`, `lists`.
#![tactic(auto)]

mod arrays;
mod bytes;
mod conversions;
mod copies;
pub mod laws;
mod lists;
mod references;
mod texts;

pub use arrays::{Span, array_len, element, new_array, part, slice};
pub use bytes::{byte_at, set_byte};
pub use conversions::{number_in_text, text_of_number};
pub use copies::{CopyFault, copy_plain};
pub use lists::{cons, head, list_len, tail};
pub use references::copy_references;
pub use texts::{
    append, character, code_at, codes, compare_texts, join, new_text, set_code, sub_text, text_len,
    to_text,
};
