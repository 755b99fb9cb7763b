//! What references of the machine with memory lead to, as a program beside the definition of dis_memory.
//!
//! A reference leads to a string (`text_of`), to an array or part of one (`elements_of`), or to the first cell of a list (`first_cell`,
//! and of that the words of its element and the rest of its list); words and bytes of a region are found as they are to be copied.
//! Nothing is changed here. What memory is, and the regions in it, dis_places says; `view_elements` and `view_linked` of `specs/` join
//! what is found here to what the definitions find.
#![tactic(auto)]

mod arrays;
mod copies;
mod lists;
mod texts;

pub use arrays::{Elements, elements_of};
pub use copies::{bytes_from, plain_words, taken_words, typed_words};
pub use lists::{element_word, first_cell, list_length, rest_of};
pub use texts::text_of;
