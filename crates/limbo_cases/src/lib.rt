//! Whether the labels of a `case` are apart (Limbo Language Reference, case statement): no value may fit two of them.
//!
//! A label is a value, or a range of values with both its ends. Labels are ints, bigs or strings; `*` is none of these, and is the
//! caller's to count. `specs/Labels.antt` says when a value fits a label, when two labels overlap, and which overlap is the first
//! in a list of labels; `specs/Laws.antt` what follows. `overlapping_numbers` and `overlapping_texts` find that overlap in the
//! orders of the language, and `overlap` in any order, in a time of n log n comparisons. The checker of statements will stand on
//! this crate.
//!
//! Read `label`, `overlapping`, `laws`.
#![tactic(auto)]

mod label;
mod laws;
mod overlapping;

pub use label::Label;
pub use laws::{at_most_one, empty_fits_nothing, ends_decide, first_is_one};
pub use overlapping::{overlap, overlapping_numbers, overlapping_texts};
