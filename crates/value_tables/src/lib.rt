//! What the second pass needs to make objects over values, apart from rooms and places: the module's data, the object's types, and opcodes.
//!
//! `items` makes one item of the module's data, `formats` the text of a print's format, `indices` puts the indices of an initialiser in
//! order, and `store` adds data one behind the other, each at a multiple of 8. `descs` makes a type of the machine from its size and the
//! places of its references; `known` collects types, each once, in the order in which they come first, and finds their numbers;
//! `regions` makes those of regions of slots. `ops` chooses the machine's instruction for an operation, and says which numbers are
//! immediates.
//!
//! `specs/Growing` says how the module's data grow. In `proofs/`, `Grown` has what grows by some data and then by more, and `Distinct` the
//! same of types.
#![tactic(auto)]

mod descs;
mod formats;
mod indices;
mod items;
mod known;
mod ops;
mod regions;
mod store;

pub use descs::make_desc;
pub use formats::format_text;
pub use indices::sorted;
pub use items::{byte_item, initial_item, length_item, long_item, string_item, word_item};
pub use known::{add_desc, is_known, number_among};
pub use ops::{
    arithmetic_op, branch_op, channel_op, cons_op, fits_source, head_op, length_op, move_op,
    shift_op, slice_op, text_branch_op,
};
pub use regions::{region_desc, turn_desc};
pub use store::{
    Data, put_constant, put_indices, put_length, put_long, put_text, put_word, put_zero,
};
