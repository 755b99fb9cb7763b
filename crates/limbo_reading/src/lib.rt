//! What reads the front of a list of tokens: faults, marks, keywords and names, and what a reader promises.
//!
//! `specs/Reading.antt` and `Lists.antt` have readers as functions on lists of tokens, and `Gives`, which says that a
//! function of the code gives what such a reader gives. The laws that each reader of the grammar has (what is spelled is
//! read, what is read is spelled, more budget changes nothing but a fault of depth, and where that fault stands) are
//! joined step by step in `proofs/Steps.antt`, for lists in `Lists.antt`, and for loops that read lists in `Loops.antt`.
#![tactic(auto)]

mod fault;
mod look;
mod names;

pub use fault::{Fault, ReadError};
pub use look::{
    after_key, after_mark, expect_key, expect_mark, expect_name, place, syntax, too_deep,
};
pub use names::{expect_choices, expect_names};
