//! Numbers and strings: what each operator and each conversion of the language gives, and which exception it raises instead.
//!
//! A number is a byte, an int or a big. `specs/Numbers.antt` has their ranges and how a number wraps, `specs/Operators.antt`
//! what each operator gives, over the integers by the kind of number, `specs/Conversions.antt` the conversions and
//! `specs/Texts.antt` the operations on strings. Who has an operator as data calls the functions on `Number`; who has one
//! fixed operator on `u8`, `i32` or `i64` calls those of `byte`, `int` and `big`, and std's own method where that is already
//! what the definition says (`wrapping_add`). Both cite one definition. The checker's constants, the meaning of programs and
//! the machine's instructions stand on it.
//!
//! Read `operator`, `number`, `int`, `texts`, `laws`.
#![tactic(auto)]

pub mod big;
pub mod byte;
pub mod int;
mod laws;
mod number;
mod operator;
mod raised;
mod texts;

pub use laws::{
    conversions_keep, counts_are_reduced, division_gives_back, reads_back, remainder_has_sign,
    shift_multiplies, stays_in_range, texts_are_ordered, wraps,
};
pub use number::{Kind, Number, alter, apply, compare, deny, number_of_text, shift};
pub use operator::{Comparison, Operator, Shift, Unary};
pub use raised::{JoinFault, Raised};
pub use texts::{
    bounds_in, character_in, compare_texts, index_in, join, joined_len, slice_in, text_len,
};
