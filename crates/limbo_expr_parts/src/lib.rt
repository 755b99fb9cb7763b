//! Reads types, operators, and the parts of expressions that hold no expression (Limbo Language Reference, types and
//! expressions), from the front of a list of tokens.
//!
//! `specs/Types.antt`, `Operators.antt` and `Parts.antt` have the readers as functions on lists of tokens, which the
//! contracts cite: each function of the code gives the tree, the nesting and the rest that they give, or their fault.
//! `proofs/TypeLaws.antt` has what the reader of types keeps. The parser of expressions, which puts these parts together,
//! and the parsers above it stand on it.
#![tactic(auto)]

mod boxes;
mod operators;
mod parts;
mod types;

pub use boxes::{boxed, built, push_expr, push_type};
pub use operators::{after_load, assign_after, op_within, right_level, unary_at_front};
pub use parts::{
    after_comma_inside, after_rest, channel_at, comma_and_brace, is_ended, leaf_at, part_behind,
    sized_at,
};
pub use types::type_at;
