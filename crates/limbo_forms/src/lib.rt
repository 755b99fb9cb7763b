//! Which form a type has, as the checker of expressions asks (Limbo Language Reference, types).
//!
//! `specs/Forms.antt` says each test of a type, and each part of one. The formats of prints, what a value is where a type is asked for,
//! and the table of operators stand on it.
//!
//! Read `form`.
#![tactic(auto)]

mod form;

pub use form::{
    element_of, is_bytes, is_channel, is_int, is_nil, is_reference, is_same, is_settled, is_text,
    item_of, kind_of, of_kind, ref_of, same_kind, sequence_of,
};
