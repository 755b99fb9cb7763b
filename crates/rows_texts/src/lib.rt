//! Rows of strings. No code stands here, only laws.
//!
//! `specs/Rows`: of which instructions of three-address code it is so that their row leads from where two processes stand alike to where
//! they do again.
#![tactic(auto)]

mod laws;

pub use laws::{
    bytes_texts_go, characters_go, joins_go, lengths_go, number_texts_go, readings_go, slices_go,
    text_bytes_go, text_compares_go,
};
