//! Rows of values that have a record of their own. No code stands here, only laws.
//!
//! `specs/Rows`: of which instructions of three-address code it is so that their row leads from where two processes stand alike to where
//! they do again.
#![tactic(auto)]

mod laws;

pub use laws::{
    alters_go, big_alters_go, big_arithmetic_goes, big_compares_go, big_converts_go,
    big_literals_go, big_numbers_read_go, big_shifts_go, big_texts_go, bigs_shorten_go,
    box_globals_go, box_heads_go, box_reads_go, slots_differ,
};
