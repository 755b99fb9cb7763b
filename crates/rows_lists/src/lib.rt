//! Rows of arrays, lists and channels. No code stands here, only laws.
//!
//! `specs/Rows`: of which instructions of three-address code it is so that their row leads from where two processes stand alike to where
//! they do again.
#![tactic(auto)]

mod laws;

pub use laws::{
    arrays_go, cells_go, channels_go, conses_go, counts_go, distincts_go, heads_go, identicals_go,
    known_comparable, lengths_go, slices_go, tags_go, tails_go,
};
