//! Rows that put values together of operands. No code stands here, only laws.
//!
//! `specs/Rows`: of which instructions of three-address code it is so that their row leads from where two processes stand alike to where
//! they do again.
#![tactic(auto)]

mod laws;

pub use laws::{empty_gathers_go, first_places_go, gathers_go, later_places_go};
