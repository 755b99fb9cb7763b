//! Rows of the loops of initialisers. No code stands here, only laws.
//!
//! `specs/Rows`: of which instructions of three-address code it is so that their row leads from where two processes stand alike to where
//! they do again.
#![tactic(auto)]

mod laws;

pub use laws::{named_nexts_go, takes_end};
