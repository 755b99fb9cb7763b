//! Rows that move values within a frame, one instruction each. No code stands here, only laws.
//!
//! `specs/Rows`: of which instructions of three-address code it is so that their row leads from where two processes stand alike to where
//! they do again.
#![tactic(auto)]

mod laws;

pub use laws::{globals_go, nils_go, reads_go, writes_go};
