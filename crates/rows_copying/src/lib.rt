//! Rows that copy elements of arrays. No code stands here, only a law.
//!
//! `specs/Rows`: that the row of such an instruction of three-address code leads from where two processes stand alike to where they do
//! again.
#![tactic(auto)]

mod laws;

pub use laws::copies_go;
