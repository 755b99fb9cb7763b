//! That what rows of three-address code over values take from other laws is there. No code stands here, only a definition and a law.
//!
//! `specs/`: `Bases` (that it is so for every module).
#![tactic(auto)]

mod laws;

pub use laws::bases_hold;
