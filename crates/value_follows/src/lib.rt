//! That the machine's code of three-address code over values follows it. No code stands here, only definitions and laws.
//!
//! `specs/` in the order of reading: `Stands` (when a process of the machine stands for one of three-address code), `Sides` (both as two
//! sides of many processes), and laws: `Kept` (while others step, and what many processes ask that doesn't depend on the code), `Rooted`
//! (that they hold the same), `Rows` (that the code of an instruction leads from where two stand alike to where they do again; what
//! other laws give for that; and of which instructions it is so).
#![tactic(auto)]

mod laws;

pub use laws::{
    arithmetic_goes, backs_go, compares_go, converts_go, denials_go, jumps_go, known_goes,
    literals_go, mirrors_go, places_are, shifts_go, stands_kept, stands_rooted, texts_go,
    truths_go, unless_goes,
};
