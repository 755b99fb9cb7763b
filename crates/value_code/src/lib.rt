//! The machine's code of three-address code over values, and the object of a module. No code stands here, only definitions and laws.
//!
//! `specs/` in the order of reading: `Data` (what code has in the module's data, and types that it names), `Operands` (slots, variables and
//! places), `Works` (operations), `Code` (each instruction), `Objects` (the object of a module), and `Laws` (what it has).
#![tactic(auto)]

mod laws;

pub use laws::{constants_lie_apart, entries_begin, objects_have};
