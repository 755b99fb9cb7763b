//! Three-address code over whole values, as the compiler has it between its two passes.
//!
//! What its instructions do, and which code a program has, is said in `core_code`. `specs/View` says how the data here are the code that
//! is spoken of there: the same but for the boxes.
#![tactic(auto)]

mod code;

pub use code::{CoreFn, CoreProgram, Inst, Known, Root, Way, Work};
