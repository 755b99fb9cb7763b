//! Three-address code: what the compiler's first pass makes of a checked module, with what its instructions do.
//!
//! A function has variables and temporaries, and an instruction reads such places and writes one, each of which holds a whole value.
//! Control goes on to the next instruction; a jump says how many instructions it passes, forward or back, and doesn't know where its
//! function stands.
//!
//! `specs/` in the order of reading: `Code` (instructions, functions, modules as plain data), `View` (how the code's data are these),
//! `Layout` (where variables stand), `Machine` (frames), `Step` (one instruction), `Rules` (the instructions as a language of
//! process_model).
#![tactic(auto)]

mod code;

pub use code::{GlobalVariable, Inst, Operand, SlotFn, SlotModule, Spot};
