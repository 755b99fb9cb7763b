//! The first pass of the compiler over values: it writes the three-address code of a checked module.
//!
//! `lower` makes the code that `core_code` defines, or refuses a module with a function whose frame is too large or with too many
//! variables. The code of expressions is `core_writing`'s. A jump says how many instructions lie behind it, so statements are written
//! from the end of a function to its beginning, and its instructions are turned round when they are all there: how many lie behind is how
//! many are written. Only the way back at the end of a loop is written anew once the loop is there. Nothing of the command stands on it
//! yet.
//!
//! `specs/` in the order of reading: `Written` (code as it is written), `Loops` (what is around a statement, and what stands in front of a
//! block), `Frames`. In `src/`, `statements` writes the code of statements, and `lowering` joins it.
#![tactic(auto)]

mod lowering;
mod statements;

pub use lowering::lower;
