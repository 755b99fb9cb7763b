//! The first pass of the compiler over the whole checked language: it writes the three-address code of a checked module.
//!
//! `lower` makes the code that `typed_lower` defines, or refuses a module with a function whose frame is too large or with too many
//! variables. A jump says how many instructions lie behind it, so code is written from its end to its beginning, and a function's
//! instructions are turned round when they are all there: how many lie behind is how many are written. Only the way back at the end of
//! a loop is written anew once the loop is there.
//!
//! `specs/` in the order of reading: `Terms` (expressions by the forms that have code), `Weights` (how many temporaries they need at
//! most), `Written` (code as it is written), `Operands` and `Conditions` (what instructions take), `Loops` (what is around a
//! statement). In `src/`, `terms` reads the trees, `kinds` asks what the definition of the code asks of them, `sizes` counts frames,
//! `operands` writes instructions, `expressions` and `statements` write the code of trees, and `lowering` joins it.
#![tactic(auto)]

mod conditions;
mod expressions;
mod fault;
mod kinds;
mod lowering;
mod operands;
mod sizes;
mod statements;
mod terms;

pub use fault::LowerFault;
pub use lowering::lower;
