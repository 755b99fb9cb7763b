//! The code of a checked module's expressions, over whole values.
//!
//! What comes out is what `core_code` says of the trees that the expressions are in evaluation: `lower_expr` gives that code, of every
//! expression, with the drops of what it got.
//!
//! Read `operands`, `types`, `moves`, `completing`, `elements`, `lowering`, `declaring`.
#![tactic(auto)]

mod completing;
mod declaring;
mod elements;
mod lowering;
mod moves;
mod operands;
mod types;

pub use declaring::lower_declared;
pub use lowering::lower_expr;
pub use operands::{Operand, operands_of};
