//! The constant that a typed expression is (Limbo Language Reference, constant expressions): an index of an initialiser, a label of a
//! `case`, the value of a `con` in a body, the condition of an endless loop.
//!
//! `specs/Folding.antt` has the definition: an expression is constant that is made of numbers, strings, conversions between numbers, and
//! operators on numbers and strings; it gives a constant, or its evaluation would raise. The arithmetic is that of limbo_values. The
//! checkers of expressions and statements stand on it.
//!
//! Read `outcome`, `operations`, `folding`, `laws`.
#![tactic(auto)]

mod folding;
mod laws;
mod operations;
mod outcome;

pub use folding::fold;
pub use laws::in_range;
