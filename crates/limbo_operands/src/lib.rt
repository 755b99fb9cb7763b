//! Typed operands: in a row, as what is asked of them, and as places (Limbo Language Reference, expressions).
//!
//! `specs/Operands.antt` has rows of one and of two, and which expression is a place. What puts typed parts together stands on it.
//!
//! Read `operands`.
#![tactic(auto)]

mod operands;

pub use operands::{one_operand, place_of, settled_as, two_operands};
