//! The values of the constants of a source (Limbo Language Reference, constant expressions).
//!
//! `specs/Values.antt` says which value a constant has: the one that its expression comes to, where each name in it means the constant
//! that it names, and `iota` counts the names of the declaration if no declaration has that name. Constants may be declared in any
//! order; one that needs itself has no value. An initial value is `nil` or constant by the same rules. Values are found in an order
//! (`limbo_order`), each behind those that it needs, so nothing recurses from constant to constant.
//!
//! Read `values`, `initial`, `laws`; within, `answers`, `meaning`, `needs`.
#![tactic(auto)]

mod answers;
mod fault;
mod initial;
mod laws;
mod meaning;
mod needs;
mod values;

pub use fault::ValuesFault;
pub use initial::{check_initial, find_initials, initial_in, is_nil};
pub use laws::one_value;
pub use values::evaluate_all;
