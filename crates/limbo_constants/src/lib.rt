//! Constant expressions: what each comes to (Limbo Language Reference, constant expressions).
//!
//! `specs/Constants.antt` has the definition, `outcome`: an expression gives a constant, or its evaluation would raise an
//! exception, or it isn't constant, by its form and the table of sorts in `specs/Sorts.antt`. Nothing here knows of scopes: who
//! asks says by `Known` what names, `m->k` and `x.k` mean, and `asked` lists those parts of an expression, so that they can be
//! found before it is evaluated. `laws` has what follows from the definition. The arithmetic is that of limbo_values. The
//! declaring of names and the checker of bodies stand on it.
//!
//! Read `constant`, `known`, `evaluating`, `asking`, `laws`; within, `rows`, `operand`, `values`.
#![tactic(auto)]

mod asking;
mod constant;
mod evaluating;
mod known;
mod laws;
mod operand;
mod rows;
mod values;

pub use asking::asked;
pub use constant::{Constant, Outcome, Sort};
pub use evaluating::{evaluate, outcome_of};
pub use known::Known;
pub use laws::{depends_on_asked, has_its_sort, stays_in_range};
