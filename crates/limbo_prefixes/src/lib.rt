//! The rows of Limbo's table of operators before one operand (Limbo Language Reference, expressions).
//!
//! `specs/Rows.antt` has the table itself, a line for each row: what the signs mean, and for an operand of which type there is an
//! operation. The checker of expressions stands on it.
//!
//! Read `signs`, `rows`, `laws`.
#![tactic(auto)]

mod laws;
mod rows;
mod signs;

pub use laws::{one_row, rows_give};
pub use rows::{OneRow, bytes_row, unary_row};
pub use signs::{altering, before_of, converting};
