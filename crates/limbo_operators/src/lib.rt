//! The rows of Limbo's table of operators between two operands (Limbo Language Reference, expressions).
//!
//! `specs/Rows.antt` has the table itself, a line for each row: what the signs mean, and for operands of which types there is an
//! operation. The operators before one operand, and the checker of expressions, stand on it.
//!
//! Read `signs`, `rows`, `laws`.
#![tactic(auto)]

mod laws;
mod rows;
mod signs;

pub use laws::{one_row, rows_give};
pub use rows::{Row, binary_row, lazy_row, update_row};
pub use signs::{Binary, binary_of, updating};
