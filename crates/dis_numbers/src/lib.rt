//! The instructions of the Dis machine with memory on bytes, ints and bigs, as code beside dis_memory's definitions.
//!
//! `arithmetic` has one function for each family of instructions, with the kind of number and the operator as data; `branches` those that
//! go on elsewhere where a comparison holds, which compare two references too; `table` which operation is of which family (`obey_row`).
//! Operands and results are dis_places' and dis_results'.
#![tactic(auto)]

mod arithmetic;
mod branches;
mod table;

pub use arithmetic::{calculate, convert, move_number, shift_by};
pub use branches::branch_where;
pub use table::{Row, number_row, obey_row};
