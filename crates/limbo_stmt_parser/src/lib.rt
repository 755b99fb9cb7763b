//! Reads statements from their tokens, by recursive descent.
//!
//! `stmt_at` reads a statement of nesting up to a budget, `block_at` a block. `specs/Stmts.antt` has the readers as functions on lists
//! of tokens, and each function of the code gives what its reader gives; what of statements holds no statements is `limbo_stmt_parts`.
//! The parser of sources stands on it.
#![tactic(auto)]

mod jump;
mod stmt;

pub use stmt::{block_at, stmt_at};
