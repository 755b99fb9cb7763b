//! Reads expressions (Limbo Language Reference, expressions) from the front of a list of tokens.
//!
//! `specs/Exprs.antt` has `readers` as functions on lists of tokens, which the contracts cite: each function of the code
//! gives the tree, the nesting and the rest that they give, or their fault. `proofs/Laws.antt` has what these readers keep:
//! a tree that is spelled is read back, what is read is spelled so, more budget changes nothing but a fault of depth, and
//! such a fault has as many tokens before it as the budget allows nestings. Operators are read by climbing, with few frames
//! a nesting. Types, operators and the parts without expressions are `limbo_expr_parts`. The parsers of declarations and
//! statements stand on it.
#![tactic(auto)]

mod arrays;
mod expr;
mod lists;
mod postfix;

pub use expr::{expr_at, unary_at};
