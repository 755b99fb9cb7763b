//! Reads the tree of a source, or of an included text, from its tokens, by recursive descent.
//!
//! `parse` is the one call. Its clauses cite `IsTree` of `limbo_tree`, which is the grammar: a tree is answered exactly
//! where the tokens have one of nesting up to 256, a fault of syntax only where they have none at all. `one_tree` says that
//! they never have two. `specs/Sources.antt` has the readers as functions on lists of tokens, and each function of the code
//! gives what its reader gives. Statements are read by `limbo_stmt_parser`. The checker of types stands on it.
#![tactic(auto)]

mod laws;
mod source;
mod tree;

pub use laws::one_tree;
pub use tree::{ParseFault, parse};
