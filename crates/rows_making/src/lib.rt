//! Rows that make values: what a `ref` names, and lists of items that have a record of their own. No code stands here, only laws.
//!
//! `specs/Rows`: of which instructions of three-address code it is so that their row leads from where two processes stand alike to where
//! they do again.
#![tactic(auto)]

mod laws;

pub use laws::{box_cells_go, box_conses_go, no_items_go, refs_go, same_converts_go};
