//! A heap with exact counts is its own cut: what its drops leave is what stays of a list of places by references alone. No code
//! stands here, only definitions and laws.
//!
//! The heap with counts is ref_heap's, which frees a block with the last reference to it, and what it alone kept. The list is
//! heap_model's, which counts nothing: behind each step it is cut to the greatest part that is named from outside or by itself.
//! `shapes` tells the one as the other, and the laws say that both lose the same: so code over the first is a machine that is
//! defined over the second.
//!
//! `specs/Shapes` has the list of a heap's blocks, `specs/Laws` what the laws speak of.
#![tactic(auto)]

mod laws;

pub use laws::{cut, early, mapped, names, places, renewed, same_roots, uncut};
