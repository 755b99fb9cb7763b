//! How large the frames of functions over values are.
//!
//! No code stands here, only definitions and laws. `specs/` in the order of reading: `Sizes` (what the nodes of a function's statements
//! count in its frame), `Fits` (which slots the code of a tree uses, what it puts into them, and how many bytes that takes), `Places`
//! (where they lie), `Nodes` (how many nodes and slots there may be), `Even` (slots of one size).
#![tactic(auto)]

mod laws;

pub use laws::{
    even_slots_fit, nodes_fit, slots_are_few, slots_are_listed, slots_fit, slots_fit_aligned,
    slots_lie_apart,
};
