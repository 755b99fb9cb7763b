//! The signatures that an object carries are those of its functions' types.
//!
//! dis_objects writes the signatures of the functions of `Sys`, and that of `init`, as numbers. Here stand the texts of these types, as
//! `link_sign` defines them, and two laws say that each number is what the text folds to (`specs/Signed`). The prover computes the digests.
#![tactic(auto)]

mod laws;

pub use laws::{imports_signed, links_signed};
