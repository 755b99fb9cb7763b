//! The types of Limbo (Limbo Language Reference, types), as the checker gives them to expressions and variables.
//!
//! A type is plain data: adts and modules stand in it by their numbers in the checked module's own lists.
//! `specs/Types.antt` has the same types without `Box` and `Vec`, `specs/View.antt` joins the two, and what is said of types
//! anywhere is said of those. `equal` tells whether two types are the same one, `copy` gives a type once more. The typed trees, the
//! checker and the compiler stand on it.
#![tactic(auto)]

mod copying;
mod sameness;
mod ty;

pub use copying::{copy, copy_all, copy_fn};
pub use sameness::equal;
pub use ty::{FnTy, Ty};
