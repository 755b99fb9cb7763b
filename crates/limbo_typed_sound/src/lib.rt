//! Typed trees are sound (Limbo Language Reference, expressions).
//!
//! The rules of expressions say which typed tree an expression is. The laws say that such a tree keeps what a checked module promises,
//! however deep its parts stand: each number in it names something, no `nil` is left open, and the types fit. An expression that is open
//! yet, as `nil` and `(1, nil)`, is sound as soon as a type is asked for. `specs/Describing.antt` says what a context knows of its module,
//! and when a body is well, `specs/Proper.antt` what is asked of the source. What is made of checked expressions rests on it.
//!
//! Read `laws`.
#![tactic(auto)]

mod laws;

pub use laws::{
    bodies_stay_well, numbers_are_in_range, patterns_are_sound, typed_trees_are_sound,
    variables_only_grow,
};
