//! Typed statements and functions are sound (Limbo Language Reference, statements and functions).
//!
//! The rules of statements say which typed statement a statement is, and where the checking of the body is behind it. The laws say that
//! variables, handlers and the lists that names lead to only grow, so that what is once there stays (`specs/Growing.antt`); that a body
//! which is well stays so, and what it declares is as a module promises, also while an adt or a module is open (`specs/Standing.antt`);
//! that typed statements keep what a checked module promises, where the numbers of the source are in their ranges
//! (`specs/Proper.antt`), as they are where its tokens are; and that functions do. What the lists speak of stays named
//! (`specs/Named.antt`), so that a module which is made of its functions and of what they lead to has named types and sound functions.
//!
//! Read `laws`.
#![tactic(auto)]

mod laws;

pub use laws::{
    blocks_are_proper, described_before, functions_are_sound, lists_stay_named, modules_are_sound,
    points_grow, points_stay, statements_are_sound,
};
