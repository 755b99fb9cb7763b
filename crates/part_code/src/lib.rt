//! The first pass of the compiler and the second joined: the code of a module in the part of the language that runs is proper code, as the
//! second pass asks for it, the frames of its functions have no more bytes than `frame_size` counts, and the machine can hold each of its
//! instructions.
//!
//! In `proofs/`, in the order of reading: `Level` has code at its place and how pieces of it are joined, `Alike` what the tests of the part
//! say of kinds, `Operands`, `Conditions` and `Calls` the forms of expressions, `Callees` what a call finds, `Expressions` all of them,
//! `Statements` statements and loops, `Functions` whole functions and modules. Of frames `Held` has what code needs of temporaries and of
//! arguments, `Fitting` and `Making` the forms, `Bounds` expressions, `Counted` and `Weighing` how many places these are and that nodes
//! have room for them, `Rooms` statements and frames, `Examples` a function that needs much room.
#![tactic(auto)]

mod laws;

pub use laws::{frames_fit, part_is_held, part_is_proper};
