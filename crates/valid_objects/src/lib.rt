//! The objects that the compiler makes are valid object files: some bytes spell them.
//!
//! `specs/Writable` says which modules of three-address code have such an object: proper code, small frames and variables, not too many
//! instructions, and instructions that the machine can hold. The law `object_is_valid` has it for the object that dis_objects defines. In
//! `proofs/`, `Spelling` has which parts bytes spell, `Numbers` and `Places` what is small, `Operands` and `Instructions` the code, `Types`
//! the types with their maps, `Items` the module's data, and `Whole` the object.
#![tactic(auto)]

mod laws;

pub use laws::object_is_valid;
