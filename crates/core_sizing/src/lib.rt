//! What a checked module's expressions may get, and whether its frames fit.
//!
//! The pass that writes three-address code asks two things of trees. Of an expression, whether its evaluation may get references, as
//! `may_hold` of `limbo_meaning` says of the term that it stands for; and of the module, whether a function's frame or its variables
//! take more than 65,536 bytes, as `core_frames` counts them. Both are asked without a premise: of trees that no checker has seen too.
//!
//! `module_extents` makes the `Extents` of a module and refuses one whose frames don't fit; `may_hold` and those beside it ask of trees.
//!
//! In the order of reading: `specs/Holding` (what may get references, by typed trees), `specs/Sizes` (what parts of expressions count),
//! `holding` (the calls that ask what may be got), `sizes` (what expressions leave of so many bytes), `frames` (statements, functions and
//! the module), `fault`. The file `Terms` of `proofs` shows that typed trees tell what their terms tell.
#![tactic(auto)]

mod fault;
mod frames;
mod holding;
mod sizes;

pub use fault::SizeFault;
pub use frames::{frame_fits, frames_fit, globals_fit, module_extents};
pub use holding::{may_hold, operands_may_hold, pattern_may_hold, printed_may_hold, some_may_hold};
