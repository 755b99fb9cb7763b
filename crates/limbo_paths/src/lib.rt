//! Whether a path of a function runs to its end (Limbo Language Reference, statements): a function with an answer mustn't have one.
//!
//! `specs/Paths.antt` says on which ways control leaves a statement: on to what stands behind it, or by a `break` or `continue` to a
//! loop or branch around it. A loop without a condition is left by its jumps alone; of these each counts that stands in it, whether
//! it is reached or not. `specs/Runs.antt` says how control runs, and `specs/Laws.antt` that no execution runs to the end of a body
//! that has no way through by those rules. `specs/Walking.antt` has the ways as tests, which the code follows. It stands on the
//! typed tree alone: the checker gives a loop whose condition is constant and isn't 0 no condition, and each jump the number of the
//! loop or branch that it goes to. The checker of statements will stand on this crate.
//!
//! Read `falling`, `taking`, `jumps`, `laws`.
#![tactic(auto)]

mod falling;
mod jumps;
mod laws;
mod taking;

pub use falling::falls_through;
pub use laws::{answers_never_end, runs_are_ways};
