//! What the meaning of a module in the part of the language that runs keeps of what the checker found: no process of such a module is
//! ever without a rule for its next step, operations are only ever applied to numbers of the kinds that they take, and functions
//! only ever called with numbers of the kinds of their parameters.
//!
//! `specs/` has `Going` and `Fitting`, which say the laws.
//!
//! In `proofs/`, in the order of reading: `Results` has what operations give of numbers of their kinds, `Alike` what the tests of the
//! part say of kinds, `Sound` what is so of the trees of a process before each step, and that each step and each reply keeps it,
//! `Operands` what then fits, `Going` that the functions of a module of the part begin so.
#![tactic(auto)]

mod laws;

pub use laws::{always_going, arguments_fit, operands_fit};
