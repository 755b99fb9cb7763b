//! The two passes of the compiler together: objects keep the meaning of modules.
//!
//! `specs/Keeps` joins a module to its object, over three-address code, and says what is kept: whatever the object's processes do, in
//! any order of quanta and replies, is told of a run of the module, at the pace of 56 instructions for a step at most. `specs/Begins`
//! says with what a machine of the object begins.
#![tactic(auto)]

mod laws;

pub use laws::{machine_begins, object_keeps_meaning, passes_fit};
