//! Modules, their calls, and prints of the machine with memory, as a program beside the definition of dis_memory.
//!
//! A module is loaded by its path (`load`): so far this is the built-in Sys, whose names memory's tables have. A call of one of its
//! functions (`mcall`) is a print: its frame goes, with all that it refers to, and its answer is stored at once or once a reply has come
//! (`answer`). The contracts cite dis_memory's `Control`, in the forms of dis_calls' `Comes` and of `Hears`, which `specs/` has; the
//! machine stands on it.
//!
//! In the order of reading: `heard`, `discarding` (frames that go), `printing`, `modules`, `replies`.
#![tactic(auto)]

mod discarding;
mod heard;
mod modules;
mod printing;
mod replies;

pub use heard::Heard;
pub use modules::{load, mcall};
pub use replies::answer;
