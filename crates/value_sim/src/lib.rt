//! That a machine with the object of a module over values runs what the module means, whatever quanta and replies come. No code stands
//! here, only definitions and laws.
//!
//! `specs/`: `Meaning` (what journals mean).
#![tactic(auto)]

mod laws;

pub use laws::{modules_mean, suiting_mean};
