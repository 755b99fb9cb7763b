//! What a run took: how many quanta and how many replies its journal has, and the line that tells it.
//!
//! `specs/Stats.antt` has both. The program stands on it.
#![tactic(auto)]

mod stats;

pub use stats::Stats;
