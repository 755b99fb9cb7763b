//! Steps of one process of the Dis machine with memory, and replies to it, as turns and events of the model of all processes.
//!
//! dis_steps says what `step` and `hear` leave of memory and of one process; process_model says what a turn of a machine is, and a reply,
//! with the one cut behind it. By the laws here the first is the second, where nothing is held outside of blocks but what the process
//! refers to, and that stays so; and what `step` and `hear` ask for holds again behind them. No code stands here.
#![tactic(auto)]

mod laws;

pub use laws::{keeps_given, replies_obey, steps_obey};
