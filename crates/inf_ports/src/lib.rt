//! What a program meets outside itself: a tree of files and sinks of bytes, each with a count of its faults.
//!
//! The calls are traits, whose contracts stand on the words of `specs/Outside.antt`: an object may tell its content,
//! a call that fails raises the object's count, and the count never falls. `MemTree` and `MemSink` stand in for the
//! outside in memory and tell their content. `StdTree` and `StdSink` are the real files and streams, and tell none.
//! What the project does outside itself, it does through these traits alone.
#![tactic(auto)]

mod host_tree;
mod mem_sink;
mod mem_tree;
mod plan;
mod sink;
mod std_sink;
mod std_tree;
#[cfg(test)]
mod tests;
mod why;

pub use host_tree::{HostFault, HostTree};
pub use mem_sink::MemSink;
pub use mem_tree::MemTree;
pub use sink::{Failed, Sink, write_whole};
pub use std_sink::StdSink;
pub use std_tree::StdTree;
pub use why::Why;
