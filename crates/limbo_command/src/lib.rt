//! Writes a valid object to a file of the host: all that the command `limbo` does between the compiler and its closing line.
//!
//! `specs/Write.antt` says what stands where afterwards. Which bytes are the written form of an object stands in `dis_format`.
#![tactic(auto)]

mod command;

pub use command::{WriteEnd, write_at};
