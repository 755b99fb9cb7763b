//! Runs a machine: hands its requests to the console, and the replies to the machine.
//!
//! `run_machine` runs a machine to its end; its contract cites `Conversation` of `specs/`, which says what the journal, the requests, the
//! console's replies and the bytes on the output are, whatever the machine's objects are. `specs/Talk` is what holds between two events,
//! `specs/Replies` which replies a print takes. The program stands on it.
#![tactic(auto)]

mod exchange;
mod run;

pub use run::{Ran, run_machine};
