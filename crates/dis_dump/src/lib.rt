//! Lists the object in a file of the host on a sink: all that the command `dump` does between its words and its
//! closing line.
//!
//! `specs/Dump.antt` says what it does. Which bytes spell an object, and which field is the first faulty one, stands in
//! `dis_format`; what its listing is, in `dis_text`.
#![tactic(auto)]

mod command;
mod listing;

pub use command::{DumpEnd, dump_file};
pub use listing::list_bytes;
