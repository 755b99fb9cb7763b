//! The console as a server of Styx: it answers the requests of link 1.
//!
//! A write to its file `cons` goes to the output's sink whole, and is answered by its count; from the first fault of the sink on,
//! each write is answered `i/o error` and nothing more is taken. `Console` answers one request by `specs/Console`, `answer` one frame
//! by the frame of its reply, as `specs/Exchange` says.
#![tactic(auto)]

mod console;
mod exchange;

pub use console::Console;
pub use exchange::answer;
